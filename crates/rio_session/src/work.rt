//! A command is judged and done.
use crate::{Replies, Session, SessionFault};
use rio_host::Host;
use rio_judge::{AnyWork, JudgedWithTrees, TreeWork, Work, judge_with_trees};
use rio_machine::{Command, Outcome};

impl Session {
    ghost use Rattle.std.specs.Prelude.{◌≡◌, ◌<◌, ◌^◌, false};
    ghost use Rattle.rio_machine.specs.declared.command.Command.{Command as Line};
    ghost use Rattle.rio_step.specs.Statable.{IsStatable};
    ghost use Rattle.rio_session.specs.Causes.{NeverReads};
    ghost use Rattle.rio_session.specs.Does.{Does};
    ghost use Rattle.rio_session.specs.Doable.{AnyCanBeDone, CanBeDone, IsToDo, ReadsNothing};
    ghost use Rattle.rio_session.specs.Sound.{IsSoundState};
    ghost use Rattle.rio_session.specs.Session.{IsReady};

    // Does the work of a command with an object or a class.
    fn item_work<H: Host>(
        &mut self,
        host: &mut H,
        work: Work,
        replies: Replies,
    ) -> Result<Outcome, SessionFault>
        requires fresh { self.old.failed ≡ false }
        requires ready { IsReady (H.view host.old) self.old }
        requires can { CanBeDone self.old work }
        ensures does { (c : Line) → IsToDo self.old c (AnyWork.Item work)
            → Does replies (H.view host.old) (H.view host.new) self.old self.new c result }
        ensures reads { ReadsNothing (AnyWork.Item work)
            → (H.view host.new).reads ≡ (H.view host.old).reads }
    {
        match work {
            Work::Class(new) => self.class(host, new, replies),
            Work::Put(object) => self.put(host, &object, replies),
            Work::Batch(objects) => self.put_all(host, objects.as_slice(), replies),
            Work::Delete(head) => self.delete(host, &head, replies),
            Work::Get { head, version } => self.get(host, &head, version, replies),
            Work::Ls => self.list(host, replies),
        }
    }

    // Does the work of a command with a tree.
    fn tree_work<H: Host>(
        &mut self,
        host: &mut H,
        work: TreeWork,
        replies: Replies,
    ) -> Result<Outcome, SessionFault>
        requires fresh { self.old.failed ≡ false }
        requires ready { IsReady (H.view host.old) self.old }
        requires can { AnyCanBeDone self.old (AnyWork.Tree work) }
        ensures does { (c : Line) → IsToDo self.old c (AnyWork.Tree work)
            → Does replies (H.view host.old) (H.view host.new) self.old self.new c result }
        ensures reads { ReadsNothing (AnyWork.Tree work)
            → (H.view host.new).reads ≡ (H.view host.old).reads }
    {
        match work {
            TreeWork::Make(new) => self.tree(host, new, replies),
            TreeWork::Fill(row) => self.fill(host, row, replies),
            TreeWork::Save(head) => self.save(host, &head, replies),
            TreeWork::Delete(head) => self.delete(host, &head, replies),
            TreeWork::Scan { head, class } => self.scan(host, &head, &class, replies),
        }
    }

    // Does the work of a command.
    fn work<H: Host>(
        &mut self,
        host: &mut H,
        work: AnyWork,
        replies: Replies,
    ) -> Result<Outcome, SessionFault>
        requires fresh { self.old.failed ≡ false }
        requires ready { IsReady (H.view host.old) self.old }
        requires can { AnyCanBeDone self.old work }
        ensures does { (c : Line) → IsToDo self.old c work
            → Does replies (H.view host.old) (H.view host.new) self.old self.new c result }
        ensures reads { ReadsNothing work → (H.view host.new).reads ≡ (H.view host.old).reads }
    {
        match work {
            AnyWork::Item(work) => self.item_work(host, work, replies),
            AnyWork::Tree(work) => self.tree_work(host, work, replies),
        }
    }

    // Judges a command, and does its work, or prints why it is refused. Where replies are omitted, nothing is printed.
    pub(crate) fn judge_and_do<H: Host>(
        &mut self,
        host: &mut H,
        command: &Command,
        replies: Replies,
    ) -> Result<Outcome, SessionFault>
        requires fresh { self.old.failed ≡ false }
        requires statable { IsStatable command.now }
        requires ready { IsReady (H.view host.old) self.old }
        ensures does { Does replies (H.view host.old) (H.view host.new) self.old self.new
            command.now result }
        ensures reads { NeverReads command.now
            → (H.view host.new).reads ≡ (H.view host.old).reads }
        ensures sound { IsSoundState self.old }
        ensures soon { self.old.datime < 2 ^ 32 }
    {
        match judge_with_trees(
            self.alloc,
            &self.registry,
            &self.table,
            &self.trees,
            command,
        )? {
            JudgedWithTrees::Refused(refusal) => self.refuse(host, refusal, 0, replies),
            JudgedWithTrees::Accepted(work) => self.work(host, work, replies),
        }
    }
}
