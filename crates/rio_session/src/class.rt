//! A class is declared.
use crate::list::list_key_length;
use crate::place::place_within;
use crate::replies::class_text;
use crate::{Replies, Session, SessionFault};
use rio_chain::PlanFault;
use rio_host::Host;
use rio_judge::NewClass;
use rio_machine::{Outcome, Refusal};
use rio_num::padded;

impl Session {
    ghost use Rattle.std.specs.Prelude.{◌≡◌, false, IfOk};
    ghost use Rattle.rio_judge.specs.declared.work.AnyWork.{AnyWork};
    ghost use Rattle.rio_judge.specs.declared.work.Work.{Work};
    ghost use Rattle.rio_machine.specs.declared.command.Command.{Command as Line};
    ghost use Rattle.rio_machine.specs.declared.command.Outcome.{Outcome as BecameOf};
    ghost use Rattle.rio_session.specs.Changing.{ChangesFile};
    ghost use Rattle.rio_session.specs.Doable.{CanBeDone, IsToDo};
    ghost use Rattle.rio_session.specs.Does.{Does};
    ghost use Rattle.rio_session.specs.Lists.{CanBeListedAt, listing_at, with_new};
    ghost use Rattle.rio_session.specs.Session.{IsReady};

    // Declares a class, writes the list of all classes at the place, and prints a reply. Where memory is wanting the class
    // isn't declared.
    fn declare_at<H: Host>(
        &mut self,
        host: &mut H,
        place: u64,
        new: NewClass,
        text: &[u8],
        cost: u64,
    ) -> Result<Outcome, SessionFault>
        requires fresh { self.old.failed ≡ false }
        requires ready { IsReady (H.view host.old) self.old }
        requires can { CanBeDone self.old (Work.Class new) }
        requires at { CanBeListedAt (with_new self.old new) place }
        ensures changes { ChangesFile (listing_at (with_new self.old new) place text.now cost)
            (H.view host.old) (H.view host.new) self.old self.new result }
        ensures outcome { IfOk result (λ outcome. outcome ≡ BecameOf.Accepted) }
        ensures reads { (H.view host.new).reads ≡ (H.view host.old).reads }
    {
        // No rule is broken, so only memory can be wanting.
        if self.registry.declare(new.class).is_err() {
            return Err(SessionFault::NoMemory);
        }
        match self.write_list(host, place, text, cost) {
            Ok(outcome) => Ok(outcome),
            Err(SessionFault::NoMemory) => {
                self.registry.forget_last();
                Err(SessionFault::NoMemory)
            }
            Err(SessionFault::HostFault) => Err(SessionFault::HostFault),
            Err(SessionFault::SayFault) => Err(SessionFault::SayFault),
        }
    }

    // Declares a class, with its list at the place of the rule, or refuses it where there is no room.
    pub(crate) fn class<H: Host>(
        &mut self,
        host: &mut H,
        new: NewClass,
        replies: Replies,
    ) -> Result<Outcome, SessionFault>
        requires fresh { self.old.failed ≡ false }
        requires ready { IsReady (H.view host.old) self.old }
        requires can { CanBeDone self.old (Work.Class new) }
        ensures does { (c : Line) → IsToDo self.old c (AnyWork.Item (Work.Class new))
            → Does replies (H.view host.old) (H.view host.new) self.old self.new c result }
        ensures reads { (H.view host.new).reads ≡ (H.view host.old).reads }
    {
        let length = u64::from(new.length);
        let cost = 100 + length;
        let n = padded(list_key_length() + length);
        match place_within(&self.chain, n, self.need_with_list()) {
            Ok(place) => {
                let class = &new.class;
                let text = class_text(self.alloc, replies, class.name.as_slice(), class.version)?;
                self.declare_at(host, place, new, text.as_slice(), cost)
            }
            Err(PlanFault::Full { end, wanted }) => {
                self.refuse(host, Refusal::Full { end, wanted }, cost, replies)
            }
            Err(PlanFault::NoMemory) => Err(SessionFault::NoMemory),
        }
    }
}
