//! An object or a tree is deleted.
use crate::open_tree::Due;
use crate::release::release_all;
use crate::replies::delete_text;
use crate::{Replies, Session, SessionFault};
use rio_host::Host;
use rio_key::{KeyHead, key_length};
use rio_machine::Outcome;

impl Session {
    ghost use Rattle.std.specs.Prelude.{◌≡◌, Some, false, IfOk};
    ghost use Rattle.rio_dir.specs.Table.{head_of};
    ghost use Rattle.rio_machine.specs.declared.command.Command.{Command as Line};
    ghost use Rattle.rio_machine.specs.declared.command.Outcome.{Outcome as BecameOf};
    ghost use Rattle.rio_session.specs.{Changing.{ChangesFile}, Kept.{released_by}, Releases.{AreReleasable, deleting}};
    ghost use Rattle.rio_session.specs.Doable.{IsToDelete};
    ghost use Rattle.rio_session.specs.Due.{due_of};
    ghost use Rattle.rio_session.specs.Fills.{without_filled};
    ghost use Rattle.rio_session.specs.Does.{Does};
    ghost use Rattle.rio_session.specs.Session.{IsReady};

    // What all saves that are due write without the tree of the name, if there is one.
    fn due_without(&self, name: &[u8]) -> Due
        requires fresh { self.now.failed ≡ false }
        ensures { result ≡ due_of (without_filled name.now self.now.trees) }
    {
        match self.filled.find(name) {
            Some(tree) => {
                let own = tree.due();
                let bytes = self.due.bytes - own.bytes;
                let baskets = self.due.baskets - own.baskets;
                Due { bytes, baskets }
            }
            None => self.due,
        }
    }

    // Releases these records, which are those of the delete, takes the key and its tree out, and prints a reply. All memory
    // is allocated before the first release.
    fn release_and_say<H: Host>(
        &mut self,
        host: &mut H,
        head: &KeyHead,
        places: &[u64],
        text: &[u8],
    ) -> Result<Outcome, SessionFault>
        requires fresh { self.old.failed ≡ false }
        requires ready { IsReady (H.view host.old) self.old }
        requires there { head_of head.now.name (Some head.now.cycle) self.old.heads
            ≡ Some head.now }
        requires places { places.now ≡ released_by self.old head.now.name head.now.cycle }
        requires records { AreReleasable self.old.segments places.now }
        ensures changes { ChangesFile (deleting self.old head.now text.now) (H.view host.old)
            (H.view host.new) self.old self.new result }
        ensures outcome { IfOk result (λ outcome. outcome ≡ BecameOf.Accepted) }
        ensures reads { (H.view host.new).reads ≡ (H.view host.old).reads }
    {
        self.chain.reserve(places.len() as u64)?;
        let sum = self.heads_bytes - key_length(head);
        let due = self.due_without(head.name.as_slice());
        match release_all(&mut self.chain, host, places) {
            Ok(()) => {
                let _ = self.table.remove(head.name.as_slice(), head.cycle);
                let _ = self.trees.remove(head.name.as_slice());
                let _ = self.filled.remove(head.name.as_slice());
                self.heads_bytes = sum;
                self.due = due;
                self.answer(host, text, 0)?;
                Ok(Outcome::Accepted)
            }
            Err(_) => {
                self.failed = true;
                Err(SessionFault::HostFault)
            }
        }
    }

    // Deletes the object or the tree of a key.
    pub(crate) fn delete<H: Host>(
        &mut self,
        host: &mut H,
        head: &KeyHead,
        replies: Replies,
    ) -> Result<Outcome, SessionFault>
        requires fresh { self.old.failed ≡ false }
        requires ready { IsReady (H.view host.old) self.old }
        requires there { head_of head.now.name (Some head.now.cycle) self.old.heads
            ≡ Some head.now }
        ensures does { (c : Line) → IsToDelete self.old c head.now
            → Does replies (H.view host.old) (H.view host.new) self.old self.new c result }
        ensures reads { (H.view host.new).reads ≡ (H.view host.old).reads }
    {
        let places = self.released_by(head)?;
        let text = delete_text(self.alloc, replies, head.name.as_slice(), head.cycle)?;
        self.release_and_say(host, head, places.as_slice(), text.as_slice())
    }
}
