//! Replies are printed.
use crate::replies::{printed_part, refusal_text};
use crate::{Replies, Session, SessionFault};
use rio_host::Host;
use rio_machine::{Outcome, Refusal};
use rio_model::MapFault;
use rio_num::{Bytes, NoMemory};
use rio_reply::item_listing_reply;

impl Session {
    ghost use Rattle.std.specs.Prelude.{◌≡◌, ◌+◌, ◌-◌, ◌^◌, ℕ, min, List, [], Err, IfOk, IsErrOf, IsOkUnless};
    ghost use Rattle.rio_num.specs.Answers.{GivesUnless};
    ghost use Rattle.rio_model.specs.Mapping.{Mapped};
    ghost use Rattle.rio_model.specs.declared.map_fault.MapFault.TheVariants.{NoMemory as OutOfMemory};
    ghost use Rattle.rio_session.specs.Gets.{PrintsTold};
    ghost use Rattle.rio_machine.specs.declared.command.Outcome.{Outcome as BecameOf};
    ghost use Rattle.rio_reply.specs.Told.{item_listing_of};
    ghost use Rattle.rio_step.specs.Step.{refused};
    ghost use Rattle.rio_session.specs.Replying.{printed_of, reply_text};
    ghost use Rattle.rio_session.specs.SessionState.{kept_trees};
    ghost use Rattle.rio_session.specs.Sound.{IsSoundState};
    ghost use Rattle.rio_session.specs.Says.{SaysReply};
    ghost use Rattle.rio_session.specs.declared.fault.SessionFault.{SessionFault as Fault};

    // Counts the cost of a command, as far as 64 bits hold the costs.
    fn count(&mut self, cost: u64)
        ensures { self.new
            ≡ record self.old { costs = min (self.old.costs + cost) (2 ^ 64 - 1) } }
    {
        self.costs = self.costs.saturating_add(cost);
    }

    // Prints a text that isn't empty, and counts its command's cost.
    fn print_text<H: Host>(
        &mut self,
        host: &mut H,
        text: &[u8],
        cost: u64,
    ) -> Result<(), SessionFault>
        requires some { text.now ≡ [] → ⊥ }
        ensures says { SaysReply text.now cost (H.view host.old) (H.view host.new) self.old self.new
            result }
        ensures fault { IsOkUnless result Fault.SayFault }
        ensures reads { (H.view host.new).reads ≡ (H.view host.old).reads }
    {
        match host.say(text) {
            Ok(()) => {
                self.count(cost);
                Ok(())
            }
            Err(_) => {
                self.failed = true;
                Err(SessionFault::SayFault)
            }
        }
    }

    // Prints a text if there is one, and counts its command's cost.
    pub(crate) fn answer<H: Host>(
        &mut self,
        host: &mut H,
        text: &[u8],
        cost: u64,
    ) -> Result<(), SessionFault>
        ensures says { SaysReply text.now cost (H.view host.old) (H.view host.new) self.old self.new
            result }
        ensures fault { IsOkUnless result Fault.SayFault }
        ensures reads { (H.view host.new).reads ≡ (H.view host.old).reads }
    {
        if text.is_empty() {
            self.count(cost);
            return Ok(());
        }
        self.print_text(host, text, cost)
    }

    // Prints why a command is refused, unless replies are omitted.
    pub(crate) fn refuse<H: Host>(
        &mut self,
        host: &mut H,
        refusal: Refusal,
        cost: u64,
        replies: Replies,
    ) -> Result<Outcome, SessionFault>
        ensures says { SaysReply (reply_text replies (refused refusal)) cost
            (H.view host.old) (H.view host.new) self.old self.new result }
        ensures outcome { IfOk result (λ outcome. outcome ≡ BecameOf.Refused refusal) }
        ensures reads { (H.view host.new).reads ≡ (H.view host.old).reads }
    {
        let text = refusal_text(self.alloc, replies, &refusal)?;
        self.answer(host, text.as_slice(), cost)?;
        Ok(Outcome::Refused(refusal))
    }

    // Prints a text of a command that changes nothing, unless replies are omitted.
    fn print_reply<H: Host>(
        &mut self,
        host: &mut H,
        text: &[u8],
        replies: Replies,
    ) -> Result<Outcome, SessionFault>
        ensures says { SaysReply (printed_of replies text.now) 0 (H.view host.old)
            (H.view host.new) self.old self.new result }
        ensures outcome { IfOk result (λ outcome. outcome ≡ BecameOf.Accepted) }
        ensures reads { (H.view host.new).reads ≡ (H.view host.old).reads }
    {
        self.answer(host, printed_part(replies, text), 0)?;
        Ok(Outcome::Accepted)
    }

    // Prints what is told of an object or of rows, or why they can't be had in the version, unless replies are omitted.
    pub(crate) fn print_told<H: Host>(
        &mut self,
        host: &mut H,
        told: Result<Bytes, MapFault>,
        replies: Replies,
    ) -> Result<Outcome, SessionFault>
        ensures prints { (meant : Mapped (List ℕ))
            → GivesUnless OutOfMemory (λ text. text.bytes) told meant
            → PrintsTold replies meant (H.view host.old) (H.view host.new) self.old self.new
            result }
        ensures lacks { told ≡ Err OutOfMemory → IsErrOf result Fault.NoMemory }
    {
        match told {
            Ok(text) => self.print_reply(host, text.as_slice(), replies),
            Err(MapFault::KindChanged { member }) => {
                self.refuse(host, Refusal::KindChanged { member }, 0, replies)
            }
            Err(MapFault::NoVersion) => self.refuse(host, Refusal::NoVersion, 0, replies),
            Err(MapFault::NoMemory) => Err(SessionFault::NoMemory),
        }
    }

    // The names of all objects and trees, as they are printed.
    fn listing(&self) -> Result<Bytes, NoMemory>
        ensures text { IfOk result (λ text. text.bytes
            ≡ item_listing_of (kept_trees self.now) self.now.heads) }
        ensures sound { IsSoundState self.now }
    {
        item_listing_reply(self.alloc, self.table.as_slice(), &self.trees)
    }

    // Prints the names of all objects and trees, unless replies are omitted.
    pub(crate) fn list<H: Host>(
        &mut self,
        host: &mut H,
        replies: Replies,
    ) -> Result<Outcome, SessionFault>
        ensures says { SaysReply
            (printed_of replies (item_listing_of (kept_trees self.old) self.old.heads)) 0
            (H.view host.old) (H.view host.new) self.old self.new result }
        ensures outcome { IfOk result (λ outcome. outcome ≡ BecameOf.Accepted) }
        ensures reads { (H.view host.new).reads ≡ (H.view host.old).reads }
        ensures sound { IsSoundState self.old }
    {
        let _ = &self.alloc;
        let text = self.listing()?;
        self.print_reply(host, text.as_slice(), replies)
    }
}
