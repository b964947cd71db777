//! A record is put, and the reply printed.
use crate::{Session, SessionFault};
use rio_chain::NewRecord;
use rio_host::Host;
use rio_key::key_length;
use rio_machine::Outcome;

impl Session {
    ghost use Rattle.std.specs.Prelude.{◌≡◌, false, IfOk};
    ghost use Rattle.rio_machine.specs.declared.command.Outcome.{Outcome as BecameOf};
    ghost use Rattle.rio_session.specs.{Changing.{ChangesFile}, Puts.{CanBePut, putting}};
    ghost use Rattle.rio_session.specs.Session.{IsReady};

    // Puts a record, keeps its key, and prints a reply. All memory is allocated before the record is written.
    pub(crate) fn put_and_say<H: Host>(
        &mut self,
        host: &mut H,
        made: NewRecord,
        text: &[u8],
        cost: u64,
    ) -> Result<Outcome, SessionFault>
        requires fresh { self.old.failed ≡ false }
        requires ready { IsReady (H.view host.old) self.old }
        requires can { CanBePut self.old made }
        ensures changes { ChangesFile (putting self.old made text.now cost) (H.view host.old)
            (H.view host.new) self.old self.new result }
        ensures outcome { IfOk result (λ outcome. outcome ≡ BecameOf.Accepted) }
        ensures reads { (H.view host.new).reads ≡ (H.view host.old).reads }
    {
        self.chain.reserve(1)?;
        self.table.reserve_one()?;
        let NewRecord { head, mut bytes } = made;
        let added = key_length(&head);
        let sum = self.heads_bytes + added;
        match self.chain.put_record(host, head.seek, &mut bytes) {
            Ok(()) => {
                self.table.insert(head);
                self.heads_bytes = sum;
                self.answer(host, text, cost)?;
                Ok(Outcome::Accepted)
            }
            Err(_) => {
                self.failed = true;
                Err(SessionFault::HostFault)
            }
        }
    }
}
