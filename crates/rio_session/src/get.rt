//! An object is printed.
use crate::{Replies, Session, SessionFault};
use rio_chain::ReadFault;
use rio_host::Host;
use rio_key::KeyHead;
use rio_machine::Outcome;
use rio_model::MapFault;
use rio_num::Bytes;
use rio_reply::{get_reply, get_reply_as};

impl Session {
    ghost use Rattle.std.specs.Prelude.{◌≡◌, ◌<◌, ◌^◌, Some, false, length};
    ghost use Rattle.rio_num.specs.Answers.{GivesUnless};
    ghost use Rattle.rio_chain.specs.Chains.{HoldsChain};
    ghost use Rattle.rio_dir.specs.Table.{head_of};
    ghost use Rattle.rio_model.specs.declared.map_fault.MapFault.TheVariants.{NoMemory as OutOfMemory};
    ghost use Rattle.rio_session.specs.Gets.{PrintsTold, TellsObject, record_told};
    ghost use Rattle.rio_session.specs.Sound.{IsSoundState};

    // The reply that prints the object whose record has these bytes, as it is or in a version of its class.
    fn told(&self, head: &KeyHead, version: Option<i32>, bytes: &[u8]) -> Result<Bytes, MapFault>
        requires { length bytes.now < 2 ^ 32 }
        ensures { GivesUnless OutOfMemory (λ text. text.bytes) result
            (record_told self.now.classes head.now version bytes.now) }
    {
        let classes = self.registry.classes();
        match version {
            None => Ok(get_reply(self.alloc, classes, head, bytes)?),
            Some(version) => get_reply_as(self.alloc, classes, head, version, bytes),
        }
    }

    // Prints the object whose record has these bytes, or why it can't be had in the version, unless replies are omitted.
    fn print<H: Host>(
        &mut self,
        host: &mut H,
        head: &KeyHead,
        version: Option<i32>,
        bytes: &[u8],
        replies: Replies,
    ) -> Result<Outcome, SessionFault>
        requires { length bytes.now < 2 ^ 32 }
        ensures { PrintsTold replies (record_told self.old.classes head.now version bytes.now)
            (H.view host.old) (H.view host.new) self.old self.new result }
    {
        let told = self.told(head, version, bytes);
        self.print_told(host, told, replies)
    }

    // Reads the object of a key, and prints it as it is or in a version of its class, unless replies are omitted.
    pub(crate) fn get<H: Host>(
        &mut self,
        host: &mut H,
        head: &KeyHead,
        version: Option<i32>,
        replies: Replies,
    ) -> Result<Outcome, SessionFault>
        requires fresh { self.old.failed ≡ false }
        requires there { head_of head.now.name (Some head.now.cycle) self.old.heads
            ≡ Some head.now }
        requires holds { HoldsChain (H.view host.old) self.old.segments }
        ensures tells { TellsObject replies head.now version (H.view host.old)
            (H.view host.new) self.old self.new result }
        ensures sound { IsSoundState self.old }
    {
        match self.chain.read_record(host, head.seek) {
            Ok(bytes) => self.print(host, head, version, bytes.as_slice(), replies),
            Err(ReadFault::NoMemory) => Err(SessionFault::NoMemory),
            Err(ReadFault::HostFault) => {
                self.failed = true;
                Err(SessionFault::HostFault)
            }
        }
    }
}
