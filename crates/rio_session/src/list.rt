//! The class list of a session is written.
use crate::replace::put_and_release;
use crate::{Session, SessionFault};
use rio_chain::{KeyWords, NewRecord, new_record};
use rio_host::Host;
use rio_info::write_info;
use rio_key::{FIRST_PLACE, key_length_of};
use rio_machine::Outcome;
use rio_num::{Name, NoMemory};
use std::alloc::Global;

// What the key of a class list says.
const LIST_CLASS: &[u8] = b"TList";

const LIST_NAME: &[u8] = b"StreamerInfo";

const LIST_TITLE: &[u8] = b"Doubly linked list";

ghost use Rattle.std.specs.Prelude.{◌≡◌, IfOk};
ghost use Rattle.rio_effect.specs.ClassRecord.{list_key_size, list_words};

// How long the key of a class list is.
pub(crate) fn list_key_length() -> u64
    ensures { result ≡ list_key_size }
{
    key_length_of(LIST_CLASS, LIST_NAME, LIST_TITLE) as u64
}

// What the key of a class list says.
fn list_words(alloc: Global, place: u64, datime: u32, cycle: u16) -> Result<KeyWords, NoMemory>
    ensures { IfOk result (λ words. words ≡ list_words place datime cycle) }
{
    Ok(KeyWords {
        place,
        directory: FIRST_PLACE,
        datime,
        cycle,
        class: Name::from_slice(alloc, LIST_CLASS)?,
        name: Name::from_slice(alloc, LIST_NAME)?,
        title: Name::from_slice(alloc, LIST_TITLE)?,
    })
}

impl Session {
    ghost use Rattle.std.specs.Prelude.{◌≡◌, ◌+◌, ◌≤◌, length, false, IfOk};
    ghost use Rattle.rio_effect.specs.ClassRecord.{next_list_cycle};
    ghost use Rattle.rio_machine.specs.declared.command.Outcome.{Outcome as BecameOf};
    ghost use Rattle.rio_session.specs.Due.{need_with};
    ghost use Rattle.rio_session.specs.Changing.{ChangesFile};
    ghost use Rattle.rio_session.specs.Lists.{CanBeListedAt, CanReplace, IsListRecord, listing};
    ghost use Rattle.rio_session.specs.Lists.{listing_at};
    ghost use Rattle.rio_session.specs.Session.{IsReady};
    ghost use Rattle.rio_session.specs.SessionState.{baskets_of};

    // What a close needs with a class list.
    pub(crate) fn need_with_list(&self) -> u64
        requires fresh { self.now.failed ≡ false }
        ensures { result ≡ need_with self.now.name self.now.heads
            (2 + length self.now.heads + length (baskets_of self.now)) self.now.trees }
    {
        let count = match &self.info {
            Some(_) => self.chain.live(),
            None => self.chain.live() + 1,
        };
        self.need_by(self.heads_bytes, count)
    }

    // The cycle of the next class list.
    fn next_list_cycle(&self) -> u16
        ensures next { result ≡ next_list_cycle self.now.info }
        ensures few { result ≤ length self.now.classes + 2 }
    {
        match &self.info {
            Some(head) => head.cycle + 1,
            None => 1,
        }
    }

    // The record of the list of all classes, for this place.
    pub(crate) fn make_list(&self, place: u64) -> Result<NewRecord, NoMemory>
        requires at { CanBeListedAt self.now place }
        ensures { IfOk result (IsListRecord self.now place) }
    {
        let words = list_words(self.alloc, place, self.datime, self.next_list_cycle())?;
        let contents = write_info(self.alloc, self.registry.classes(), list_key_length())?;
        new_record(self.alloc, words, contents.as_slice())
    }

    // Writes a class list in place of the one before, and prints a reply. All memory is allocated before the first write.
    fn replace_list<H: Host>(
        &mut self,
        host: &mut H,
        made: NewRecord,
        text: &[u8],
        cost: u64,
    ) -> Result<Outcome, SessionFault>
        requires fresh { self.old.failed ≡ false }
        requires ready { IsReady (H.view host.old) self.old }
        requires can { CanReplace self.old made }
        ensures changes { ChangesFile (listing self.old made text.now cost) (H.view host.old)
            (H.view host.new) self.old self.new result }
        ensures outcome { IfOk result (λ outcome. outcome ≡ BecameOf.Accepted) }
        ensures reads { (H.view host.new).reads ≡ (H.view host.old).reads }
    {
        self.chain.reserve(2)?;
        let NewRecord { head, mut bytes } = made;
        match put_and_release(&mut self.chain, host, head.seek, &mut bytes, &self.info) {
            Ok(()) => {
                self.info = Some(head);
                self.answer(host, text, cost)?;
                Ok(Outcome::Accepted)
            }
            Err(_) => {
                self.failed = true;
                Err(SessionFault::HostFault)
            }
        }
    }

    // Writes the list of all classes at the place, and prints a reply.
    pub(crate) fn write_list<H: Host>(
        &mut self,
        host: &mut H,
        place: u64,
        text: &[u8],
        cost: u64,
    ) -> Result<Outcome, SessionFault>
        requires fresh { self.old.failed ≡ false }
        requires ready { IsReady (H.view host.old) self.old }
        requires at { CanBeListedAt self.old place }
        ensures changes { ChangesFile (listing_at self.old place text.now cost) (H.view host.old)
            (H.view host.new) self.old self.new result }
        ensures outcome { IfOk result (λ outcome. outcome ≡ BecameOf.Accepted) }
        ensures reads { (H.view host.new).reads ≡ (H.view host.old).reads }
    {
        let made = self.make_list(place)?;
        self.replace_list(host, made, text, cost)
    }
}
