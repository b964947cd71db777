//! An object is stored.
use crate::place::{key_length, place_within, record_of, words_of};
use crate::replies::put_text;
use crate::{Replies, Session, SessionFault};
use rio_chain::{NewRecord, PlanFault};
use rio_host::Host;
use rio_judge::StoredObject;
use rio_machine::{Outcome, Refusal};
use rio_num::{NoMemory, padded};

impl Session {
    ghost use Rattle.std.specs.Prelude.{◌≡◌, ◌+◌, ◌≤◌, ◌<◌, ◌^◌, length, true, false, IfOk};
    ghost use Rattle.rio_key.specs.declared.head.KeyHead.{KeyHead};
    ghost use Rattle.rio_dir.specs.Table.{with_head};
    ghost use Rattle.rio_chain.specs.Placing.{record_count};
    ghost use Rattle.rio_machine.specs.declared.command.Command.{Command as Line};
    ghost use Rattle.rio_judge.specs.declared.work.AnyWork.{AnyWork};
    ghost use Rattle.rio_judge.specs.declared.work.Work.{Work};
    ghost use Rattle.rio_recover.specs.Closable.{is_sized};
    ghost use Rattle.rio_session.specs.Due.{need_with};
    ghost use Rattle.rio_session.specs.Doable.{CanBeDone, IsToDo};
    ghost use Rattle.rio_session.specs.Does.{Does};
    ghost use Rattle.rio_session.specs.Puts.{IsStored, IsStoredRecord};
    ghost use Rattle.rio_session.specs.Session.{IsReady};

    // What a close needs with one object more.
    fn need_with(&self, class: &[u8], name: &[u8]) -> u64
        requires fresh { self.now.failed ≡ false }
        requires class { length class.now ≤ 100 }
        requires name { length name.now ≤ 100 }
        ensures { (h : KeyHead) → is_sized h ≡ true → h.class ≡ class.now → h.name ≡ name.now
            → result ≡ need_with self.now.name (with_head h self.now.heads)
            (record_count self.now.segments + 1) self.now.trees }
    {
        let heads = self.heads_bytes + key_length(class, name);
        let live = self.chain.live() + 1;
        self.need_by(heads, live)
    }

    // The record of an object.
    pub(crate) fn make(&self, place: u64, object: &StoredObject) -> Result<NewRecord, NoMemory>
        requires stored { IsStored self.now.classes object.now }
        requires low { place < 2 ^ 32 }
        ensures { IfOk result (IsStoredRecord self.now place object.now) }
    {
        let words = words_of(self.alloc, place, self.datime, object)?;
        record_of(self.alloc, self.registry.classes(), words, &object.value)
    }

    // Puts an object at the place of the rule, or refuses it where there is no room.
    pub(crate) fn put<H: Host>(
        &mut self,
        host: &mut H,
        object: &StoredObject,
        replies: Replies,
    ) -> Result<Outcome, SessionFault>
        requires fresh { self.old.failed ≡ false }
        requires ready { IsReady (H.view host.old) self.old }
        requires can { CanBeDone self.old (Work.Put object.now) }
        ensures does { (c : Line) → IsToDo self.old c (AnyWork.Item (Work.Put object.now))
            → Does replies (H.view host.old) (H.view host.new) self.old self.new c result }
        ensures reads { (H.view host.new).reads ≡ (H.view host.old).reads }
    {
        let name = object.name.as_slice();
        let class = object.class.as_slice();
        let length = u64::from(object.length);
        let n = padded(key_length(class, name) + length);
        match place_within(&self.chain, n, self.need_with(class, name)) {
            Ok(place) => {
                let made = self.make(place, object)?;
                let text = put_text(self.alloc, replies, name, object.cycle)?;
                self.put_and_say(host, made, text.as_slice(), 500 + length)
            }
            Err(PlanFault::Full { end, wanted }) => {
                self.refuse(host, Refusal::Full { end, wanted }, 500 + length, replies)
            }
            Err(PlanFault::NoMemory) => Err(SessionFault::NoMemory),
        }
    }
}
