//! Objects are stored by one word, all of them or none.
ghost use Rattle.std.specs.Prelude.{◌≡◌, ◌+◌, ◌≤◌, ◌<◌, ◌^◌, length};
ghost use Rattle.std.specs.List.{All, sum_by};
ghost use Rattle.rio_dir.specs.Table.{heads_size, with_heads};
ghost use Rattle.rio_machine.specs.Limits.{head_length};
ghost use Rattle.rio_session.specs.MadeBatches.{HasShortWords};
ghost use Rattle.rio_session.specs.Puts.{AreNewKeys, stored_length};

use crate::place::{key_length, place_within};
use crate::replies::batch_text;
use crate::{Replies, Session, SessionFault};
use rio_chain::{NewRecord, PlanFault};
use rio_dir::KeyTable;
use rio_host::Host;
use rio_judge::StoredObject;
use rio_key::KeyHead;
use rio_machine::{Outcome, Refusal};
use rio_num::{Bytes, Lengths, NoMemory, padded};
use std::alloc::Global;

// How long the record of an object is, with its zero bytes.
fn stored_length(object: &StoredObject) -> u64
    requires short { HasShortWords object.now }
    ensures { result ≡ stored_length object.now }
{
    let key = key_length(object.class.as_slice(), object.name.as_slice());
    padded(key + u64::from(object.length))
}

// How long the key of its record is.
fn stored_key_length(object: &StoredObject) -> u64
    requires short { HasShortWords object.now }
    ensures { result ≡ head_length object.now.class object.now.name }
{
    key_length(object.class.as_slice(), object.name.as_slice())
}

// How long the records of objects are together.
fn records_length(objects: &[StoredObject]) -> u64
    requires short { All HasShortWords objects.now }
    requires low { sum_by stored_length objects.now < 2 ^ 64 }
    ensures { result ≡ sum_by stored_length objects.now }
{
    let mut sum: u64 = 0;
    for object in objects {
        sum += stored_length(object);
    }
    sum
}

// How long their keys are together.
fn keys_length(objects: &[StoredObject]) -> u64
    requires short { All HasShortWords objects.now }
    requires low { sum_by (λ o. head_length o.class o.name) objects.now < 2 ^ 64 }
    ensures { result ≡ sum_by (λ o. head_length o.class o.name) objects.now }
{
    let mut sum: u64 = 0;
    for object in objects {
        sum += stored_key_length(object);
    }
    sum
}

// What it costs to store objects.
fn cost_of_all(objects: &[StoredObject]) -> u64
    requires { sum_by (λ o. 500 + o.length) objects.now < 2 ^ 64 }
    ensures { result ≡ sum_by (λ o. 500 + o.length) objects.now }
{
    let mut cost: u64 = 0;
    for object in objects {
        cost += 500 + u64::from(object.length);
    }
    cost
}

// How many bytes are written of some keys.
fn heads_length(heads: &[KeyHead]) -> u64
    requires { heads_size heads.now < 2 ^ 64 }
    ensures { result ≡ heads_size heads.now }
{
    let mut length: u64 = 0;
    for head in heads {
        length += rio_key::key_length(head);
    }
    length
}

// Puts keys in their places, for which there is room, one after the other. No memory is taken.
fn insert_all(table: &mut KeyTable, heads: Vec<KeyHead>)
    requires room { length heads.items ≤ table.old.spare }
    requires new { AreNewKeys table.old.heads heads.items }
    ensures { table.new.heads ≡ with_heads heads.items table.old.heads }
{
    for head in heads {
        table.insert(head);
    }
}

/// The records of a batch for a place of the file, one after the other, which aren't put there yet.
#[derive(Drop)]
pub(crate) struct NewBatch {
    place: u64,
    lengths: Lengths,
    /// The whole records, with four bytes spare.
    records: Bytes,
    /// Their keys.
    heads: Vec<KeyHead>,
}

impl NewBatch {
    ghost use Rattle.std.specs.Prelude.{IfOk, OnOk};
    ghost use Rattle.rio_session.specs.MadeBatches.{HasOneMore, IsBegun};

    // A batch for this place that has no records yet, with memory for so many bytes.
    fn begin(alloc: Global, place: u64, room: u64) -> Result<NewBatch, NoMemory>
        ensures { IfOk result (IsBegun place room) }
    {
        let mut records = Bytes::new(alloc);
        records.reserve(room)?;
        Ok(NewBatch {
            place,
            lengths: Lengths::new(alloc),
            records,
            heads: Vec::new(alloc),
        })
    }

    // Adds a record behind the others.
    fn add(&mut self, made: NewRecord) -> Result<(), NoMemory>
        ensures { OnOk result (HasOneMore self.old self.new made) }
    {
        let NewRecord { head, bytes } = made;
        self.lengths.push(bytes.len() as u64)?;
        self.records.put(bytes.as_slice())?;
        self.heads.push(head)?;
        Ok(())
    }
}

impl Session {
    ghost use Rattle.std.specs.Prelude.{◌≡◌, ◌+◌, ◌≤◌, ◌<◌, ◌^◌, List, length, false, IfOk};
    ghost use Rattle.std.specs.List.{All, sum_by};
    ghost use Rattle.rio_key.specs.declared.head.KeyHead.{KeyHead};
    ghost use Rattle.rio_dir.specs.Table.{with_heads};
    ghost use Rattle.rio_chain.specs.Placing.{record_count};
    ghost use Rattle.rio_machine.specs.Limits.{batch_limit};
    ghost use Rattle.rio_machine.specs.declared.command.Command.{Command as Line};
    ghost use Rattle.rio_machine.specs.declared.command.Outcome.{Outcome as BecameOf};
    ghost use Rattle.rio_judge.specs.declared.work.AnyWork.{AnyWork};
    ghost use Rattle.rio_judge.specs.declared.work.Work.{Work};
    ghost use Rattle.rio_session.specs.{Changing.{ChangesFile}, Due.{need_with}};
    ghost use Rattle.rio_session.specs.Doable.{CanBeDone, IsToDo};
    ghost use Rattle.rio_session.specs.Does.{Does};
    ghost use Rattle.rio_session.specs.Puts.{AreKeysFor, CanPutAll, IsStored, IsStoredBatch, putting_all, stored_length};
    ghost use Rattle.rio_session.specs.Session.{IsReady};

    // What a close needs with these objects more.
    fn need_with_all(&self, objects: &[StoredObject]) -> u64
        requires fresh { self.now.failed ≡ false }
        requires few { length objects.now ≤ batch_limit }
        requires stored { All (IsStored self.now.classes) objects.now }
        ensures { (hs : List KeyHead) → AreKeysFor objects.now hs
            → result ≡ need_with self.now.name (with_heads hs self.now.heads)
            (record_count self.now.segments + length objects.now) self.now.trees }
    {
        let heads = self.heads_bytes + keys_length(objects);
        let live = self.chain.live() + objects.len() as u64;
        self.need_by(heads, live)
    }

    // The records of objects for the places from this one on, one after the other.
    fn make_all(&self, place: u64, objects: &[StoredObject]) -> Result<NewBatch, NoMemory>
        requires some { 0 < length objects.now }
        requires stored { All (IsStored self.now.classes) objects.now }
        requires low { place + sum_by stored_length objects.now < 2 ^ 32 }
        requires soon { self.now.datime < 2 ^ 32 }
        ensures { IfOk result (IsStoredBatch self.now place objects.now) }
    {
        let room = records_length(objects) + 4;
        let mut batch = NewBatch::begin(self.alloc, place, room)?;
        let mut at = place;
        for object in objects {
            let made = self.make(at, object)?;
            at += made.bytes.len() as u64;
            batch.add(made)?;
        }
        Ok(batch)
    }

    // Puts the records of a batch, keeps their keys, and prints a reply. All memory is taken before the records are written.
    fn put_all_and_say<H: Host>(
        &mut self,
        host: &mut H,
        made: NewBatch,
        text: &[u8],
        cost: u64,
    ) -> Result<Outcome, SessionFault>
        requires fresh { self.old.failed ≡ false }
        requires ready { IsReady (H.view host.old) self.old }
        requires can { CanPutAll self.old made }
        ensures changes { ChangesFile (putting_all self.old made text.now cost)
            (H.view host.old) (H.view host.new) self.old self.new result }
        ensures outcome { IfOk result (λ outcome. outcome ≡ BecameOf.Accepted) }
        ensures reads { (H.view host.new).reads ≡ (H.view host.old).reads }
    {
        let NewBatch {
            place,
            lengths,
            mut records,
            heads,
        } = made;
        self.chain.reserve(lengths.len() as u64)?;
        self.table.reserve(heads.len())?;
        let added = heads_length(&heads);
        let sum = self.heads_bytes + added;
        match self.chain.put_batch(host, place, &mut records, &lengths) {
            Ok(()) => {
                insert_all(&mut self.table, heads);
                self.heads_bytes = sum;
                self.answer(host, text, cost)?;
                Ok(Outcome::Accepted)
            }
            Err(_) => {
                self.failed = true;
                Err(SessionFault::HostFault)
            }
        }
    }

    // Puts objects by one word, from the place of the rule for all of them on, or refuses them where there is no room.
    pub(crate) fn put_all<H: Host>(
        &mut self,
        host: &mut H,
        objects: &[StoredObject],
        replies: Replies,
    ) -> Result<Outcome, SessionFault>
        requires fresh { self.old.failed ≡ false }
        requires ready { IsReady (H.view host.old) self.old }
        requires can { CanBeDone self.old (Work.Batch objects.now) }
        ensures does { (c : Line) → IsToDo self.old c (AnyWork.Item (Work.Batch objects.now))
            → Does replies (H.view host.old) (H.view host.new) self.old self.new c result }
        ensures reads { (H.view host.new).reads ≡ (H.view host.old).reads }
    {
        let n = records_length(objects);
        let cost = cost_of_all(objects);
        match place_within(&self.chain, n, self.need_with_all(objects)) {
            Ok(place) => {
                let made = self.make_all(place, objects)?;
                let text = batch_text(self.alloc, replies, &made.heads)?;
                self.put_all_and_say(host, made, text.as_slice(), cost)
            }
            Err(PlanFault::Full { end, wanted }) => {
                self.refuse(host, Refusal::Full { end, wanted }, cost, replies)
            }
            Err(PlanFault::NoMemory) => Err(SessionFault::NoMemory),
        }
    }
}
