//! Where a record goes, and the record of an object.
ghost use Rattle.std.specs.Prelude.{◌≡◌, ◌+◌, ◌%◌, ◌≤◌, ◌<◌, ◌^◌, ◌∷◌, [], length, false, IfOk, IfErr, OnOk};
ghost use Rattle.rio_chain.specs.Adjoining.{AreSegments};
ghost use Rattle.rio_chain.specs.Placing.{file_end, place_of, with_segment};
ghost use Rattle.rio_chain.specs.Segments.{IsRecord};
ghost use Rattle.rio_effect.specs.ObjectRecord.{object_data};
ghost use Rattle.rio_machine.specs.Limits.{head_length};
ghost use Rattle.rio_chain.specs.Record.{FitsWords, new_key, record_bytes};
ghost use Rattle.rio_state.specs.Closing.{is_full};
ghost use Rattle.rio_session.specs.Puts.{IsFullFor, stored_words};

use rio_chain::{Chain, KeyWords, NewRecord, PlanFault, new_record};
use rio_format::{Classes, Value};
use rio_judge::StoredObject;
use rio_key::{FIRST_PLACE, key_length_of};
use rio_num::{Name, NoMemory};
use rio_state::END_LIMIT;
use rio_write::write_object;
use std::alloc::Global;

// How long the key of an object's record is.
pub(crate) fn key_length(class: &[u8], name: &[u8]) -> u64
    requires class { length class.now < 2 ^ 32 }
    requires name { length name.now < 2 ^ 32 }
    ensures exact { result ≡ head_length class.now name.now }
    ensures short { result < 2 ^ 39 }
{
    key_length_of(class, name, b"") as u64
}

// The place of a record of `n` bytes by the rule, if there is room for it and for a close after it.
pub(crate) fn place_within(chain: &Chain, n: u64, need: u64) -> Result<u64, PlanFault>
    requires aligned { n % 4 ≡ 0 }
    requires some { 4 ≤ n }
    ensures shape { OnOk result (AreSegments chain.now.segments) }
    ensures place { IfOk result (λ place. place ≡ place_of chain.now.segments n) }
    ensures low { IfOk result (λ place. place ≤ 1999999996) }
    ensures room { OnOk result (is_full chain.now.segments (n ∷ []) need ≡ false) }
    ensures fits { OnOk result (file_end (with_segment (place_of chain.now.segments n) n
        chain.now.segments) + need ≤ 1999999996) }
    ensures full { IfErr result (IsFullFor chain.now.segments n need) }
{
    match chain.place_for(n, END_LIMIT.saturating_sub(need)) {
        Some(place) => Ok(place),
        None => Err(PlanFault::Full {
            end: chain.end(),
            wanted: n,
        }),
    }
}

// The fields of the key of an object's record.
pub(crate) fn words_of(
    alloc: Global,
    place: u64,
    datime: u32,
    object: &StoredObject,
) -> Result<KeyWords, NoMemory>
    ensures { IfOk result (λ words. words ≡ stored_words place datime object.now) }
{
    Ok(KeyWords {
        place,
        directory: FIRST_PLACE,
        datime,
        cycle: object.cycle,
        class: object.class.copy()?,
        name: object.name.copy()?,
        title: Name::new(alloc),
    })
}

// The record of an object.
pub(crate) fn record_of(
    alloc: Global,
    classes: &Classes,
    words: KeyWords,
    value: &Value,
) -> Result<NewRecord, NoMemory>
    requires untitled { words.title ≡ [] }
    requires fits { FitsWords words (length (object_data classes.now words value.now)) }
    requires short { length (object_data classes.now words value.now) ≤ 16777216 }
    ensures head { IfOk result (λ made. made.head
        ≡ new_key words (length (object_data classes.now words value.now))) }
    ensures bytes { IfOk result (λ made. made.bytes.bytes
        ≡ record_bytes words (object_data classes.now words value.now)) }
    ensures spare { IfOk result (λ made. 4 ≤ made.bytes.spare) }
    ensures whole { IfOk result (λ made. IsRecord words.place made.bytes.bytes) }
{
    let start = key_length(words.class.as_slice(), words.name.as_slice());
    let contents = write_object(alloc, classes, value, start)?;
    new_record(alloc, words, contents.as_slice())
}
