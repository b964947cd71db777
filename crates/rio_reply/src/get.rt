//! What a get prints of an object.
ghost use Rattle.std.specs.Prelude.{◌≡◌, ◌++◌, ◌<◌, ◌^◌, codes, drop, length, Ok, Err, IfOk};
ghost use Rattle.rio_num.specs.Answers.{GivesUnless};
ghost use Rattle.rio_num.specs.Printed.{item_text};
ghost use Rattle.rio_format.specs.{Objects.{value_at}, declared.value.Value.{Value}};
ghost use Rattle.rio_model.specs.declared.map_fault.MapFault.TheVariants.{NoMemory as OutOfMemory};
ghost use Rattle.rio_step.specs.ReplyText.{text_of};
ghost use Rattle.rio_step.specs.Step.{object_told};
ghost use Rattle.rio_reply.specs.Told.{record_told_as, told_as, told_of};

use crate::fault::{put_fault, put_stored};
use crate::item::put_item;
use rio_format::{Classes, ObjFault, Value};
use rio_key::KeyHead;
use rio_map::as_version;
use rio_model::MapFault;
use rio_num::{Bytes, NoMemory};
use rio_read::read_object;
use rio_valtext::print_value;
use std::alloc::Global;

// `ok get NAME;CYCLE ` of a key.
fn reply_start(alloc: Global, head: &KeyHead) -> Result<Bytes, NoMemory>
    ensures { IfOk result (λ text. text.bytes
        ≡ codes "ok get " ++ item_text head.now.name head.now.cycle ++ codes " ") }
{
    let mut text = Bytes::new(alloc);
    text.put(b"ok get ")?;
    put_item(&mut text, head.name.as_slice(), head.cycle)?;
    text.put(b" ")?;
    Ok(text)
}

// The text of `get_reply`, whether or not the data have a reading, for the prover.
fn told_reply(
    alloc: Global,
    classes: &Classes,
    head: &KeyHead,
    bytes: &[u8],
) -> Result<Bytes, NoMemory>
    requires { length bytes.now < 2 ^ 32 }
    ensures { IfOk result (λ text. text.bytes ≡ told_of head.now (value_at classes.now
        head.now.class head.now.keylen (drop head.now.keylen bytes.now))) }
{
    let mut text = reply_start(alloc, head)?;
    put_stored(alloc, &mut text, classes, head, bytes)?;
    text.put(b"\n")?;
    Ok(text)
}

/// What is said of an object, by its key and the bytes of its record: `ok get NAME;CYCLE VALUE`. Where the data have no
/// reading, `fault`, its kind and its numbers stand in place of the value.
pub fn get_reply(
    alloc: Global,
    classes: &Classes,
    head: &KeyHead,
    bytes: &[u8],
) -> Result<Bytes, NoMemory>
    requires { length bytes.now < 2 ^ 32 }
    ensures told { IfOk result (λ text. (v : Value) → value_at classes.now head.now.class
        head.now.keylen (drop head.now.keylen bytes.now) ≡ Ok v
        → text.bytes ≡ text_of (object_told head.now.name head.now.cycle v)) }
    ensures text { IfOk result (λ text. text.bytes ≡ told_of head.now (value_at classes.now
        head.now.class head.now.keylen (drop head.now.keylen bytes.now))) }
{
    told_reply(alloc, classes, head, bytes)
}

// What is said of an object.
#[tactic(auto, unfolding(rio_step::specs::ReplyText::text_of))]
fn object_reply(alloc: Global, head: &KeyHead, value: &Value) -> Result<Bytes, NoMemory>
    ensures { IfOk result (λ text. text.bytes
        ≡ text_of (object_told head.now.name head.now.cycle value.now)) }
{
    let mut text = reply_start(alloc, head)?;
    print_value(value, &mut text)?;
    text.put(b"\n")?;
    Ok(text)
}

// What is said of data without a reading.
fn fault_reply(alloc: Global, head: &KeyHead, fault: &ObjFault) -> Result<Bytes, NoMemory>
    ensures { IfOk result (λ text. text.bytes ≡ told_of head.now (Err fault.now)) }
{
    let mut text = reply_start(alloc, head)?;
    put_fault(&mut text, fault)?;
    text.put(b"\n")?;
    Ok(text)
}

// What is said of an object in a version of its class.
fn object_reply_as(
    alloc: Global,
    classes: &Classes,
    head: &KeyHead,
    version: i32,
    value: &Value,
) -> Result<Bytes, MapFault>
    ensures { GivesUnless OutOfMemory (λ text. text.bytes) result
        (told_as classes.now head.now version value.now) }
{
    match as_version(alloc, classes, head.class.as_slice(), version, value) {
        Ok(value) => Ok(object_reply(alloc, head, &value)?),
        Err(fault) => Err(fault),
    }
}

/// What `get_reply` returns, with each object of the class that the key names as the class has it in the version; or why the
/// object can't be had so.
pub fn get_reply_as(
    alloc: Global,
    classes: &Classes,
    head: &KeyHead,
    version: i32,
    bytes: &[u8],
) -> Result<Bytes, MapFault>
    requires { length bytes.now < 2 ^ 32 }
    ensures { GivesUnless OutOfMemory (λ text. text.bytes) result (record_told_as classes.now
        head.now version (value_at classes.now head.now.class head.now.keylen
        (drop head.now.keylen bytes.now))) }
{
    match read_object(
        alloc,
        classes,
        head.class.as_slice(),
        head.data_of(bytes),
        u64::from(head.keylen),
    ) {
        Ok(value) => object_reply_as(alloc, classes, head, version, &value),
        Err(ObjFault::NoMemory) => Err(MapFault::NoMemory),
        Err(fault) => Ok(fault_reply(alloc, head, &fault)?),
    }
}
