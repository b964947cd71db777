//! What is told of a record.
ghost use Rattle.std.specs.Prelude.{◌≡◌, ◌++◌, ◌<◌, ◌^◌, drop, length, OnOk};
ghost use Rattle.rio_format.specs.Objects.{value_at};
ghost use Rattle.rio_reply.specs.Told.{fault_text, value_or_fault};

use rio_format::{Classes, ObjFault};
use rio_key::KeyHead;
use rio_num::{Bytes, NoMemory};
use rio_read::read_object;
use rio_valtext::print_value;
use std::alloc::Global;

// Puts `fault` at the end, the kind of a fault and its numbers.
pub(crate) fn put_fault(text: &mut Bytes, fault: &ObjFault) -> Result<(), NoMemory>
    ensures { OnOk result (text.new.bytes ≡ text.old.bytes ++ fault_text fault.now) }
{
    text.put(b"fault ")?;
    fault.put_text(text)
}

/// Puts the value at the end that the data of this record spell, or `fault`, the kind of its fault and its numbers.
pub fn put_stored(
    alloc: Global,
    text: &mut Bytes,
    classes: &Classes,
    head: &KeyHead,
    bytes: &[u8],
) -> Result<(), NoMemory>
    requires { length bytes.now < 2 ^ 32 }
    ensures { OnOk result (text.new.bytes ≡ text.old.bytes ++ value_or_fault
        (value_at classes.now head.now.class head.now.keylen (drop head.now.keylen bytes.now))) }
{
    match read_object(
        alloc,
        classes,
        head.class.as_slice(),
        head.data_of(bytes),
        u64::from(head.keylen),
    ) {
        Ok(value) => print_value(&value, text),
        Err(ObjFault::NoMemory) => Err(NoMemory),
        Err(fault) => put_fault(text, &fault),
    }
}
