//! Whether a record stands for an object.
ghost use Rattle.std.specs.Prelude.{◌≡◌, ◌&&◌, ◌<◌, ◌^◌, is_some, length, ℕ, List, Some, IfOk, Ok};
ghost use Rattle.std.specs.Int.{cast_unsigned};
ghost use Rattle.rio_num.specs.Room.{is_padding};
ghost use Rattle.rio_format.specs.{Objects.{first_at}, declared.value.Value.{Value as Read}};
ghost use Rattle.rio_host.specs.Host.{IsWithin};
ghost use Rattle.rio_host.specs.OnlyReads.{OnlyReads};
ghost use Rattle.rio_state.specs.Contents.{can_be_stored, object_in, stored_in};
ghost use Rattle.rio_state.specs.KeyedRecords.{KeyedRecord};
ghost use Rattle.rio_recover.specs.Causes.{IsRecoverCause, Obtains};
ghost use Rattle.rio_recover.specs.Keys.{StandsIn, keyed, record_end};

use crate::RecoverFault;
use rio_fit::{can_be_put, fits};
use rio_format::{
    Classes, DEPTH_LIMIT, LENGTH_LIMIT, ObjFault, ObjReader, Value, depth, longest_list,
};
use rio_host::{Host, bytes_at};
use rio_key::KeyHead;
use rio_machine::LIST_LIMIT;
use rio_num::NoMemory;
use rio_read::read_next;
use std::alloc::Global;

/// The bytes of the record with this key.
pub(crate) fn record_bytes<H: Host>(
    alloc: Global,
    host: &mut H,
    head: &KeyHead,
) -> Result<Vec<u8>, RecoverFault>
    requires { IsWithin (H.view host.old) (record_end head.now) }
    ensures size { IfOk result (λ bytes. length bytes.items < 2 ^ 32) }
    ensures bytes { (file : List ℕ) (r : KeyedRecord) → (H.view host.old).holds ≡ Some file
        → StandsIn file r → r.head ≡ head.now → Obtains result (λ bytes. bytes.items ≡ r.bytes) }
    ensures calls { OnlyReads (H.view host.old) (H.view host.new) }
    ensures cause { IsRecoverCause (H.view host.old) (H.view host.new) result }
{
    let length = head.nbytes.cast_unsigned();
    Ok(bytes_at(alloc, host, head.seek, length as usize)?)
}

/// Whether at most three bytes are left, and each is zero. They are read.
pub(crate) fn is_padding(reader: &mut ObjReader) -> bool
    ensures { result ≡ is_padding reader.old.at.rest }
{
    if reader.left() > 3 {
        return false;
    }
    while reader.left() > 0 {
        match reader.take_u8() {
            Ok(0) => {}
            Ok(_) | Err(_) => return false,
        }
    }
    true
}

// Whether a put takes the value and stores it in data as long as the key says.
fn can_be_stored(
    alloc: Global,
    classes: &Classes,
    head: &KeyHead,
    value: &Value,
) -> Result<bool, NoMemory>
    ensures { IfOk result (λ b. b ≡ can_be_stored classes.now (keyed head.now) value.now) }
{
    Ok(
        fits(alloc, classes, head.class.as_slice(), value)?
            && can_be_put(classes, head.class.as_slice())
            && u64::from(head.objlen) <= LENGTH_LIMIT
            && depth(value) <= DEPTH_LIMIT
            && longest_list(value) <= LIST_LIMIT,
    )
}

// Whether the data, where this is their record's key, spell a value that a put takes, with at most
// three zero bytes behind it.
fn spells_object(
    alloc: Global,
    classes: &Classes,
    head: &KeyHead,
    contents: &[u8],
) -> Result<bool, NoMemory>
    requires { length contents.now < 2 ^ 32 }
    ensures { IfOk result (λ b. b ≡ is_some (stored_in classes.now (keyed head.now)
        (first_at classes.now head.now.class head.now.keylen contents.now))) }
{
    let mut reader = ObjReader::new(alloc, contents, u64::from(head.keylen));
    match read_next(alloc, classes, &mut reader, head.class.as_slice()) {
        Ok(value) => { Ok(is_padding(&mut reader) && can_be_stored(alloc, classes, head, &value)?) }
        Err(ObjFault::NoMemory) => Err(NoMemory),
        Err(_) => Ok(false),
    }
}

/// Whether the record with this key stands for an object.
pub(crate) fn is_object<H: Host>(
    alloc: Global,
    host: &mut H,
    classes: &Classes,
    head: &KeyHead,
) -> Result<bool, RecoverFault>
    requires { IsWithin (H.view host.old) (record_end head.now) }
    ensures object { (file : List ℕ) (r : KeyedRecord) → (H.view host.old).holds ≡ Some file
        → StandsIn file r → r.head ≡ head.now
        → Obtains result (λ b. b ≡ is_some (object_in classes.now r)) }
    ensures calls { OnlyReads (H.view host.old) (H.view host.new) }
    ensures cause { IsRecoverCause (H.view host.old) (H.view host.new) result }
{
    let bytes = record_bytes(alloc, host, head)?;
    Ok(spells_object(alloc, classes, head, head.data_of(&bytes))?)
}
