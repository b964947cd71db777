//! A small built-in object that is written and read by itself.
ghost use Rattle.std.specs.Prelude.{◌≡◌, ◌≤◌, [], ◌∷◌, length, pos, codes, IfOk, IsTrue};
ghost use Rattle.rio_format.specs.{Objects.{bare_object, pid_part}, Written.{written_form}, BuiltIn.{is_small_builtin}, declared.value.Value.{Int}};
ghost use Rattle.rio_write.specs.Small.{IsSmallObject};

use crate::rows::hex::is_hex_of;
use rio_format::{Classes, ObjFault, ObjReader, ObjWriter, Part, Parts, Value};
use rio_num::{Bytes, Name, NoMemory};
use rio_stream::{read_builtin, write_builtin, written_length};
use rio_valtext::print_value;
use std::alloc::Global;

// Appends the text of the next object of the class.
fn put_builtin(
    printed: &mut Bytes,
    classes: &Classes,
    reader: &mut ObjReader,
    class: &[u8],
) -> Result<(), ObjFault>
    requires { IsTrue (is_small_builtin class.now) }
{
    let value = read_builtin(printed.allocator(), classes, reader, class)?;
    Ok(print_value(&value, printed)?)
}

// What is put into a writer for the object.
fn put_object(alloc: Global, value: &Value) -> Result<Bytes, NoMemory>
    requires value { IsSmallObject value.now }
    requires size { length (written_form [] 0 value.now) ≤ 16777216 }
{
    let mut writer = ObjWriter::new(alloc, 34);
    write_builtin(alloc, &mut writer, value)?;
    Ok(writer.into_bytes())
}

fn named_part(alloc: Global, name: &[u8], value: Value) -> Result<Part, NoMemory>
    ensures { IfOk result (λ p. p ≡ record { name = name.now; value = value }) }
{
    Ok(Part {
        name: Name::from_slice(alloc, name)?,
        value,
    })
}

// The parts of a TObject with bit 4 of fBits, and the fPid behind it.
fn parts_with_pid(alloc: Global, pid: u16) -> Result<Parts, NoMemory>
    ensures { IfOk result (λ parts. parts
        ≡ record { name = codes "fUniqueID"; value = Int (pos 5) }
        ∷ record { name = codes "fBits"; value = Int (pos 16) } ∷ pid_part pid ∷ []) }
{
    let mut parts = Parts::new(alloc);
    parts.push(named_part(alloc, b"fUniqueID", Value::Int(5))?)?;
    parts.push(named_part(alloc, b"fBits", Value::Int(16))?)?;
    parts.push(named_part(alloc, b"fPid", Value::Int(i128::from(pid)))?)?;
    Ok(parts)
}

fn with_pid(alloc: Global, pid: u16) -> Result<Value, NoMemory>
    ensures { IfOk result (λ v. v ≡ bare_object 5 16 (pid_part pid ∷ [])) }
{
    Ok(Value::Object {
        class: Name::from_slice(alloc, b"TObject")?,
        version: 1,
        parts: parts_with_pid(alloc, pid)?,
    })
}

fn put_with_pid(alloc: Global) -> Result<Option<Bytes>, NoMemory> {
    let value = with_pid(alloc, 7)?;
    let classes = Classes::new(alloc);
    let length = written_length(alloc, &classes, &value)?;
    if length > 16_777_216 {
        return Ok(None);
    }
    Ok(Some(put_object(alloc, &value)?))
}

const WITH_PID: &[u8] = b"TObject#1{fUniqueID: 5, fBits: 16, fPid: 7}";

// Puts the TObject that the bytes spell at the end of what is printed.
fn put_again(printed: &mut Bytes, bytes: &[u8]) -> Result<(), ObjFault> {
    if bytes.len() > 100 {
        return Err(ObjFault::NoMemory);
    }
    let classes = Classes::new(printed.allocator());
    let mut reader = ObjReader::new(printed.allocator(), bytes, 34);
    put_builtin(printed, &classes, &mut reader, b"TObject")
}

// Whether they are read as what was put.
fn is_read_again(alloc: Global, bytes: &[u8]) -> bool {
    let mut printed = Bytes::new(alloc);
    put_again(&mut printed, bytes).is_ok() && printed.as_slice() == WITH_PID
}

fn is_put_with_pid(alloc: Global) -> bool {
    match put_with_pid(alloc) {
        Ok(Some(bytes)) => {
            is_hex_of(alloc, "0001 00000005 00000010 0007", bytes.as_slice())
                && is_read_again(alloc, bytes.as_slice())
        }
        _ => false,
    }
}

#[test]
fn writes_an_object_with_its_pid(rt: HostRuntime) {
    assert!(rt; is_put_with_pid(rt.alloc()));
}
