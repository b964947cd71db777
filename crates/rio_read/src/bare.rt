//! Objects without a header.
ghost use Rattle.std.specs.Prelude.{◌≡◌, ◌∷◌, ◌++◌, [], pos, codes, IfOk};
ghost use Rattle.rio_num.specs.At.{GoesOn};
ghost use Rattle.rio_format.specs.{Bodies.{part}, Frames.{ReadsAs}, Objects.{number_array, bare_layout, bare_object, object_of}, declared.value.Value.{Int, Object}};
ghost use Rattle.rio_num.specs.Meanings.{read};
ghost use Rattle.rio_read.specs.Members.{pid_parts};

use crate::numbers::{read_count, read_numbers};
use rio_format::{Classes, ObjFault, ObjReader, Parts, Prim, Value, part_with, width_of};
use rio_num::{Name, NoMemory};
use std::alloc::Global;

fn bare_parts(alloc: Global, id: u32, bits: u32) -> Result<Parts, NoMemory>
    ensures { IfOk result (λ parts. parts
        ≡ part (codes "fUniqueID") (Int (pos id)) ∷ part (codes "fBits") (Int (pos bits)) ∷ []) }
{
    let mut parts = Parts::new(alloc);
    parts.push(part_with(alloc, b"fUniqueID", Value::Int(i128::from(id)))?)?;
    parts.push(part_with(alloc, b"fBits", Value::Int(i128::from(bits)))?)?;
    Ok(parts)
}

fn with_pid(alloc: Global, mut parts: Parts, pid: Option<u16>) -> Result<Parts, NoMemory>
    ensures { IfOk result (λ all. all ≡ parts ++ pid_parts pid) }
{
    match pid {
        Some(pid) => {
            parts.push(part_with(alloc, b"fPid", Value::Int(i128::from(pid)))?)?;
            Ok(parts)
        }
        None => Ok(parts),
    }
}

fn bare_object(alloc: Global, id: u32, bits: u32, pid: Option<u16>) -> Result<Value, NoMemory>
    ensures { IfOk result (λ v. v ≡ bare_object id bits (pid_parts pid)) }
{
    Ok(Value::Object {
        class: Name::from_slice(alloc, b"TObject")?,
        version: 1,
        parts: with_pid(alloc, bare_parts(alloc, id, bits)?, pid)?,
    })
}

/// A TObject.
#[tactic(auto, unfolding(rio_format::specs::Objects::bare_layout))]
pub(crate) fn read_bare(alloc: Global, reader: &mut ObjReader) -> Result<Value, ObjFault>
    ensures exact { ReadsAs (λ x. x) result (read bare_layout reader.old) reader.new }
    ensures goes { GoesOn reader.old.at reader.new.at }
{
    let place = reader.place();
    let version = reader.take_u16()?;
    if version != 1 {
        return Err(ObjFault::NoCount { place });
    }
    let id = reader.take_u32()?;
    let bits = reader.take_u32()?;
    if bits & 16 == 0 {
        return Ok(bare_object(alloc, id, bits, None)?);
    }
    let pid = reader.take_u16()?;
    Ok(bare_object(alloc, id, bits, Some(pid))?)
}

/// The TObject that is a base of another built-in class, with at most `levels` levels of objects.
#[tactic(auto, unfolding(rio_format::specs::Objects::object_of, rio_format::specs::Objects::formed))]
pub(crate) fn read_base(
    alloc: Global,
    classes: &Classes,
    reader: &mut ObjReader,
    levels: u32,
) -> Result<Value, ObjFault>
    ensures exact { ReadsAs (λ x. x) result
        (read (object_of levels classes.now (codes "TObject")) reader.old) reader.new }
    ensures goes { GoesOn reader.old.at reader.new.at }
{
    if levels == 0 {
        return Err(ObjFault::TooDeep {
            place: reader.place(),
        });
    }
    read_bare(alloc, reader)
}

fn array_of(alloc: Global, class: &[u8], items: Value) -> Result<Value, NoMemory>
    ensures { IfOk result (λ v. v ≡ Object class.now (pos 1) (part (codes "items") items ∷ [])) }
{
    let mut parts = Parts::new(alloc);
    parts.push(part_with(alloc, b"items", items)?)?;
    Ok(Value::Object {
        class: Name::from_slice(alloc, class)?,
        version: 1,
        parts,
    })
}

/// A TArray of the class.
#[tactic(auto, unfolding(rio_format::specs::Objects::number_array))]
pub(crate) fn read_array(
    alloc: Global,
    reader: &mut ObjReader,
    class: &[u8],
    of: Prim,
) -> Result<Value, ObjFault>
    ensures exact { ReadsAs (λ x. x) result (read (number_array class.now of) reader.old)
        reader.new }
    ensures goes { GoesOn reader.old.at reader.new.at }
{
    let count = read_count(reader, width_of(of))?;
    let items = read_numbers(alloc, reader, of, count)?;
    Ok(array_of(alloc, class, items)?)
}
