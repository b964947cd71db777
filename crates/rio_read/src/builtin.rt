//! The parts of built-in classes with a header.
ghost use Rattle.std.specs.Prelude.{◌≡◌, [], ◌∷◌, codes, IfOk};
ghost use Rattle.rio_num.specs.At.{GoesOn};
ghost use Rattle.rio_format.specs.{Bodies.{part, t_named, t_obj_string}, Frames.{ReadsAs}, Objects.{object_of, parts}, declared.value.Value.{Text, List as Listing}};
ghost use Rattle.rio_num.specs.Meanings.{read};

use crate::bare::read_base;
use crate::numbers::read_name;
use rio_format::{Classes, ObjFault, ObjReader, Parts, Value, Values, part_with};
use rio_num::{Name, NoMemory};
use std::alloc::Global;

fn named_parts(alloc: Global, base: Value, name: Name, title: Name) -> Result<Parts, NoMemory>
    ensures { IfOk result (λ parts. parts
        ≡ part [] base ∷ part (codes "fName") (Text name) ∷ part (codes "fTitle") (Text title) ∷ []) }
{
    let mut parts = Parts::new(alloc);
    parts.push(part_with(alloc, b"", base)?)?;
    parts.push(part_with(alloc, b"fName", Value::Text(name))?)?;
    parts.push(part_with(alloc, b"fTitle", Value::Text(title))?)?;
    Ok(parts)
}

fn obj_string_parts(alloc: Global, base: Value, text: Name) -> Result<Parts, NoMemory>
    ensures { IfOk result (λ parts. parts
        ≡ part [] base ∷ part (codes "fString") (Text text) ∷ []) }
{
    let mut parts = Parts::new(alloc);
    parts.push(part_with(alloc, b"", base)?)?;
    parts.push(part_with(alloc, b"fString", Value::Text(text))?)?;
    Ok(parts)
}

/// The parts of a TList.
pub(crate) fn list_parts(
    alloc: Global,
    base: Value,
    name: Name,
    items: Values,
) -> Result<Parts, NoMemory>
    ensures { IfOk result (λ parts. parts
        ≡ part [] base ∷ part (codes "fName") (Text name)
        ∷ part (codes "items") (Listing items) ∷ []) }
{
    let mut parts = Parts::new(alloc);
    parts.push(part_with(alloc, b"", base)?)?;
    parts.push(part_with(alloc, b"fName", Value::Text(name))?)?;
    parts.push(part_with(alloc, b"items", Value::List(items))?)?;
    Ok(parts)
}

/// The parts of a TObjArray.
pub(crate) fn array_parts(
    alloc: Global,
    base: Value,
    name: Name,
    lower: Value,
    items: Values,
) -> Result<Parts, NoMemory>
    ensures { IfOk result (λ parts. parts
        ≡ part [] base ∷ part (codes "fName") (Text name) ∷ part (codes "fLowerBound") lower
        ∷ part (codes "items") (Listing items) ∷ []) }
{
    let mut parts = Parts::new(alloc);
    parts.push(part_with(alloc, b"", base)?)?;
    parts.push(part_with(alloc, b"fName", Value::Text(name))?)?;
    parts.push(part_with(alloc, b"fLowerBound", lower)?)?;
    parts.push(part_with(alloc, b"items", Value::List(items))?)?;
    Ok(parts)
}

/// The parts of a TNamed.
#[tactic(auto, unfolding(rio_format::specs::Objects::parts, rio_format::specs::Objects::member_parts, rio_format::specs::Objects::member_part, rio_format::specs::Objects::kind_value, rio_format::specs::Objects::base_part, rio_format::specs::Objects::text_value, rio_num::specs::Layout::each))]
pub(crate) fn read_named_parts(
    alloc: Global,
    classes: &Classes,
    reader: &mut ObjReader,
    levels: u32,
) -> Result<Parts, ObjFault>
    ensures exact { ReadsAs (λ x. x) result
        (read (parts (object_of levels classes.now) t_named) reader.old) reader.new }
    ensures goes { GoesOn reader.old.at reader.new.at }
{
    let base = read_base(alloc, classes, reader, levels)?;
    let name = read_name(alloc, reader)?;
    let title = read_name(alloc, reader)?;
    Ok(named_parts(alloc, base, name, title)?)
}

/// The parts of a TObjString.
#[tactic(auto, unfolding(rio_format::specs::Objects::parts, rio_format::specs::Objects::member_parts, rio_format::specs::Objects::member_part, rio_format::specs::Objects::kind_value, rio_format::specs::Objects::base_part, rio_format::specs::Objects::text_value, rio_num::specs::Layout::each))]
pub(crate) fn read_obj_string_parts(
    alloc: Global,
    classes: &Classes,
    reader: &mut ObjReader,
    levels: u32,
) -> Result<Parts, ObjFault>
    ensures exact { ReadsAs (λ x. x) result
        (read (parts (object_of levels classes.now) t_obj_string) reader.old) reader.new }
    ensures goes { GoesOn reader.old.at reader.new.at }
{
    let base = read_base(alloc, classes, reader, levels)?;
    let text = read_name(alloc, reader)?;
    Ok(obj_string_parts(alloc, base, text)?)
}
