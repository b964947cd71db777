//! Numbers, and lists of them.
ghost use Rattle.std.specs.Prelude.{◌<◌};
ghost use Rattle.rio_num.specs.At.{GoesOn};
ghost use Rattle.rio_format.specs.{Frames.{ReadsAs}, Objects.{count_of, counted_values, filled, number_value, numbers, text_value}};
ghost use Rattle.rio_num.specs.Layout.{text, times};
ghost use Rattle.rio_num.specs.Meanings.{read};

use rio_format::{ObjFault, ObjReader, Prim, Value, Values, width_of};
use rio_num::Name;
use std::alloc::Global;

/// The next number, or truth value, of this kind.
#[tactic(auto, unfolding(rio_format::specs::Objects::number_value))]
pub fn read_number(reader: &mut ObjReader, of: Prim) -> Result<Value, ObjFault>
    ensures exact { ReadsAs (λ x. x) result (read (number_value of) reader.old) reader.new }
    ensures goes { GoesOn reader.old.at reader.new.at }
{
    match of {
        Prim::I8 => Ok(Value::Int(i128::from(reader.take_u8()?.cast_signed()))),
        Prim::I16 => Ok(Value::Int(i128::from(reader.take_u16()?.cast_signed()))),
        Prim::I32 => Ok(Value::Int(i128::from(reader.take_u32()?.cast_signed()))),
        Prim::I64 => Ok(Value::Int(i128::from(reader.take_u64()?.cast_signed()))),
        Prim::U8 => Ok(Value::Int(i128::from(reader.take_u8()?))),
        Prim::U16 => Ok(Value::Int(i128::from(reader.take_u16()?))),
        Prim::U32 => Ok(Value::Int(i128::from(reader.take_u32()?))),
        Prim::U64 => Ok(Value::Int(i128::from(reader.take_u64()?))),
        Prim::Bool => Ok(Value::Bool(reader.take_u8()? != 0)),
        Prim::F32 => Ok(Value::Bits32(reader.take_u32()?)),
        Prim::F64 => Ok(Value::Bits64(reader.take_u64()?)),
    }
}

/// So many numbers.
pub fn read_times(
    alloc: Global,
    reader: &mut ObjReader,
    of: Prim,
    count: u64,
) -> Result<Values, ObjFault>
    ensures exact { ReadsAs (λ x. x) result (read (times count (number_value of)) reader.old)
        reader.new }
    ensures goes { GoesOn reader.old.at reader.new.at }
{
    let held = reader.left() / width_of(of);
    let mut values = Values::with_capacity(alloc, held.min(count) as usize)?;
    for _done in 0..count {
        values.push(read_number(reader, of)?)?;
    }
    Ok(values)
}

/// A list of `count` numbers.
#[tactic(auto, unfolding(rio_format::specs::Objects::numbers))]
pub(crate) fn read_numbers(
    alloc: Global,
    reader: &mut ObjReader,
    of: Prim,
    count: u32,
) -> Result<Value, ObjFault>
    ensures exact { ReadsAs (λ x. x) result (read (numbers of count) reader.old) reader.new }
    ensures goes { GoesOn reader.old.at reader.new.at }
{
    Ok(Value::List(read_times(alloc, reader, of, u64::from(count))?))
}

/// A count of items of at least `width` bytes each, which are behind it.
#[tactic(auto, using(crate::proofs::Counts::few_same), unfolding(rio_format::specs::Objects::count_of))]
pub(crate) fn read_count(reader: &mut ObjReader, width: u64) -> Result<u32, ObjFault>
    requires { 0 < width }
    ensures exact { ReadsAs (λ x. x) result (read (count_of width) reader.old) reader.new }
    ensures goes { GoesOn reader.old.at reader.new.at }
{
    let place = reader.place();
    let count = reader.take_u32()?;
    if count >= 0x8000_0000 {
        return Err(ObjFault::BadCount { place });
    }
    if reader.left() / width < u64::from(count) {
        return Err(ObjFault::BadCount { place });
    }
    Ok(count)
}

// As many values as a counter said, behind the byte 1 at the place.
fn read_filled(
    alloc: Global,
    reader: &mut ObjReader,
    of: Prim,
    place: u64,
    count: i32,
) -> Result<Value, ObjFault>
    ensures exact { ReadsAs (λ x. x) result (read (filled of place count) reader.old) reader.new }
    ensures goes { GoesOn reader.old.at reader.new.at }
{
    if count < 0 {
        return Err(ObjFault::BadCount { place });
    }
    read_numbers(alloc, reader, of, count as u32)
}

/// The byte 0 for nothing, or the byte 1 and `count` values.
#[tactic(auto, unfolding(rio_format::specs::Objects::counted_values))]
pub(crate) fn read_counted(
    alloc: Global,
    reader: &mut ObjReader,
    of: Prim,
    count: i32,
) -> Result<Value, ObjFault>
    ensures exact { ReadsAs (λ x. x) result (read (counted_values of count) reader.old) reader.new }
    ensures goes { GoesOn reader.old.at reader.new.at }
{
    let place = reader.place();
    match reader.take_u8()? {
        0 => Ok(Value::List(Values::new(alloc))),
        1 => read_filled(alloc, reader, of, place, count),
        _ => Err(ObjFault::BadFlag { place }),
    }
}

pub(crate) fn read_name(alloc: Global, reader: &mut ObjReader) -> Result<Name, ObjFault>
    ensures exact { ReadsAs (λ x. x) result (read (text ObjFault.Short) reader.old) reader.new }
    ensures goes { GoesOn reader.old.at reader.new.at }
{
    let text = reader.take_text()?;
    Ok(Name::from_slice(alloc, text)?)
}

/// A text.
#[tactic(auto, unfolding(rio_format::specs::Objects::text_value))]
pub fn read_text(alloc: Global, reader: &mut ObjReader) -> Result<Value, ObjFault>
    ensures exact { ReadsAs (λ x. x) result (read text_value reader.old) reader.new }
    ensures goes { GoesOn reader.old.at reader.new.at }
{
    Ok(Value::Text(read_name(alloc, reader)?))
}
