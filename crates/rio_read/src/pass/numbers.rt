//! Passing over numbers, lists of them and texts.
ghost use Rattle.rio_num.specs.At.{GoesOn};
ghost use Rattle.rio_format.specs.{Frames.{ReadsAs}, Objects.{counted_values, filled, number_value, numbers, text_value}};
ghost use Rattle.rio_num.specs.Layout.{times};
ghost use Rattle.rio_num.specs.Meanings.{read};
ghost use Rattle.rio_read.specs.Passing.{pass_of};

use rio_format::{ObjFault, ObjReader, Prim, width_of};

/// Passes over the next number, or truth value, of this kind.
#[tactic(auto, using(crate::proofs::Passing::one_number))]
pub fn pass_number(reader: &mut ObjReader, of: Prim) -> Result<(), ObjFault>
    ensures exact { ReadsAs (λ x. x) result (read (pass_of (number_value of)) reader.old)
        reader.new }
    ensures goes { GoesOn reader.old.at reader.new.at }
{
    reader.skip(width_of(of))
}

/// Passes over `n` numbers of this kind. Where they aren't all there, the fault is that of the first that isn't whole.
#[tactic(auto, using(crate::proofs::Passing::enough, crate::proofs::Passing::too_few))]
pub fn pass_numbers(reader: &mut ObjReader, of: Prim, n: u64) -> Result<(), ObjFault>
    ensures exact { ReadsAs (λ x. x) result (read (pass_of (times n (number_value of))) reader.old)
        reader.new }
    ensures goes { GoesOn reader.old.at reader.new.at }
{
    let width = width_of(of);
    let whole = reader.left() / width;
    if n <= whole {
        return reader.skip(n * width);
    }
    reader.skip(whole * width)?;
    reader.skip(width)
}

/// Passes over a list of `count` numbers.
#[tactic(auto, unfolding(rio_format::specs::Objects::numbers))]
pub(crate) fn pass_list(reader: &mut ObjReader, of: Prim, count: u32) -> Result<(), ObjFault>
    ensures exact { ReadsAs (λ x. x) result (read (pass_of (numbers of count)) reader.old)
        reader.new }
    ensures goes { GoesOn reader.old.at reader.new.at }
{
    pass_numbers(reader, of, u64::from(count))
}

// As many numbers as a counter said, behind the byte 1 at the place.
fn pass_filled(reader: &mut ObjReader, of: Prim, place: u64, count: i32) -> Result<(), ObjFault>
    ensures exact { ReadsAs (λ x. x) result (read (pass_of (filled of place count)) reader.old)
        reader.new }
    ensures goes { GoesOn reader.old.at reader.new.at }
{
    if count < 0 {
        return Err(ObjFault::BadCount { place });
    }
    pass_list(reader, of, count as u32)
}

/// Passes over the byte 0 for nothing, or the byte 1 and `count` numbers.
#[tactic(auto, unfolding(rio_format::specs::Objects::counted_values))]
pub(crate) fn pass_counted(reader: &mut ObjReader, of: Prim, count: i32) -> Result<(), ObjFault>
    ensures exact { ReadsAs (λ x. x) result (read (pass_of (counted_values of count)) reader.old)
        reader.new }
    ensures goes { GoesOn reader.old.at reader.new.at }
{
    let place = reader.place();
    match reader.take_u8()? {
        0 => Ok(()),
        1 => pass_filled(reader, of, place, count),
        _ => Err(ObjFault::BadFlag { place }),
    }
}

#[tactic(auto, unfolding(rio_format::specs::Objects::text_value))]
pub(crate) fn pass_text(reader: &mut ObjReader) -> Result<(), ObjFault>
    ensures exact { ReadsAs (λ x. x) result (read (pass_of text_value) reader.old) reader.new }
    ensures goes { GoesOn reader.old.at reader.new.at }
{
    reader.take_text()?;
    Ok(())
}
