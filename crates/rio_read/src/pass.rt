//! Objects are passed over: the first fault is told, and no value is made.
ghost use Rattle.rio_num.specs.At.{GoesOn};
ghost use Rattle.rio_format.specs.{Frames.{ReadsAs}, Objects.{depth_limit, object_of}};
ghost use Rattle.rio_num.specs.Meanings.{read};
ghost use Rattle.rio_read.specs.Passing.{pass_of};

mod numbers;
mod object;
mod plain;

pub use numbers::{pass_number, pass_numbers};
use rio_format::{Classes, DEPTH_LIMIT, ObjFault, ObjReader};
use std::alloc::Global;

/// Passes over the next object of the class, or tells the first fault, as `read_next` would. No value is made.
pub fn pass_next(
    alloc: Global,
    classes: &Classes,
    reader: &mut ObjReader,
    class: &[u8],
) -> Result<(), ObjFault>
    ensures exact { ReadsAs (λ x. x) result
        (read (pass_of (object_of depth_limit classes.now class.now)) reader.old) reader.new }
    ensures goes { GoesOn reader.old.at reader.new.at }
{
    object::pass_object(alloc, classes, reader, class, DEPTH_LIMIT)
}
