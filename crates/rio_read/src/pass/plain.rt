//! Passing over what has no objects inside, or a TObject alone.
ghost use Rattle.std.specs.Prelude.{codes};
ghost use Rattle.rio_num.specs.At.{GoesOn};
ghost use Rattle.rio_format.specs.{Frames.{ReadsAs}, Reader.{IsCounted}, Bodies.{t_named, t_obj_string}, Objects.{number_array, bare_layout, object_of, parts, unread}};
ghost use Rattle.rio_num.specs.Meanings.{read};
ghost use Rattle.rio_read.specs.Passing.{counters_with_next, pass_of};

use super::numbers::pass_list;
use crate::numbers::read_count;
use rio_format::{Classes, Counters, Header, ObjFault, ObjReader, Prim, width_of};
use rio_num::Name;

/// Passes over a TObject.
#[tactic(auto, unfolding(rio_format::specs::Objects::bare_layout))]
pub(crate) fn pass_bare(reader: &mut ObjReader) -> Result<(), ObjFault>
    ensures exact { ReadsAs (λ x. x) result (read (pass_of bare_layout) reader.old) reader.new }
    ensures goes { GoesOn reader.old.at reader.new.at }
{
    let place = reader.place();
    let version = reader.take_u16()?;
    if version != 1 {
        return Err(ObjFault::NoCount { place });
    }
    reader.take_u32()?;
    let bits = reader.take_u32()?;
    if bits & 16 == 0 {
        return Ok(());
    }
    reader.take_u16()?;
    Ok(())
}

/// Passes over the TObject that is a base of another built-in class, with at most `levels` levels of objects.
#[tactic(auto, unfolding(rio_format::specs::Objects::object_of, rio_format::specs::Objects::formed))]
pub(crate) fn pass_base(
    classes: &Classes,
    reader: &mut ObjReader,
    levels: u32,
) -> Result<(), ObjFault>
    ensures exact { ReadsAs (λ x. x) result
        (read (pass_of (object_of levels classes.now (codes "TObject"))) reader.old) reader.new }
    ensures goes { GoesOn reader.old.at reader.new.at }
{
    if levels == 0 {
        return Err(ObjFault::TooDeep {
            place: reader.place(),
        });
    }
    pass_bare(reader)
}

/// Passes over a TArray of the class.
#[tactic(auto, unfolding(rio_format::specs::Objects::number_array))]
pub(crate) fn pass_array(reader: &mut ObjReader, class: &[u8], of: Prim) -> Result<(), ObjFault>
    ensures exact { ReadsAs (λ x. x) result (read (pass_of (number_array class.now of)) reader.old)
        reader.new }
    ensures goes { GoesOn reader.old.at reader.new.at }
{
    let count = read_count(reader, width_of(of))?;
    pass_list(reader, of, count)
}

/// Passes over a counter of this name, which counts from then on.
#[tactic(auto, unfolding(crate::specs::Passing::counters_with_next))]
pub(crate) fn pass_counter<'a>(
    reader: &mut ObjReader,
    name: &'a Name,
    counters: &mut Counters<'a>,
) -> Result<(), ObjFault>
    ensures exact { ReadsAs (λ _. counters.new) result
        (read (counters_with_next name.now counters.old) reader.old) reader.new }
    ensures goes { GoesOn reader.old.at reader.new.at }
{
    let said = reader.take_u32()?.cast_signed();
    counters.note(name.as_slice(), said)?;
    Ok(())
}

/// Passes over an object that isn't read, up to where the header says.
#[tactic(auto, unfolding(rio_format::specs::Objects::unread))]
pub(crate) fn pass_opaque(
    reader: &mut ObjReader,
    class: &[u8],
    header: Header,
) -> Result<(), ObjFault>
    requires { IsCounted header.place header.end reader.old }
    ensures exact { ReadsAs (λ x. x) result (read (pass_of (unread class.now header)) reader.old)
        reader.new }
    ensures goes { GoesOn reader.old.at reader.new.at }
{
    let place = reader.place();
    if header.end < place {
        return Err(ObjFault::CountMismatch {
            place: header.place,
            said: (header.end - header.place - 4) as u32,
            used: (place - header.place - 4) as u32,
        });
    }
    reader.skip(header.end - place)
}

/// Passes over the parts of a TNamed.
#[tactic(auto, using(crate::proofs::PassedParts::named_passed))]
pub(crate) fn pass_named(
    classes: &Classes,
    reader: &mut ObjReader,
    levels: u32,
) -> Result<(), ObjFault>
    ensures exact { ReadsAs (λ x. x) result
        (read (pass_of (parts (object_of levels classes.now) t_named)) reader.old) reader.new }
    ensures goes { GoesOn reader.old.at reader.new.at }
{
    pass_base(classes, reader, levels)?;
    reader.take_text()?;
    reader.take_text()?;
    Ok(())
}

/// Passes over the parts of a TObjString.
#[tactic(auto, using(crate::proofs::PassedParts::obj_string_passed))]
pub(crate) fn pass_obj_string(
    classes: &Classes,
    reader: &mut ObjReader,
    levels: u32,
) -> Result<(), ObjFault>
    ensures exact { ReadsAs (λ x. x) result
        (read (pass_of (parts (object_of levels classes.now) t_obj_string)) reader.old) reader.new }
    ensures goes { GoesOn reader.old.at reader.new.at }
{
    pass_base(classes, reader, levels)?;
    reader.take_text()?;
    Ok(())
}
