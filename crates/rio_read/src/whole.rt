//! The ends of objects with a header.
ghost use Rattle.rio_num.specs.At.{GoesOn};
ghost use Rattle.rio_format.specs.{Frames.{ReadsAs}, Objects.{closed, unread}, Reader.{IsCounted}};
ghost use Rattle.rio_num.specs.Meanings.{read};

use rio_format::{ClassDef, Header, ObjFault, ObjReader, Parts, Value};
use rio_num::Name;
use std::alloc::Global;

/// The object of these parts, which end where the header says.
#[tactic(auto, unfolding(rio_format::specs::Objects::closed))]
pub(crate) fn whole(
    alloc: Global,
    reader: &mut ObjReader,
    class: &[u8],
    version: i32,
    header: Header,
    parts: Parts,
) -> Result<Value, ObjFault>
    requires { IsCounted header.place header.end reader.old }
    ensures exact { ReadsAs (λ x. x) result
        (read (closed class.now version header parts) reader.old) reader.new }
    ensures goes { GoesOn reader.old.at reader.new.at }
{
    reader.finish(header.place, header.end)?;
    Ok(Value::Object {
        class: Name::from_slice(alloc, class)?,
        version,
        parts,
    })
}

/// The object of these parts, in the version that is described.
pub(crate) fn whole_described(
    alloc: Global,
    reader: &mut ObjReader,
    class: &[u8],
    described: &ClassDef,
    header: Header,
    parts: Parts,
) -> Result<Value, ObjFault>
    requires { IsCounted header.place header.end reader.old }
    ensures exact { ReadsAs (λ x. x) result
        (read (closed class.now described.now.version header parts) reader.old) reader.new }
    ensures goes { GoesOn reader.old.at reader.new.at }
{
    whole(alloc, reader, class, described.version, header, parts)
}

/// An object that isn't read, up to where the header says.
#[tactic(auto, unfolding(rio_format::specs::Objects::unread))]
pub(crate) fn read_opaque(
    alloc: Global,
    reader: &mut ObjReader,
    class: &[u8],
    header: Header,
) -> Result<Value, ObjFault>
    requires { IsCounted header.place header.end reader.old }
    ensures exact { ReadsAs (λ x. x) result (read (unread class.now header) reader.old) reader.new }
    ensures goes { GoesOn reader.old.at reader.new.at }
{
    let place = reader.place();
    let said = (header.end - header.place - 4) as u32;
    if header.end < place {
        return Err(ObjFault::CountMismatch {
            place: header.place,
            said,
            used: (place - header.place - 4) as u32,
        });
    }
    let class = Name::from_slice(alloc, class)?;
    reader.skip(header.end - place)?;
    Ok(Value::Opaque {
        class,
        length: said,
    })
}
