//! The calls that read objects.
ghost use Rattle.std.specs.Prelude.{◌+◌, ◌<◌, ◌^◌, length, IfOk, IsTrue};
ghost use Rattle.rio_num.specs.Answers.{TellsUnless};
ghost use Rattle.rio_num.specs.At.{AreBytes, GoesOn};
ghost use Rattle.rio_format.specs.{declared.fault.ObjFault.TheVariants.{NoMemory as OutOfMemory}, Objects.{BreaksObject, value_at}, BuiltIn.{is_small_builtin}};
ghost use Rattle.rio_read.specs.FirstFault.{BreaksNext, RefusesBreak};
ghost use Rattle.rio_read.specs.Reading.{Answers, AnswersFront, HasFront, IsRead, IsSpelled, ReadsNext};

use crate::object;
use rio_format::{Classes, DEPTH_LIMIT, ObjFault, ObjReader, Value};
use std::alloc::Global;

/// The object of the class that begins the data, whose first byte has the place `start`, or the first
/// fault. Bytes behind the object are ignored. An object whose class is not described in its version, or
/// has a member that can't be read, is `Opaque`.
pub fn read_object(
    alloc: Global,
    classes: &Classes,
    class: &[u8],
    bytes: &[u8],
    start: u64,
) -> Result<Value, ObjFault>
    requires places { start + length bytes.now < 2 ^ 64 }
    requires size { length bytes.now < 2 ^ 32 }
    // What is read is spelled by the front of the data.
    ensures found { IfOk result (λ v. HasFront classes.now start class.now v bytes.now) }
    // What the front of the data spells is read, unless memory runs out.
    ensures only { AnswersFront classes.now start class.now bytes.now result }
    // A fault is the first one of the data: what stands before its place is spelled, and there a rule is broken.
    ensures broken { TellsUnless OutOfMemory
        (BreaksObject classes.now start class.now bytes.now) result }
    // The first fault of the data is returned, unless memory runs out.
    ensures refused { RefusesBreak (BreaksObject classes.now start class.now bytes.now) result }
    // Which value it is, or which fault, as reading from left to right gives it.
    ensures exact { Answers result (value_at classes.now class.now start bytes.now) }
{
    read_first(alloc, classes, class, bytes, start)
}

fn read_first(
    alloc: Global,
    classes: &Classes,
    class: &[u8],
    bytes: &[u8],
    start: u64,
) -> Result<Value, ObjFault>
    requires places { start + length bytes.now < 2 ^ 64 }
    requires size { length bytes.now < 2 ^ 32 }
    ensures { Answers result (value_at classes.now class.now start bytes.now) }
{
    let mut reader = ObjReader::new(alloc, bytes, start);
    object::read_object(alloc, classes, &mut reader, class, DEPTH_LIMIT)
}

/// The next object, of a TObject, TNamed, TObjString or TArray class. Where it is refused, the reader may
/// stand anywhere behind the object's first byte.
pub fn read_builtin(
    alloc: Global,
    classes: &Classes,
    reader: &mut ObjReader,
    class: &[u8],
) -> Result<Value, ObjFault>
    requires { IsTrue (is_small_builtin class.now) }
    // What is read is spelled by the bytes that were passed.
    ensures found { IfOk result (λ v. IsSpelled classes.now class.now v reader.old reader.new) }
    // What the front of the bytes spells is read, unless memory runs out.
    ensures only { IsRead classes.now class.now result reader.old reader.new }
    // A fault is the first one of the bytes.
    ensures broken { TellsUnless OutOfMemory
        (BreaksNext classes.now class.now reader.old) result }
    // The first fault of the bytes is returned, unless memory runs out.
    ensures refused { RefusesBreak (BreaksNext classes.now class.now reader.old) result }
    // Which value it is, or which fault, as reading from left to right gives it.
    ensures exact { ReadsNext classes.now class.now result reader.old reader.new }
    ensures bytes { AreBytes reader.old.at.rest }
    ensures goes { GoesOn reader.old.at reader.new.at }
{
    object::read_object(alloc, classes, reader, class, DEPTH_LIMIT)
}

/// The next object of the class, or the first fault, as `read_object` gives it; the reader stands behind the object then.
/// Where it is refused, the reader may stand anywhere behind the object's first byte.
pub fn read_next(
    alloc: Global,
    classes: &Classes,
    reader: &mut ObjReader,
    class: &[u8],
) -> Result<Value, ObjFault>
    ensures exact { ReadsNext classes.now class.now result reader.old reader.new }
    ensures goes { GoesOn reader.old.at reader.new.at }
{
    object::read_object(alloc, classes, reader, class, DEPTH_LIMIT)
}
