//! Class lists are read.
ghost use Rattle.std.specs.Prelude.{◌≡◌, ℕ, ◌+◌, ◌<◌, ◌^◌, List, ◌++◌, length, codes, Ok, IfOk};
ghost use Rattle.rio_num.specs.Answers.{TellsUnless};
ghost use Rattle.rio_format.specs.{declared.fault.ObjFault.TheVariants.{NoMemory as OutOfMemory}, ClassList.{class_list_at, classes_of}, Descriptions.{description_classes}, Objects.{BreaksObject, SpellsObject}};
ghost use Rattle.rio_format.specs.declared.value.Value.{Value as Spelled};
ghost use Rattle.rio_read.specs.Reading.{Answers};

use crate::classes::classes_of;
use rio_describe::description_classes;
use rio_format::{Classes, ObjFault};
use rio_read::read_object;
use std::alloc::Global;

/// The classes that a class list describes, in its order, or the first fault. `bytes` are the data of an
/// info record, and `start` is the place of their first byte. Bytes behind the list are ignored, and so is
/// each item that isn't a TStreamerInfo of version 9, as the list of rules. Data that are a TList of another
/// version describe no classes. It costs about as much as reading the list as an object.
pub fn read_info(alloc: Global, bytes: &[u8], start: u64) -> Result<Classes, ObjFault>
    requires places { start + length bytes.now < 2 ^ 64 }
    requires size { length bytes.now < 2 ^ 32 }
    // The classes are those of a list that the front of the data spells.
    ensures found { IfOk result (λ classes. (v : Spelled) × (front : List ℕ) × (rest : List ℕ)
        × (bytes.now ≡ front ++ rest)
        × SpellsObject description_classes start (codes "TList") v front × (classes ≡ classes_of v)) }
    // What the front of the data spells is read, unless memory runs out.
    ensures only { (v : Spelled) (front rest : List ℕ) → bytes.now ≡ front ++ rest
        → SpellsObject description_classes start (codes "TList") v front
        → Answers result (Ok (classes_of v)) }
    // A fault is the first one of the data: what stands before its place is spelled, and there a rule is broken.
    ensures broken { TellsUnless OutOfMemory
        (BreaksObject description_classes start (codes "TList") bytes.now) result }
    // Which classes they are, or which fault.
    ensures exact { Answers result (class_list_at start bytes.now) }
{
    let descriptions = description_classes(alloc)?;
    let list = read_object(alloc, &descriptions, b"TList", bytes, start)?;
    Ok(classes_of(alloc, &list)?)
}
