//! Objects are written, and how long what is written is.
ghost use Rattle.std.specs.Prelude.{◌≡◌, ◌≤◌, ◌<◌, ◌+◌, ◌-◌, ◌^◌, ℕ, List, length, min, IfOk, IsTrue};
ghost use Rattle.rio_format.specs.{Written.{written_form}, Fits.{Fits}, Laws.{has_versions}, Objects.{SpellsObject, depth_limit}, Depth.{depth_of}};
ghost use Rattle.rio_num.specs.Room.{room_of};
ghost use Rattle.rio_write.specs.Measuring.{too_long};

use crate::measure::Total;
use crate::walk::{class_of, write_value};
use rio_format::{Classes, ObjWriter, Slot, SlotKind, Value};
use rio_num::{Bytes, Names, NoMemory};
use std::alloc::Global;

/// The bytes that are written for an object whose first byte has the place `start`: the one spelling with
/// the name of each class only where it is first pointed to, and a reference for every `Back`. The value
/// is an object that fits its class in the list of classes.
pub fn write_object(
    alloc: Global,
    classes: &Classes,
    value: &Value,
    start: u64,
) -> Result<Bytes, NoMemory>
    requires { start + length (written_form classes.now start value.now) < 2 ^ 30 - 2 }
    ensures exact { IfOk result (λ b. b ≡ room_of (written_form classes.now start value.now)) }
    // What is written for a value that fits spells it, if it isn't too deep and its versions can be written.
    ensures spelled { (class : List ℕ) → Fits classes.now class value.now
        → depth_of value.now ≤ depth_limit → IsTrue (has_versions value.now)
        → IfOk result (λ b. SpellsObject classes.now start class value.now b.bytes) }
{
    let mut writer = ObjWriter::new(alloc, start);
    let mut names = Names::new(alloc);
    let class = class_of(value);
    let slot = Slot(SlotKind::Inline(class));
    write_value(alloc, classes, &mut writer, &mut names, value, &slot)?;
    Ok(writer.into_bytes())
}

/// The length of the bytes that `write_object` writes for a value, or 16,777,217 where they are more than
/// 16,777,216. The value is an object that fits its class in the list of classes. Nothing is written.
pub fn written_length(alloc: Global, classes: &Classes, value: &Value) -> Result<u64, NoMemory>
    ensures { IfOk result (λ n. (start : ℕ) → n
        ≡ min (length (written_form classes.now start value.now)) too_long) }
{
    let mut total = Total { bytes: 0 };
    let mut names = Names::new(alloc);
    let class = class_of(value);
    let slot = Slot(SlotKind::Inline(class));
    write_value(alloc, classes, &mut total, &mut names, value, &slot)?;
    Ok(total.bytes)
}
