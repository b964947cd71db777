//! Zeros of kinds and of classes.
ghost use Rattle.std.specs.Prelude.{◌≡◌, ◌+◌, IfOk, length, replicate};
ghost use Rattle.rio_format.specs.{Slots.{fields_of}, declared.value.Value.{Object}};
ghost use Rattle.rio_model.specs.Mapping.{kind_zero, object_zero, parts_zero, single_zero, slot_zero, zero_of_class, zero_version, zero_within};

use crate::lacking::lacks_zero;
use crate::memory::Memory;
use rio_format::{
    Classes, Fields, Kind, Parts, Prim, Slot, SlotKind, Value, Values, fields_of, is_headed,
    part_with, slot_of,
};
use rio_model::built_in_version;
use rio_num::{Name, NoMemory};
use std::alloc::Global;

fn single_zero(prim: Prim) -> Value
    ensures { result ≡ single_zero prim }
{
    match prim {
        Prim::Bool => Value::Bool(false),
        Prim::F32 => Value::Bits32(0),
        Prim::F64 => Value::Bits64(0),
        _ => Value::Int(0),
    }
}

fn zeros(memory: &mut Memory, prim: Prim, count: u32) -> Result<Values, NoMemory>
    ensures { IfOk result (λ zeros. zeros ≡ replicate count (single_zero prim)) }
{
    memory.take(count)?;
    let mut zeros = Values::new(memory.alloc);
    for _ in 0..count {
        zeros.push(single_zero(prim))?;
    }
    Ok(zeros)
}

// The zero of what may stand in a part, with at most so many objects within one another.
#[cycle(zero)]
fn slot_zero(
    memory: &mut Memory,
    classes: &Classes,
    slot: &Slot,
    levels: u128,
) -> Result<Option<Value>, NoMemory>
    ensures { IfOk result (λ o. o ≡ slot_zero (zero_within levels classes.now) slot.now) }
{
    memory.take(1)?;
    match slot.0 {
        SlotKind::Plain(of) => Ok(Some(single_zero(of))),
        SlotKind::Counter | SlotKind::Flags => Ok(Some(Value::Int(0))),
        SlotKind::Fixed(of, count) => Ok(Some(Value::List(zeros(memory, of, count)?))),
        SlotKind::Text => Ok(Some(Value::Text(Name::new(memory.alloc)))),
        SlotKind::Inline(class) | SlotKind::Based(class, _) => {
            zero_within(memory, classes, class, levels)
        }
        SlotKind::Pointer(_) | SlotKind::AnyPointer => Ok(Some(Value::Null)),
        SlotKind::Counted(..) | SlotKind::Numbers(_) | SlotKind::Pointers | SlotKind::Links => {
            Ok(Some(Value::List(Values::new(memory.alloc))))
        }
        SlotKind::Other(_) | SlotKind::Link => Ok(None),
    }
}

#[cycle(zero)]
fn parts_zero(
    memory: &mut Memory,
    classes: &Classes,
    fields: &Fields,
    levels: u128,
) -> Result<Option<Parts>, NoMemory>
    ensures { IfOk result (λ o. o ≡ parts_zero (zero_within levels classes.now) fields.now) }
{
    memory.enter()?;
    let mut parts = Parts::new(memory.alloc);
    for k in 0..usize::MAX {
        let Some(field) = fields.get(k) else {
            memory.leave();
            return Ok(Some(parts));
        };
        let Some(value) = slot_zero(memory, classes, &field.slot, levels)? else {
            return Ok(None);
        };
        parts.push(part_with(memory.alloc, field.name, value)?)?;
    }
    Err(NoMemory)
}

/// An object of these parts.
pub(crate) fn object_with(
    alloc: Global,
    class: &[u8],
    version: i32,
    parts: Parts,
) -> Result<Value, NoMemory>
    ensures { IfOk result (λ v. v ≡ Object class.now version parts) }
{
    let class = Name::from_slice(alloc, class)?;
    Ok(Value::Object {
        class,
        version,
        parts,
    })
}

#[cycle(zero)]
fn object_zero(
    memory: &mut Memory,
    classes: &Classes,
    class: &[u8],
    version: i32,
    levels: u128,
) -> Result<Option<Value>, NoMemory>
    ensures { let within = zero_within levels classes.now in
        IfOk result (λ o. o ≡ object_zero classes.now class.now within version) }
{
    let Some(fields) = fields_of(classes, class, version) else {
        return Ok(None);
    };
    match parts_zero(memory, classes, &fields, levels)? {
        Some(parts) => Ok(Some(object_with(memory.alloc, class, version, parts)?)),
        None => Ok(None),
    }
}

/// The version of a zero object of the class: the built-in one, or else the newest.
pub(crate) fn zero_version(classes: &Classes, class: &[u8]) -> Option<i32>
    ensures { result ≡ zero_version classes.now class.now }
{
    if let Some(own) = built_in_version(class) {
        return Some(own);
    }
    match classes.newest(class) {
        Some(newest) => Some(newest.version),
        None => None,
    }
}

// The zero object of the class, of at most so many objects within one another.
#[cycle(zero)]
fn zero_within(
    memory: &mut Memory,
    classes: &Classes,
    class: &[u8],
    levels: u128,
) -> Result<Option<Value>, NoMemory>
    ensures { IfOk result (λ o. o ≡ zero_within levels classes.now class.now) }
{
    if levels == 0 {
        return Ok(None);
    }
    match zero_version(classes, class) {
        Some(version) => object_zero(memory, classes, class, version, levels - 1),
        None => Ok(None),
    }
}

// More levels than there are have a class within itself.
fn most_levels(classes: &Classes) -> u128
    ensures { result ≡ length classes.now + 2 }
{
    classes.len() as u128 + 2
}

/// The zero object of a class, if it has one, within what may be made.
pub(crate) fn zero_object(
    memory: &mut Memory,
    classes: &Classes,
    class: &[u8],
) -> Result<Option<Value>, NoMemory>
    ensures { IfOk result (λ o. o ≡ zero_of_class classes.now class.now) }
{
    if lacks_zero(memory.alloc, classes, class)? {
        return Ok(None);
    }
    memory.take(1)?;
    zero_within(memory, classes, class, most_levels(classes))
}

/// The zero of a kind, if it has one, within what may be made.
pub(crate) fn zero_of_kind(
    memory: &mut Memory,
    classes: &Classes,
    kind: &Kind,
) -> Result<Option<Value>, NoMemory>
    ensures { IfOk result (λ o. o ≡ kind_zero (zero_of_class classes.now) kind.now) }
{
    match kind {
        Kind::Inline { class } => zero_object(memory, classes, class.as_slice()),
        _ => slot_zero(memory, classes, &slot_of(kind), most_levels(classes)),
    }
}

/// The zero object of a class, if it has one.
pub fn zero_of_class(
    alloc: Global,
    classes: &Classes,
    class: &[u8],
) -> Result<Option<Value>, NoMemory>
    ensures { IfOk result (λ o. o ≡ zero_of_class classes.now class.now) }
{
    zero_object(&mut Memory::new(alloc), classes, class)
}

/// The zero of a kind, if it has one.
pub fn kind_zero(alloc: Global, classes: &Classes, kind: &Kind) -> Result<Option<Value>, NoMemory>
    ensures { IfOk result (λ o. o ≡ kind_zero (zero_of_class classes.now) kind.now) }
{
    zero_of_kind(&mut Memory::new(alloc), classes, kind)
}
