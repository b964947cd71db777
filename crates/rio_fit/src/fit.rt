//! Which values fit where.
ghost use Rattle.rio_format.specs.declared.class.ClassDef.{ClassDef as Class};
ghost use Rattle.std.specs.Prelude.{◌≡◌, List, [], map, Some, None, IfOk};
ghost use Rattle.rio_format.specs.{Fits.{Labels, all_fit, back_fits, counted_slot, fields_fit, fits, fitting_of, link_fits, list_fits, object_may_stand, part_fitting, parts_fit, pointed_fits}, Slots.{fields_of}};
ghost use Rattle.rio_format.specs.{declared.kind.Kind.TheVariants.{Inline}, declared.value.Value.{Value as Given}};
ghost use Rattle.std.specs.Prelude.{slice_get};
ghost use Rattle.rio_fit.specs.Fitting.{IsCounterValue, counter_fits, Tells, part_fits};

use crate::derive::{Owner, is_pointer, may_point};
use crate::fit_numbers::{bits32_fits, bits64_fits, int_fits, text_fits, truth_fits};
use rio_format::{Classes, Counters, Field, Fields, Part, Slot, SlotKind, Value, fields_of};
use rio_num::{Items, NoMemory};
use std::alloc::Global;

/// The classes and versions of the objects that have a label, by label.
type Owners<'a> = Items<Owner<'a>>;

// The slot with the count that its counter says.
fn counted_slot<'a>(counters: &Counters, slot: &Slot<'a>) -> Slot<'a>
    ensures { result ≡ counted_slot counters.now slot.now }
{
    let kind = match slot.0 {
        SlotKind::Counted(of, counter) => match counters.said(counter) {
            Some(count) if count >= 0 => SlotKind::Fixed(of, count as u32),
            _ => SlotKind::Other(0),
        },
        kind => kind,
    };
    Slot(kind)
}

// What a counter says, where the value is one.
fn counter_in(value: &Value) -> Option<i32>
    ensures { (classes : List Class) → IsCounterValue result (fitting_of classes value.now) }
{
    match value {
        Value::Int(n) => i32::try_from(*n).ok(),
        _ => None,
    }
}

// The class and version of an object.
fn owner_of<'a>(value: &'a Value) -> Option<Owner<'a>>
    ensures { (classes : List Class) → result ≡ (fitting_of classes value.now).class }
{
    match value {
        Value::Object { class, version, .. } => Some(Owner {
            class: class.as_slice(),
            version: *version,
        }),
        _ => None,
    }
}

fn object_may_stand(class: &[u8], version: i32, slot: &Slot) -> bool
    ensures { result ≡ object_may_stand class.now version slot.now }
{
    match slot.0 {
        SlotKind::Inline(wanted) => class == wanted,
        SlotKind::Based(wanted, in_version) => class == wanted && version == in_version,
        _ => false,
    }
}

// Whether a value is a counter, which counts by the name from then on.
fn counter_fits<'a>(
    name: &'a [u8],
    value: &Value,
    counters: &mut Counters<'a>,
) -> Result<bool, NoMemory>
    ensures { (classes : List Class) (owners : Labels) →
        Tells result (counter_fits name.now (fitting_of classes value.now) counters.old owners)
        (owners, counters.new) }
{
    match counter_in(value) {
        Some(said) => {
            counters.note(name, said)?;
            Ok(true)
        }
        None => Ok(false),
    }
}

// Whether a part fits in the field, behind these counters.
#[cycle(fit)]
fn part_fits<'a, 'b>(
    alloc: Global,
    classes: &Classes,
    field: &Field<'b>,
    part: &'a Part,
    counters: &mut Counters<'b>,
    owners: &mut Owners<'a>,
) -> Result<bool, NoMemory>
    ensures { Tells result
        (part_fits field.now (part_fitting classes.now part.now) counters.old owners.old)
        (owners.new, counters.new) }
{
    if part.name.as_slice() != field.name {
        return Ok(false);
    }
    let slot = &field.slot;
    match slot.0 {
        SlotKind::Counter => counter_fits(field.name, &part.value, counters),
        _ => {
            let slot = counted_slot(counters, slot);
            value_fits(alloc, classes, &part.value, &slot, owners)
        }
    }
}

// Whether each part fits in the field of its number, and no more are there.
#[cycle(fit)]
fn parts_fit<'a>(
    alloc: Global,
    classes: &Classes,
    fields: &Fields,
    parts: &'a [Part],
    owners: &mut Owners<'a>,
) -> Result<bool, NoMemory>
    ensures { Tells result
        (fields_fit fields.now (map (part_fitting classes.now) parts.now) [] owners.old)
        owners.new }
{
    let mut counters = Counters::new(alloc);
    for (k, part) in parts.iter().enumerate() {
        let Some(field) = fields.get(k) else {
            return Ok(false);
        };
        if !part_fits(alloc, classes, &field, part, &mut counters, owners)? {
            return Ok(false);
        }
    }
    Ok(fields.get(parts.len()).is_none())
}

#[cycle(fit)]
fn object_fits<'a>(
    alloc: Global,
    classes: &Classes,
    class: &[u8],
    version: i32,
    parts: &'a [Part],
    owners: &mut Owners<'a>,
) -> Result<bool, NoMemory>
    ensures { Tells result
        (parts_fit (fields_of classes.now class.now version)
        (map (part_fitting classes.now) parts.now) owners.old) owners.new }
{
    match fields_of(classes, class, version) {
        Some(fields) => parts_fit(alloc, classes, &fields, parts, owners),
        None => Ok(false),
    }
}

// Whether each item fits in the slot.
#[cycle(fit)]
fn all_fit<'a>(
    alloc: Global,
    classes: &Classes,
    items: &'a [Value],
    slot: &Slot,
    owners: &mut Owners<'a>,
) -> Result<bool, NoMemory>
    ensures { Tells result (all_fit slot.now (map (fitting_of classes.now) items.now) owners.old)
        owners.new }
{
    for item in items {
        if !value_fits(alloc, classes, item, slot, owners)? {
            return Ok(false);
        }
    }
    Ok(true)
}

// Whether the items are a pointer to an object that can be put, and a text.
#[cycle(fit)]
fn link_fits<'a>(
    alloc: Global,
    classes: &Classes,
    items: &'a [Value],
    owners: &mut Owners<'a>,
) -> Result<bool, NoMemory>
    ensures { Tells result
        (link_fits (map (fitting_of classes.now) items.now) owners.old)
        owners.new }
{
    match items {
        [pointer, text] => {
            if !value_fits(alloc, classes, pointer, &Slot(SlotKind::AnyPointer), owners)? {
                return Ok(false);
            }
            value_fits(alloc, classes, text, &Slot(SlotKind::Text), owners)
        }
        _ => Ok(false),
    }
}

#[cycle(fit)]
fn list_fits<'a>(
    alloc: Global,
    classes: &Classes,
    items: &'a [Value],
    slot: &Slot,
    owners: &mut Owners<'a>,
) -> Result<bool, NoMemory>
    ensures { Tells result (list_fits (map (fitting_of classes.now) items.now) slot.now owners.old)
        owners.new }
{
    match slot.0 {
        SlotKind::Fixed(of, count) => {
            if items.len() != count as usize {
                return Ok(false);
            }
            all_fit(alloc, classes, items, &Slot(SlotKind::Plain(of)), owners)
        }
        SlotKind::Link => link_fits(alloc, classes, items, owners),
        SlotKind::Numbers(of) => all_fit(alloc, classes, items, &Slot(SlotKind::Plain(of)), owners),
        SlotKind::Pointers => all_fit(alloc, classes, items, &Slot(SlotKind::AnyPointer), owners),
        SlotKind::Links => all_fit(alloc, classes, items, &Slot(SlotKind::Link), owners),
        _ => Ok(false),
    }
}

// Whether the object may have this label, and fits its own class.
#[cycle(fit)]
fn pointed_fits<'a>(
    alloc: Global,
    classes: &Classes,
    label: u32,
    object: &'a Value,
    slot: &Slot,
    owners: &mut Owners<'a>,
) -> Result<bool, NoMemory>
    ensures { let f = fitting_of classes.now object.now in
        Tells result (pointed_fits classes.now label f f.class slot.now owners.old) owners.new }
{
    match owner_of(object) {
        Some(owner) => labelled_fits(alloc, classes, label, owner, object, slot, owners),
        None => Ok(false),
    }
}

// The same for an object of this class and version.
#[cycle(fit)]
fn labelled_fits<'a>(
    alloc: Global,
    classes: &Classes,
    label: u32,
    owner: Owner<'a>,
    object: &'a Value,
    slot: &Slot,
    owners: &mut Owners<'a>,
) -> Result<bool, NoMemory>
    ensures { let f = fitting_of classes.now object.now in
        Tells result
        (pointed_fits classes.now label f (Some owner.entry) slot.now owners.old)
        owners.new }
{
    if label as usize != owners.len() {
        return Ok(false);
    }
    if !may_point(alloc, classes, &owner, slot)? {
        return Ok(false);
    }
    let slot = Slot(SlotKind::Inline(owner.class));
    owners.push(owner)?;
    value_fits(alloc, classes, object, &slot, owners)
}

fn back_fits(
    alloc: Global,
    classes: &Classes,
    label: u32,
    slot: &Slot,
    owners: &Owners,
) -> Result<bool, NoMemory>
    ensures { IfOk result (λ b. b ≡ back_fits classes.now (slice_get owners.now label) slot.now) }
{
    match owners.get(label as usize) {
        Some(owner) => may_point(alloc, classes, owner, slot),
        None => Ok(false),
    }
}

#[cycle(fit)]
fn value_fits<'a>(
    alloc: Global,
    classes: &Classes,
    value: &'a Value,
    slot: &Slot,
    owners: &mut Owners<'a>,
) -> Result<bool, NoMemory>
    ensures { Tells result
        ((fitting_of classes.now value.now).fits slot.now owners.old)
        owners.new }
{
    match value {
        Value::Int(n) => Ok(int_fits(*n, slot)),
        Value::Bits32(bits) => Ok(bits32_fits(*bits, slot)),
        Value::Bits64(bits) => Ok(bits64_fits(*bits, slot)),
        Value::Bool(_) => Ok(truth_fits(slot)),
        Value::Text(_) => Ok(text_fits(slot)),
        Value::List(items) => list_fits(alloc, classes, items.as_slice(), slot, owners),
        Value::Object {
            class,
            version,
            parts,
        } => {
            let (class, parts) = (class.as_slice(), parts.as_slice());
            if !object_may_stand(class, *version, slot) {
                return Ok(false);
            }
            object_fits(alloc, classes, class, *version, parts, owners)
        }
        Value::Pointed { label, object } => {
            pointed_fits(alloc, classes, *label, object.get(), slot, owners)
        }
        Value::Null => Ok(is_pointer(slot)),
        Value::Back(label) => back_fits(alloc, classes, *label, slot, owners),
        Value::Opaque { .. } => Ok(false),
    }
}

/// Whether the value is an object of the class that fits it.
pub fn fits(alloc: Global, classes: &Classes, class: &[u8], value: &Value) -> Result<bool, NoMemory>
    ensures { IfOk result (λ b. b ≡ fits classes.now class.now value.now) }
{
    let mut owners = Owners::new(alloc);
    value_fits(
        alloc,
        classes,
        value,
        &Slot(SlotKind::Inline(class)),
        &mut owners,
    )
}
