//! The walk over a value: what is written for it goes into a sink.
ghost use Rattle.std.specs.Prelude.{◌≡◌, List, map};
ghost use Rattle.rio_format.specs.{declared.class.ClassDef.{ClassDef as Class}, Bodies.{form_of}, Slots.{body_fields, declared_body}};
ghost use Rattle.rio_format.specs.Written.{all, number_array_bytes, arrayed_bytes, bare_bytes, body_bytes, counted_bytes, described_bytes, fields_bytes, form_bytes, headed_bytes, link_bytes, list_bytes, listed_bytes, pointed_bytes, writing_of};
ghost use Rattle.rio_write.specs.Sinks.{Accepts, RoomFor};
ghost use Rattle.rio_write.specs.Writing.{part_writing};

use crate::numbers::{bits_16, write_bool, write_count, write_int};
use crate::sink::Sink;
use rio_format::{
    Body, BodyKind, Classes, Fields, Form, Part, Prim, Slot, SlotKind, Value, body_fields,
    declared_body, form_of,
};
use rio_num::{Names, NoMemory};
use std::alloc::Global;

/// The class of an object, and no bytes for another value.
pub(crate) fn class_of<'a>(value: &'a Value) -> &'a [u8]
    ensures { (classes : List Class) → result.now ≡ (writing_of classes value.now).class }
{
    match value {
        Value::Object { class, .. } => class.as_slice(),
        _ => b"",
    }
}

// How many items a list has, and 0 for another value.
fn count_of(value: &Value) -> usize
    ensures { (classes : List Class) → result ≡ (writing_of classes value.now).count }
{
    match value {
        Value::List(items) => items.len(),
        _ => 0,
    }
}

// The items, one behind the other.
#[cycle(write)]
fn write_all<'a, S: Sink>(
    alloc: Global,
    classes: &Classes,
    sink: &mut S,
    names: &mut Names<'a>,
    items: &'a [Value],
    slot: &Slot,
) -> Result<(), NoMemory>
    requires { RoomFor S.stands S.bounded (all slot.now (map (writing_of classes.now) items.now))
        (sink.old, names.old) }
    ensures { Accepts S.stands (all slot.now (map (writing_of classes.now) items.now)) result
        (sink.old, names.old) (sink.new, names.new) }
{
    for item in items {
        write_value(alloc, classes, sink, names, item, slot)?;
    }
    Ok(())
}

// The byte 0 for nothing, or the byte 1 and the items.
#[cycle(write)]
fn write_counted<'a, S: Sink>(
    alloc: Global,
    classes: &Classes,
    sink: &mut S,
    names: &mut Names<'a>,
    items: &'a [Value],
    of: Prim,
) -> Result<(), NoMemory>
    requires { RoomFor S.stands S.bounded (counted_bytes of (map (writing_of classes.now)
        items.now)) (sink.old, names.old) }
    ensures { Accepts S.stands (counted_bytes of (map (writing_of classes.now) items.now)) result
        (sink.old, names.old) (sink.new, names.new) }
{
    if items.is_empty() {
        return write_bool(sink, false);
    }
    write_bool(sink, true)?;
    let number = Slot(SlotKind::Plain(of));
    write_all(alloc, classes, sink, names, items, &number)
}

// A pointer and a text.
#[cycle(write)]
fn write_link<'a, S: Sink>(
    alloc: Global,
    classes: &Classes,
    sink: &mut S,
    names: &mut Names<'a>,
    items: &'a [Value],
) -> Result<(), NoMemory>
    requires { RoomFor S.stands S.bounded (link_bytes (map (writing_of classes.now) items.now))
        (sink.old, names.old) }
    ensures { Accepts S.stands (link_bytes (map (writing_of classes.now) items.now)) result
        (sink.old, names.old) (sink.new, names.new) }
{
    match items {
        [pointer, text] => {
            let (any, words) = (Slot(SlotKind::AnyPointer), Slot(SlotKind::Text));
            write_value(alloc, classes, sink, names, pointer, &any)?;
            write_value(alloc, classes, sink, names, text, &words)
        }
        _ => Ok(()),
    }
}

#[cycle(write)]
#[tactic(auto, using(crate::proofs::SinkLaws::nothing_accepted))]
fn write_list<'a, S: Sink>(
    alloc: Global,
    classes: &Classes,
    sink: &mut S,
    names: &mut Names<'a>,
    items: &'a [Value],
    slot: &Slot,
) -> Result<(), NoMemory>
    requires { RoomFor S.stands S.bounded (list_bytes (map (writing_of classes.now) items.now)
        slot.now) (sink.old, names.old) }
    ensures { Accepts S.stands (list_bytes (map (writing_of classes.now) items.now) slot.now) result
        (sink.old, names.old) (sink.new, names.new) }
{
    match slot.0 {
        SlotKind::Fixed(of, _) | SlotKind::Numbers(of) => {
            let number = Slot(SlotKind::Plain(of));
            write_all(alloc, classes, sink, names, items, &number)
        }
        SlotKind::Counted(of, _) => write_counted(alloc, classes, sink, names, items, of),
        SlotKind::Link => write_link(alloc, classes, sink, names, items),
        SlotKind::Pointers => {
            let pointer = Slot(SlotKind::AnyPointer);
            write_all(alloc, classes, sink, names, items, &pointer)
        }
        SlotKind::Links => write_all(alloc, classes, sink, names, items, &Slot(SlotKind::Link)),
        _ => Ok(()),
    }
}

// A pointer to an object that is written there.
#[cycle(write)]
fn write_pointed<'a, S: Sink>(
    alloc: Global,
    classes: &Classes,
    sink: &mut S,
    names: &mut Names<'a>,
    object: &'a Value,
) -> Result<(), NoMemory>
    requires { RoomFor S.stands S.bounded (pointed_bytes (writing_of classes.now object.now))
        (sink.old, names.old) }
    ensures { Accepts S.stands (pointed_bytes (writing_of classes.now object.now)) result
        (sink.old, names.old) (sink.new, names.new) }
{
    let class = class_of(object);
    let begun = sink.take_pointer(names, class)?;
    let place = Slot(SlotKind::Inline(class));
    write_value(alloc, classes, sink, names, object, &place)?;
    sink.close(begun);
    Ok(())
}

// The parts, each in the field of its number.
#[cycle(write)]
fn write_fields<'a, S: Sink>(
    alloc: Global,
    classes: &Classes,
    sink: &mut S,
    names: &mut Names<'a>,
    fields: &Fields,
    parts: &'a [Part],
) -> Result<(), NoMemory>
    requires { RoomFor S.stands S.bounded (fields_bytes fields.now (map (part_writing classes.now)
        parts.now)) (sink.old, names.old) }
    ensures { Accepts S.stands (fields_bytes fields.now (map (part_writing classes.now) parts.now))
        result (sink.old, names.old) (sink.new, names.new) }
{
    for (k, part) in parts.iter().enumerate() {
        let Some(field) = fields.get(k) else {
            return Ok(());
        };
        write_value(alloc, classes, sink, names, &part.value, &field.slot)?;
    }
    Ok(())
}

// The parts of a TObject, with fPid where it is one of them.
#[cycle(write)]
fn write_bare<'a, S: Sink>(
    alloc: Global,
    classes: &Classes,
    sink: &mut S,
    names: &mut Names<'a>,
    parts: &'a [Part],
) -> Result<(), NoMemory>
    requires { RoomFor S.stands S.bounded (bare_bytes (map (part_writing classes.now) parts.now))
        (sink.old, names.old) }
    ensures { Accepts S.stands (bare_bytes (map (part_writing classes.now) parts.now)) result
        (sink.old, names.old) (sink.new, names.new) }
{
    let (number, flags) = (Slot(SlotKind::Plain(Prim::U32)), Slot(SlotKind::Flags));
    match parts {
        [id, bits] => {
            sink.take_u16(1)?;
            write_value(alloc, classes, sink, names, &id.value, &number)?;
            write_value(alloc, classes, sink, names, &bits.value, &flags)
        }
        [id, bits, pid] => {
            let process = Slot(SlotKind::Plain(Prim::U16));
            sink.take_u16(1)?;
            write_value(alloc, classes, sink, names, &id.value, &number)?;
            write_value(alloc, classes, sink, names, &bits.value, &flags)?;
            write_value(alloc, classes, sink, names, &pid.value, &process)
        }
        _ => Ok(()),
    }
}

// The parts of a TArray.
#[cycle(write)]
fn write_array<'a, S: Sink>(
    alloc: Global,
    classes: &Classes,
    sink: &mut S,
    names: &mut Names<'a>,
    of: Prim,
    parts: &'a [Part],
) -> Result<(), NoMemory>
    requires { RoomFor S.stands S.bounded (number_array_bytes of (map (part_writing classes.now)
        parts.now)) (sink.old, names.old) }
    ensures { Accepts S.stands (number_array_bytes of (map (part_writing classes.now) parts.now))
        result (sink.old, names.old) (sink.new, names.new) }
{
    match parts {
        [items] => {
            let numbers = Slot(SlotKind::Numbers(of));
            write_count(sink, count_of(&items.value))?;
            write_value(alloc, classes, sink, names, &items.value, &numbers)
        }
        _ => Ok(()),
    }
}

// The parts of a TList.
#[cycle(write)]
fn write_listed<'a, S: Sink>(
    alloc: Global,
    classes: &Classes,
    sink: &mut S,
    names: &mut Names<'a>,
    parts: &'a [Part],
) -> Result<(), NoMemory>
    requires { RoomFor S.stands S.bounded (listed_bytes (map (part_writing classes.now) parts.now))
        (sink.old, names.old) }
    ensures { Accepts S.stands (listed_bytes (map (part_writing classes.now) parts.now)) result
        (sink.old, names.old) (sink.new, names.new) }
{
    match parts {
        [base, name, items] => {
            let (object, text) = (Slot(SlotKind::Based(b"TObject", 1)), Slot(SlotKind::Text));
            write_value(alloc, classes, sink, names, &base.value, &object)?;
            write_value(alloc, classes, sink, names, &name.value, &text)?;
            write_count(sink, count_of(&items.value))?;
            let links = Slot(SlotKind::Links);
            write_value(alloc, classes, sink, names, &items.value, &links)
        }
        _ => Ok(()),
    }
}

// The parts of a TObjArray.
#[cycle(write)]
fn write_arrayed<'a, S: Sink>(
    alloc: Global,
    classes: &Classes,
    sink: &mut S,
    names: &mut Names<'a>,
    parts: &'a [Part],
) -> Result<(), NoMemory>
    requires { RoomFor S.stands S.bounded (arrayed_bytes (map (part_writing classes.now) parts.now))
        (sink.old, names.old) }
    ensures { Accepts S.stands (arrayed_bytes (map (part_writing classes.now) parts.now)) result
        (sink.old, names.old) (sink.new, names.new) }
{
    match parts {
        [base, name, lower, items] => {
            let (object, text) = (Slot(SlotKind::Based(b"TObject", 1)), Slot(SlotKind::Text));
            write_value(alloc, classes, sink, names, &base.value, &object)?;
            write_value(alloc, classes, sink, names, &name.value, &text)?;
            write_count(sink, count_of(&items.value))?;
            let (number, pointers) = (Slot(SlotKind::Plain(Prim::I32)), Slot(SlotKind::Pointers));
            write_value(alloc, classes, sink, names, &lower.value, &number)?;
            write_value(alloc, classes, sink, names, &items.value, &pointers)
        }
        _ => Ok(()),
    }
}

// The parts of an object that has this body, which are those of a described class.
#[cycle(write)]
#[tactic(auto, using(crate::proofs::SinkLaws::nothing_accepted))]
fn write_described<'a, S: Sink>(
    alloc: Global,
    classes: &Classes,
    sink: &mut S,
    names: &mut Names<'a>,
    body: &Body,
    parts: &'a [Part],
) -> Result<(), NoMemory>
    requires { RoomFor S.stands S.bounded (described_bytes (body_fields (Some body.now)) (map
        (part_writing classes.now) parts.now)) (sink.old, names.old) }
    ensures { Accepts S.stands (described_bytes (body_fields (Some body.now)) (map (part_writing
        classes.now) parts.now)) result (sink.old, names.old) (sink.new, names.new) }
{
    match body_fields(body) {
        Some(fields) => write_fields(alloc, classes, sink, names, &fields, parts),
        None => Ok(()),
    }
}

// What stands behind the header of an object that has this body.
#[cycle(write)]
fn write_body<'a, S: Sink>(
    alloc: Global,
    classes: &Classes,
    sink: &mut S,
    names: &mut Names<'a>,
    body: &Body,
    parts: &'a [Part],
) -> Result<(), NoMemory>
    requires { RoomFor S.stands S.bounded (body_bytes (Some body.now) (map (part_writing
        classes.now) parts.now)) (sink.old, names.old) }
    ensures { Accepts S.stands (body_bytes (Some body.now) (map (part_writing classes.now)
        parts.now)) result (sink.old, names.old) (sink.new, names.new) }
{
    match body.0 {
        BodyKind::Listed => write_listed(alloc, classes, sink, names, parts),
        BodyKind::Arrayed => write_arrayed(alloc, classes, sink, names, parts),
        _ => write_described(alloc, classes, sink, names, body, parts),
    }
}

// What stands behind the header, where the class has a body in its version.
#[cycle(write)]
#[tactic(auto, using(crate::proofs::SinkLaws::nothing_accepted))]
fn write_declared<'a, S: Sink>(
    alloc: Global,
    classes: &Classes,
    sink: &mut S,
    names: &mut Names<'a>,
    class: &[u8],
    version: i32,
    parts: &'a [Part],
) -> Result<(), NoMemory>
    requires { RoomFor S.stands S.bounded (body_bytes (declared_body classes.now class.now version)
        (map (part_writing classes.now) parts.now)) (sink.old, names.old) }
    ensures { Accepts S.stands (body_bytes (declared_body classes.now class.now version) (map
        (part_writing classes.now) parts.now)) result (sink.old, names.old) (sink.new, names.new) }
{
    match declared_body(classes, class, version) {
        Some(body) => write_body(alloc, classes, sink, names, &body, parts),
        None => Ok(()),
    }
}

#[cycle(write)]
fn write_headed<'a, S: Sink>(
    alloc: Global,
    classes: &Classes,
    sink: &mut S,
    names: &mut Names<'a>,
    class: &[u8],
    version: i32,
    parts: &'a [Part],
) -> Result<(), NoMemory>
    requires { RoomFor S.stands S.bounded (headed_bytes version (body_bytes (declared_body
        classes.now class.now version) (map (part_writing classes.now) parts.now)))
        (sink.old, names.old) }
    ensures { Accepts S.stands (headed_bytes version (body_bytes (declared_body classes.now
        class.now version) (map (part_writing classes.now) parts.now))) result (sink.old, names.old)
        (sink.new, names.new) }
{
    let begun = sink.take_header(bits_16(i128::from(version)))?;
    write_declared(alloc, classes, sink, names, class, version, parts)?;
    sink.close(begun);
    Ok(())
}

// An object of these parts.
#[cycle(write)]
fn write_parts<'a, S: Sink>(
    alloc: Global,
    classes: &Classes,
    sink: &mut S,
    names: &mut Names<'a>,
    class: &[u8],
    version: i32,
    parts: &'a [Part],
) -> Result<(), NoMemory>
    requires { RoomFor S.stands S.bounded (form_bytes classes.now class.now version (form_of
        class.now) (map (part_writing classes.now) parts.now)) (sink.old, names.old) }
    ensures { Accepts S.stands (form_bytes classes.now class.now version (form_of class.now) (map
        (part_writing classes.now) parts.now)) result (sink.old, names.old) (sink.new, names.new) }
{
    match form_of(class) {
        Form::Bare => write_bare(alloc, classes, sink, names, parts),
        Form::Numbers(of) => write_array(alloc, classes, sink, names, of, parts),
        Form::Headed => write_headed(alloc, classes, sink, names, class, version, parts),
    }
}

/// A value, as it stands in the slot.
#[cycle(write)]
pub(crate) fn write_value<'a, S: Sink>(
    alloc: Global,
    classes: &Classes,
    sink: &mut S,
    names: &mut Names<'a>,
    value: &'a Value,
    slot: &Slot,
) -> Result<(), NoMemory>
    requires { RoomFor S.stands S.bounded ((writing_of classes.now value.now).bytes slot.now)
        (sink.old, names.old) }
    ensures { Accepts S.stands ((writing_of classes.now value.now).bytes slot.now) result
        (sink.old, names.old) (sink.new, names.new) }
{
    match value {
        Value::Int(n) => write_int(sink, *n, slot),
        Value::Bits32(bits) => sink.take_u32(*bits),
        Value::Bits64(bits) => sink.take_u64(*bits),
        Value::Bool(b) => write_bool(sink, *b),
        Value::Text(text) => sink.take_text(text.as_slice()),
        Value::List(items) => write_list(alloc, classes, sink, names, items.as_slice(), slot),
        Value::Object {
            class,
            version,
            parts,
        } => {
            let (class, parts) = (class.as_slice(), parts.as_slice());
            write_parts(alloc, classes, sink, names, class, *version, parts)
        }
        Value::Pointed { object, .. } => write_pointed(alloc, classes, sink, names, object.get()),
        Value::Null => sink.take_u32(0),
        Value::Back(label) => sink.take_back(*label),
        Value::Opaque { .. } => Ok(()),
    }
}
