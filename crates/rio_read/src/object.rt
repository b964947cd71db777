//! Objects of the classes that a file describes. A call reads an object with at most `levels` levels of
//! objects inside.
ghost use Rattle.std.specs.Prelude.{◌≡◌, [], IfErr, IfOk};
ghost use Rattle.rio_num.specs.At.{AreBytes, GoesOn};
ghost use Rattle.rio_format.specs.{Bodies.{form_of, body_of, counters_with}, Frames.{ReadsAs}};
ghost use Rattle.rio_format.specs.{Objects.{array_parts, base_part, body, formed, headed, kind_value, link, list_parts, member_part, member_parts, object_of, parts, pointer}, Reader.{IsCounted}, declared.value.Value.{Pointed}};
ghost use Rattle.rio_num.specs.Layout.{each, times};
ghost use Rattle.rio_num.specs.Meanings.{read};
ghost use Rattle.rio_read.specs.Lists.{with_front};
ghost use Rattle.rio_read.specs.Members.{link_behind};

use crate::bare::{read_array, read_bare, read_base};
use crate::builtin::{array_parts, list_parts, read_named_parts, read_obj_string_parts};
use crate::member::{link, read_counter};
use crate::numbers::{read_count, read_counted, read_name, read_number, read_numbers, read_text};
use crate::whole::{read_opaque, whole, whole_described};
use rio_format::{
    Base, BodyKind, ClassDef, Classes, Counters, Form, Header, Kind, Member, ObjFault, ObjReader,
    Part, Parts, PointerWord, Prim, Value, Values, body_of, form_of, part_with,
};
use rio_num::Boxed;
use std::alloc::Global;

/// An object of the class.
#[cycle(object)]
#[tactic(auto, unfolding(rio_format::specs::Objects::object_of))]
pub(crate) fn read_object(
    alloc: Global,
    classes: &Classes,
    reader: &mut ObjReader,
    class: &[u8],
    levels: u32,
) -> Result<Value, ObjFault>
    ensures exact { ReadsAs (λ x. x) result
        (read (object_of levels classes.now class.now) reader.old) reader.new }
    ensures bytes { AreBytes reader.old.at.rest }
    ensures goes { GoesOn reader.old.at reader.new.at }
{
    let place = reader.place();
    if levels == 0 {
        return Err(ObjFault::TooDeep { place });
    }
    read_formed(alloc, classes, reader, class, levels - 1)
}

#[cycle(object)]
#[tactic(auto, unfolding(rio_format::specs::Objects::formed))]
fn read_formed(
    alloc: Global,
    classes: &Classes,
    reader: &mut ObjReader,
    class: &[u8],
    levels: u32,
) -> Result<Value, ObjFault>
    ensures exact { ReadsAs (λ x. x) result
        (read (formed (object_of levels classes.now) classes.now class.now (form_of class.now)) reader.old) reader.new }
    ensures goes { GoesOn reader.old.at reader.new.at }
{
    match form_of(class) {
        Form::Bare => read_bare(alloc, reader),
        Form::Numbers(of) => read_array(alloc, reader, class, of),
        Form::Headed => read_headed(alloc, classes, reader, class, levels),
    }
}

#[cycle(object)]
#[tactic(auto, unfolding(rio_format::specs::Objects::headed))]
fn read_headed(
    alloc: Global,
    classes: &Classes,
    reader: &mut ObjReader,
    class: &[u8],
    levels: u32,
) -> Result<Value, ObjFault>
    ensures exact { ReadsAs (λ x. x) result
        (read (headed (object_of levels classes.now) classes.now class.now) reader.old) reader.new }
    ensures goes { GoesOn reader.old.at reader.new.at }
{
    let header = reader.header()?;
    read_body(alloc, classes, reader, class, header, levels)
}

#[cycle(object)]
#[tactic(auto, unfolding(rio_format::specs::Objects::body, rio_format::specs::Objects::whole_object))]
fn read_body(
    alloc: Global,
    classes: &Classes,
    reader: &mut ObjReader,
    class: &[u8],
    header: Header,
    levels: u32,
) -> Result<Value, ObjFault>
    requires { IsCounted header.place header.end reader.old }
    ensures exact { ReadsAs (λ x. x) result
        (read (body (object_of levels classes.now) class.now header
        (body_of classes.now class.now header.version header.sum)) reader.old) reader.new }
    ensures goes { GoesOn reader.old.at reader.new.at }
{
    let body = body_of(classes, class, &header);
    match body.0 {
        BodyKind::Described(described) => {
            let parts = read_parts(alloc, classes, reader, described, levels)?;
            whole_described(alloc, reader, class, described, header, parts)
        }
        BodyKind::Named => {
            let parts = read_named_parts(alloc, classes, reader, levels)?;
            whole(alloc, reader, class, 1, header, parts)
        }
        BodyKind::ObjString => {
            let parts = read_obj_string_parts(alloc, classes, reader, levels)?;
            whole(alloc, reader, class, 1, header, parts)
        }
        BodyKind::Listed => {
            let parts = read_list_parts(alloc, classes, reader, levels)?;
            whole(alloc, reader, class, 5, header, parts)
        }
        BodyKind::Arrayed => {
            let parts = read_array_parts(alloc, classes, reader, levels)?;
            whole(alloc, reader, class, 3, header, parts)
        }
        BodyKind::Opaque => read_opaque(alloc, reader, class, header),
    }
}

// The bases and then the members of a class.
#[cycle(object)]
#[tactic(auto, unfolding(rio_format::specs::Objects::parts))]
fn read_parts(
    alloc: Global,
    classes: &Classes,
    reader: &mut ObjReader,
    described: &ClassDef,
    levels: u32,
) -> Result<Parts, ObjFault>
    ensures exact { ReadsAs (λ x. x) result
        (read (parts (object_of levels classes.now) described.now) reader.old) reader.new }
    ensures goes { GoesOn reader.old.at reader.new.at }
{
    let bases = described.bases.as_slice();
    let parts = read_bases(alloc, classes, reader, bases, levels)?;
    let members = described.members.as_slice();
    read_members(alloc, classes, reader, parts, members, levels)
}

#[cycle(object)]
fn read_bases(
    alloc: Global,
    classes: &Classes,
    reader: &mut ObjReader,
    bases: &[Base],
    levels: u32,
) -> Result<Parts, ObjFault>
    ensures exact { ReadsAs (λ x. x) result
        (read (each (base_part (object_of levels classes.now)) bases.now) reader.old) reader.new }
    ensures goes { GoesOn reader.old.at reader.new.at }
{
    let mut parts = Parts::new(alloc);
    for base in bases {
        parts.push(read_base_part(alloc, classes, reader, base, levels)?)?;
    }
    Ok(parts)
}

#[cycle(object)]
#[tactic(auto, unfolding(rio_format::specs::Objects::base_part))]
fn read_base_part(
    alloc: Global,
    classes: &Classes,
    reader: &mut ObjReader,
    base: &Base,
    levels: u32,
) -> Result<Part, ObjFault>
    ensures exact { ReadsAs (λ x. x) result
        (read (base_part (object_of levels classes.now) base.now) reader.old) reader.new }
    ensures goes { GoesOn reader.old.at reader.new.at }
{
    let value = read_object(alloc, classes, reader, base.name.as_slice(), levels)?;
    Ok(part_with(alloc, b"", value)?)
}

// The members, behind the parts that are given.
#[cycle(object)]
fn read_members(
    alloc: Global,
    classes: &Classes,
    reader: &mut ObjReader,
    mut parts: Parts,
    members: &[Member],
    levels: u32,
) -> Result<Parts, ObjFault>
    ensures exact { ReadsAs (λ x. x) result
        (with_front parts
        (read (member_parts (object_of levels classes.now) [] members.now) reader.old)) reader.new }
    ensures goes { GoesOn reader.old.at reader.new.at }
{
    let mut counters = Counters::new(alloc);
    for member in members {
        parts.push(read_member(alloc, classes, reader, member, &mut counters, levels)?)?;
    }
    Ok(parts)
}

#[cycle(object)]
#[tactic(auto, unfolding(rio_format::specs::Objects::member_part))]
fn read_member<'a>(
    alloc: Global,
    classes: &Classes,
    reader: &mut ObjReader,
    member: &'a Member,
    counters: &mut Counters<'a>,
    levels: u32,
) -> Result<Part, ObjFault>
    ensures exact { ReadsAs (λ x. x) result
        (read (member_part (object_of levels classes.now) counters.old member.now) reader.old)
        reader.new }
    ensures counters { IfOk result (λ p. counters.new
        ≡ counters_with member.now p.value counters.old) }
    ensures goes { GoesOn reader.old.at reader.new.at }
{
    match &member.kind {
        Kind::Counter => read_counter(reader, &member.name, counters),
        kind => {
            let value = read_kind(alloc, classes, reader, kind, counters, levels)?;
            Ok(part_with(alloc, member.name.as_slice(), value)?)
        }
    }
}

// A value of the kind, behind these counters.
#[cycle(object)]
#[tactic(auto, unfolding(rio_format::specs::Objects::kind_value))]
fn read_kind(
    alloc: Global,
    classes: &Classes,
    reader: &mut ObjReader,
    kind: &Kind,
    counters: &Counters,
    levels: u32,
) -> Result<Value, ObjFault>
    ensures exact { ReadsAs (λ x. x) result
        (read (kind_value (object_of levels classes.now) counters.now kind.now) reader.old) reader.new }
    ensures goes { GoesOn reader.old.at reader.new.at }
{
    match kind {
        Kind::Plain { of } => read_number(reader, *of),
        Kind::Counter => read_number(reader, Prim::I32),
        Kind::Fixed { of, count } => read_numbers(alloc, reader, *of, *count),
        Kind::Counted { of, counter } => {
            read_counted(alloc, reader, *of, counters.count_by(counter.as_slice()))
        }
        Kind::Text => read_text(alloc, reader),
        Kind::Inline { class } => read_object(alloc, classes, reader, class.as_slice(), levels),
        Kind::Pointer { .. } => read_pointer(alloc, classes, reader, levels),
        Kind::Other { .. } => Err(ObjFault::NoCount {
            place: reader.place(),
        }),
    }
}

// A pointer to the object of this label, which begins here. It is made in a call of its own, so that those which go as deep as
// an object keep little.
fn pointed(alloc: Global, label: u32, object: Value) -> Result<Value, ObjFault>
    ensures ok { IfOk result (λ v. v ≡ Pointed label object) }
    ensures err { IfErr result (λ e. e ≡ ObjFault.NoMemory) }
{
    Ok(Value::Pointed {
        label,
        object: Boxed::new(alloc, object)?,
    })
}

#[cycle(object)]
#[tactic(auto, unfolding(rio_format::specs::Objects::pointer, rio_format::specs::Objects::pointed))]
fn read_pointer(
    alloc: Global,
    classes: &Classes,
    reader: &mut ObjReader,
    levels: u32,
) -> Result<Value, ObjFault>
    ensures exact { ReadsAs (λ x. x) result
        (read (pointer (object_of levels classes.now)) reader.old) reader.new }
    ensures goes { GoesOn reader.old.at reader.new.at }
{
    match reader.pointer()? {
        PointerWord::Null => Ok(Value::Null),
        PointerWord::Back { label } => Ok(Value::Back(label)),
        PointerWord::New {
            label,
            place,
            end,
            class,
        } => {
            let object = read_object(alloc, classes, reader, class.as_slice(), levels)?;
            reader.finish(place, end)?;
            pointed(alloc, label, object)
        }
    }
}

// The parts of a TList.
#[cycle(object)]
#[tactic(auto, unfolding(rio_format::specs::Objects::list_parts))]
fn read_list_parts(
    alloc: Global,
    classes: &Classes,
    reader: &mut ObjReader,
    levels: u32,
) -> Result<Parts, ObjFault>
    ensures exact { ReadsAs (λ x. x) result
        (read (list_parts (object_of levels classes.now)) reader.old) reader.new }
    ensures goes { GoesOn reader.old.at reader.new.at }
{
    let base = read_base(alloc, classes, reader, levels)?;
    let name = read_name(alloc, reader)?;
    let count = read_count(reader, 4)?;
    let items = read_links(alloc, classes, reader, count, levels)?;
    Ok(list_parts(alloc, base, name, items)?)
}

#[cycle(object)]
fn read_links(
    alloc: Global,
    classes: &Classes,
    reader: &mut ObjReader,
    count: u32,
    levels: u32,
) -> Result<Values, ObjFault>
    ensures exact { ReadsAs (λ x. x) result
        (read (times count (link (object_of levels classes.now))) reader.old) reader.new }
    ensures goes { GoesOn reader.old.at reader.new.at }
{
    let mut links = Values::new(alloc);
    for _done in 0..count {
        links.push(read_link(alloc, classes, reader, levels)?)?;
    }
    Ok(links)
}

// An item of a TList, behind its pointer.
fn read_option(alloc: Global, reader: &mut ObjReader, pointer: Value) -> Result<Value, ObjFault>
    ensures exact { ReadsAs (λ x. x) result (read (link_behind pointer) reader.old) reader.new }
    ensures goes { GoesOn reader.old.at reader.new.at }
{
    let option = read_name(alloc, reader)?;
    Ok(link(alloc, pointer, option)?)
}

// An item of a TList.
#[cycle(object)]
#[tactic(auto, unfolding(rio_format::specs::Objects::link))]
fn read_link(
    alloc: Global,
    classes: &Classes,
    reader: &mut ObjReader,
    levels: u32,
) -> Result<Value, ObjFault>
    ensures exact { ReadsAs (λ x. x) result (read (link (object_of levels classes.now)) reader.old)
        reader.new }
    ensures goes { GoesOn reader.old.at reader.new.at }
{
    let pointer = read_pointer(alloc, classes, reader, levels)?;
    read_option(alloc, reader, pointer)
}

// The parts of a TObjArray.
#[cycle(object)]
#[tactic(auto, unfolding(rio_format::specs::Objects::array_parts))]
fn read_array_parts(
    alloc: Global,
    classes: &Classes,
    reader: &mut ObjReader,
    levels: u32,
) -> Result<Parts, ObjFault>
    ensures exact { ReadsAs (λ x. x) result
        (read (array_parts (object_of levels classes.now)) reader.old) reader.new }
    ensures goes { GoesOn reader.old.at reader.new.at }
{
    let base = read_base(alloc, classes, reader, levels)?;
    let name = read_name(alloc, reader)?;
    let count = read_count(reader, 4)?;
    let lower = read_number(reader, Prim::I32)?;
    let items = read_pointers(alloc, classes, reader, count, levels)?;
    Ok(array_parts(alloc, base, name, lower, items)?)
}

#[cycle(object)]
fn read_pointers(
    alloc: Global,
    classes: &Classes,
    reader: &mut ObjReader,
    count: u32,
    levels: u32,
) -> Result<Values, ObjFault>
    ensures exact { ReadsAs (λ x. x) result
        (read (times count (pointer (object_of levels classes.now))) reader.old) reader.new }
    ensures goes { GoesOn reader.old.at reader.new.at }
{
    let mut pointers = Values::new(alloc);
    for _done in 0..count {
        pointers.push(read_pointer(alloc, classes, reader, levels)?)?;
    }
    Ok(pointers)
}
