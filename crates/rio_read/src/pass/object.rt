//! Objects of the classes that a file describes, passed over. A call passes over an object with at most `levels` levels
//! of objects inside.
ghost use Rattle.std.specs.Prelude.{[], pos};
ghost use Rattle.rio_num.specs.At.{GoesOn};
ghost use Rattle.rio_format.specs.{Frames.{ReadsAs}, Reader.{IsCounted}, Bodies.{body_of, form_of}};
ghost use Rattle.rio_format.specs.Objects.{array_parts, base_part, body, formed, headed, kind_value, link, list_parts, member_parts, object_of, parts, pointer, whole_object};
ghost use Rattle.rio_num.specs.Layout.{each, times};
ghost use Rattle.rio_num.specs.Meanings.{read};
ghost use Rattle.rio_read.specs.Passing.{counted_member, pass_of_new, pass_of};

use super::numbers::{pass_counted, pass_list, pass_number, pass_text};
use super::plain::{
    pass_array, pass_bare, pass_base, pass_counter, pass_named, pass_obj_string, pass_opaque,
};
use crate::numbers::read_count;
use rio_format::{
    Base, BodyKind, ClassDef, Classes, Counters, Form, Header, Kind, Member, ObjFault, ObjReader,
    PointerWord, Prim, body_of, form_of,
};
use std::alloc::Global;

/// Passes over an object of the class.
#[cycle(passing)]
#[tactic(auto, unfolding(rio_format::specs::Objects::object_of))]
pub(crate) fn pass_object(
    alloc: Global,
    classes: &Classes,
    reader: &mut ObjReader,
    class: &[u8],
    levels: u32,
) -> Result<(), ObjFault>
    ensures exact { ReadsAs (λ x. x) result
        (read (pass_of (object_of levels classes.now class.now)) reader.old) reader.new }
    ensures goes { GoesOn reader.old.at reader.new.at }
{
    if levels == 0 {
        return Err(ObjFault::TooDeep {
            place: reader.place(),
        });
    }
    pass_formed(alloc, classes, reader, class, levels - 1)
}

#[cycle(passing)]
#[tactic(auto, unfolding(rio_format::specs::Objects::formed))]
fn pass_formed(
    alloc: Global,
    classes: &Classes,
    reader: &mut ObjReader,
    class: &[u8],
    levels: u32,
) -> Result<(), ObjFault>
    ensures exact { ReadsAs (λ x. x) result
        (read (pass_of (formed (object_of levels classes.now) classes.now class.now
        (form_of class.now))) reader.old) reader.new }
    ensures goes { GoesOn reader.old.at reader.new.at }
{
    match form_of(class) {
        Form::Bare => pass_bare(reader),
        Form::Numbers(of) => pass_array(reader, class, of),
        Form::Headed => pass_headed(alloc, classes, reader, class, levels),
    }
}

#[cycle(passing)]
#[tactic(auto, unfolding(rio_format::specs::Objects::headed))]
fn pass_headed(
    alloc: Global,
    classes: &Classes,
    reader: &mut ObjReader,
    class: &[u8],
    levels: u32,
) -> Result<(), ObjFault>
    ensures exact { ReadsAs (λ x. x) result
        (read (pass_of (headed (object_of levels classes.now) classes.now class.now)) reader.old)
        reader.new }
    ensures goes { GoesOn reader.old.at reader.new.at }
{
    let header = reader.header()?;
    pass_body(alloc, classes, reader, class, header, levels)
}

#[cycle(passing)]
#[tactic(auto, using(crate::proofs::PassedParts::whole_passed), unfolding(rio_format::specs::Objects::body))]
fn pass_body(
    alloc: Global,
    classes: &Classes,
    reader: &mut ObjReader,
    class: &[u8],
    header: Header,
    levels: u32,
) -> Result<(), ObjFault>
    requires { IsCounted header.place header.end reader.old }
    ensures exact { ReadsAs (λ x. x) result
        (read (pass_of (body (object_of levels classes.now) class.now header
        (body_of classes.now class.now header.version header.sum))) reader.old) reader.new }
    ensures goes { GoesOn reader.old.at reader.new.at }
{
    let body = body_of(classes, class, &header);
    match body.0 {
        BodyKind::Described(described) => {
            pass_parts(alloc, classes, reader, described, levels)?;
            reader.finish(header.place, header.end)
        }
        BodyKind::Named => {
            pass_named(classes, reader, levels)?;
            reader.finish(header.place, header.end)
        }
        BodyKind::ObjString => {
            pass_obj_string(classes, reader, levels)?;
            reader.finish(header.place, header.end)
        }
        BodyKind::Listed => pass_listed(alloc, classes, reader, class, header, levels),
        BodyKind::Arrayed => {
            pass_array_parts(alloc, classes, reader, levels)?;
            reader.finish(header.place, header.end)
        }
        BodyKind::Opaque => pass_opaque(reader, class, header),
    }
}

// The bases and then the members of a class.
#[cycle(passing)]
#[tactic(auto, using(crate::proofs::PassedParts::parts_passed))]
fn pass_parts(
    alloc: Global,
    classes: &Classes,
    reader: &mut ObjReader,
    described: &ClassDef,
    levels: u32,
) -> Result<(), ObjFault>
    ensures exact { ReadsAs (λ x. x) result
        (read (pass_of (parts (object_of levels classes.now) described.now)) reader.old) reader.new }
    ensures goes { GoesOn reader.old.at reader.new.at }
{
    pass_bases(alloc, classes, reader, described.bases.as_slice(), levels)?;
    pass_members(alloc, classes, reader, described.members.as_slice(), levels)
}

#[cycle(passing)]
fn pass_bases(
    alloc: Global,
    classes: &Classes,
    reader: &mut ObjReader,
    bases: &[Base],
    levels: u32,
) -> Result<(), ObjFault>
    ensures exact { ReadsAs (λ x. x) result
        (read (pass_of (each (base_part (object_of levels classes.now)) bases.now)) reader.old)
        reader.new }
    ensures goes { GoesOn reader.old.at reader.new.at }
{
    for base in bases {
        pass_base_part(alloc, classes, reader, base, levels)?;
    }
    Ok(())
}

#[cycle(passing)]
#[tactic(auto, using(crate::proofs::PassedParts::base_passed))]
fn pass_base_part(
    alloc: Global,
    classes: &Classes,
    reader: &mut ObjReader,
    base: &Base,
    levels: u32,
) -> Result<(), ObjFault>
    ensures exact { ReadsAs (λ x. x) result
        (read (pass_of (base_part (object_of levels classes.now) base.now)) reader.old) reader.new }
    ensures goes { GoesOn reader.old.at reader.new.at }
{
    pass_object(alloc, classes, reader, base.name.as_slice(), levels)
}

#[cycle(passing)]
fn pass_members(
    alloc: Global,
    classes: &Classes,
    reader: &mut ObjReader,
    members: &[Member],
    levels: u32,
) -> Result<(), ObjFault>
    ensures exact { ReadsAs (λ x. x) result
        (read (pass_of (member_parts (object_of levels classes.now) [] members.now)) reader.old)
        reader.new }
    ensures goes { GoesOn reader.old.at reader.new.at }
{
    let mut counters = Counters::new(alloc);
    for member in members {
        pass_member(alloc, classes, reader, member, &mut counters, levels)?;
    }
    Ok(())
}

#[cycle(passing)]
#[tactic(auto, using(crate::proofs::PassedParts::counter_passed, crate::proofs::PassedParts::member_passed))]
fn pass_member<'a>(
    alloc: Global,
    classes: &Classes,
    reader: &mut ObjReader,
    member: &'a Member,
    counters: &mut Counters<'a>,
    levels: u32,
) -> Result<(), ObjFault>
    ensures exact { ReadsAs (λ _. counters.new) result
        (read (counted_member (object_of levels classes.now) counters.old member.now) reader.old)
        reader.new }
    ensures goes { GoesOn reader.old.at reader.new.at }
{
    match &member.kind {
        Kind::Counter => pass_counter(reader, &member.name, counters),
        kind => pass_kind(alloc, classes, reader, kind, counters, levels),
    }
}

// A value of the kind, behind these counters.
#[cycle(passing)]
#[tactic(auto, unfolding(rio_format::specs::Objects::kind_value))]
fn pass_kind(
    alloc: Global,
    classes: &Classes,
    reader: &mut ObjReader,
    kind: &Kind,
    counters: &Counters,
    levels: u32,
) -> Result<(), ObjFault>
    ensures exact { ReadsAs (λ x. x) result
        (read (pass_of (kind_value (object_of levels classes.now) counters.now kind.now)) reader.old)
        reader.new }
    ensures goes { GoesOn reader.old.at reader.new.at }
{
    match kind {
        Kind::Plain { of } => pass_number(reader, *of),
        Kind::Counter => pass_number(reader, Prim::I32),
        Kind::Fixed { of, count } => pass_list(reader, *of, *count),
        Kind::Counted { of, counter } => {
            pass_counted(reader, *of, counters.count_by(counter.as_slice()))
        }
        Kind::Text => pass_text(reader),
        Kind::Inline { class } => pass_object(alloc, classes, reader, class.as_slice(), levels),
        Kind::Pointer { .. } => pass_pointer(alloc, classes, reader, levels),
        Kind::Other { .. } => Err(ObjFault::NoCount {
            place: reader.place(),
        }),
    }
}

#[cycle(passing)]
#[tactic(auto, using(crate::proofs::PassedParts::pointer_passed, crate::proofs::PassedParts::pointed_passed), unfolding(rio_format::specs::Objects::pointed))]
fn pass_pointer(
    alloc: Global,
    classes: &Classes,
    reader: &mut ObjReader,
    levels: u32,
) -> Result<(), ObjFault>
    ensures exact { ReadsAs (λ x. x) result
        (read (pass_of (pointer (object_of levels classes.now))) reader.old) reader.new }
    ensures goes { GoesOn reader.old.at reader.new.at }
{
    match reader.pointer()? {
        PointerWord::Null | PointerWord::Back { .. } => Ok(()),
        PointerWord::New {
            place,
            end,
            class,
            ..
        } => { pass_new(alloc, classes, reader, place, end, class.as_slice(), levels) }
    }
}

// The object behind a pointer's word, which ends where its count says.
#[cycle(passing)]
#[tactic(auto, unfolding(crate::specs::Passing::pass_of_new))]
fn pass_new(
    alloc: Global,
    classes: &Classes,
    reader: &mut ObjReader,
    place: u64,
    end: u64,
    class: &[u8],
    levels: u32,
) -> Result<(), ObjFault>
    requires { IsCounted place end reader.old }
    ensures exact { ReadsAs (λ x. x) result
        (read (pass_of_new (object_of levels classes.now) place end class.now) reader.old) reader.new }
    ensures goes { GoesOn reader.old.at reader.new.at }
{
    pass_object(alloc, classes, reader, class, levels)?;
    reader.finish(place, end)
}

#[cycle(passing)]
#[tactic(auto, using(crate::proofs::PassedParts::whole_passed))]
fn pass_listed(
    alloc: Global,
    classes: &Classes,
    reader: &mut ObjReader,
    class: &[u8],
    header: Header,
    levels: u32,
) -> Result<(), ObjFault>
    requires { IsCounted header.place header.end reader.old }
    ensures exact { ReadsAs (λ x. x) result
        (read (pass_of (whole_object class.now (pos 5) header
        (list_parts (object_of levels classes.now)))) reader.old) reader.new }
    ensures goes { GoesOn reader.old.at reader.new.at }
{
    pass_list_parts(alloc, classes, reader, levels)?;
    reader.finish(header.place, header.end)
}

// The parts of a TList.
#[cycle(passing)]
#[tactic(auto, using(crate::proofs::PassedParts::list_passed))]
fn pass_list_parts(
    alloc: Global,
    classes: &Classes,
    reader: &mut ObjReader,
    levels: u32,
) -> Result<(), ObjFault>
    ensures exact { ReadsAs (λ x. x) result
        (read (pass_of (list_parts (object_of levels classes.now))) reader.old) reader.new }
    ensures goes { GoesOn reader.old.at reader.new.at }
{
    pass_base(classes, reader, levels)?;
    reader.take_text()?;
    let count = read_count(reader, 4)?;
    pass_links(alloc, classes, reader, count, levels)
}

#[cycle(passing)]
fn pass_links(
    alloc: Global,
    classes: &Classes,
    reader: &mut ObjReader,
    count: u32,
    levels: u32,
) -> Result<(), ObjFault>
    ensures exact { ReadsAs (λ x. x) result
        (read (pass_of (times count (link (object_of levels classes.now)))) reader.old) reader.new }
    ensures goes { GoesOn reader.old.at reader.new.at }
{
    for _done in 0..count {
        pass_link(alloc, classes, reader, levels)?;
    }
    Ok(())
}

// An item of a TList.
#[cycle(passing)]
#[tactic(auto, using(crate::proofs::PassedParts::link_passed))]
fn pass_link(
    alloc: Global,
    classes: &Classes,
    reader: &mut ObjReader,
    levels: u32,
) -> Result<(), ObjFault>
    ensures exact { ReadsAs (λ x. x) result
        (read (pass_of (link (object_of levels classes.now))) reader.old) reader.new }
    ensures goes { GoesOn reader.old.at reader.new.at }
{
    pass_pointer(alloc, classes, reader, levels)?;
    reader.take_text()?;
    Ok(())
}

// The parts of a TObjArray.
#[cycle(passing)]
#[tactic(auto, using(crate::proofs::PassedParts::array_passed), unfolding(rio_format::specs::Objects::number_value))]
fn pass_array_parts(
    alloc: Global,
    classes: &Classes,
    reader: &mut ObjReader,
    levels: u32,
) -> Result<(), ObjFault>
    ensures exact { ReadsAs (λ x. x) result
        (read (pass_of (array_parts (object_of levels classes.now))) reader.old) reader.new }
    ensures goes { GoesOn reader.old.at reader.new.at }
{
    pass_base(classes, reader, levels)?;
    reader.take_text()?;
    let count = read_count(reader, 4)?;
    reader.take_u32()?;
    pass_pointers(alloc, classes, reader, count, levels)
}

#[cycle(passing)]
fn pass_pointers(
    alloc: Global,
    classes: &Classes,
    reader: &mut ObjReader,
    count: u32,
    levels: u32,
) -> Result<(), ObjFault>
    ensures exact { ReadsAs (λ x. x) result
        (read (pass_of (times count (pointer (object_of levels classes.now)))) reader.old)
        reader.new }
    ensures goes { GoesOn reader.old.at reader.new.at }
{
    for _done in 0..count {
        pass_pointer(alloc, classes, reader, levels)?;
    }
    Ok(())
}
