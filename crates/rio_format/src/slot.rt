//! The parts of objects, and what may stand there.
ghost use Rattle.std.specs.Prelude.{◌≡◌, Some, slice_get};
ghost use Rattle.rio_format.specs.Bodies.{t_named, t_obj_string, t_object_base};
ghost use Rattle.rio_format.specs.{Slots.{arrayed_fields, bare_fields, base_field, body_fields, declared_body, described_fields, field, fields_of, kinded, listed_fields, member_field, number_fields}, Bodies.{form_of}};

use crate::body::{Body, BodyKind, declared_body};
use crate::form::{Form, form_of};
use crate::{Base, ClassDef, Classes, Kind, Member, Prim};
use std::marker::Model;

/// What may stand at a place within a value.
#[derive(Drop)]
pub struct Slot<'a>(pub SlotKind<'a>);

impl<'a> Model for Slot<'a> {
    ghost use Rattle.rio_format.specs.{Slots.{Slot}, SlotCode.{slot_code}};

    ghost Value = { Slot };

    ghost coded = { slot_code };

    ghost use Rattle.rio_format.specs.SlotKinds.{slot_of_kind};

    ghost view = { λ slot. slot_of_kind slot.0 };
}

/// The kinds of slots.
#[derive(Clone, Copy)]
pub enum SlotKind<'a> {
    /// A number of the kind.
    Plain(Prim),
    /// A number that counts.
    Counter,
    /// So many numbers.
    Fixed(Prim, u32),
    /// As many numbers as the counter of the name says.
    Counted(Prim, &'a [u8]),
    /// A text.
    Text,
    /// An object of the class.
    Inline(&'a [u8]),
    /// A pointer to such an object, or to one that has its class among its bases.
    Pointer(&'a [u8]),
    /// Nothing fits here.
    Other(i32),
    /// An object of the class, in this version.
    Based(&'a [u8], i32),
    /// TObject's fBits.
    Flags,
    /// A pointer to an object of any class that can be put.
    AnyPointer,
    /// Such a pointer, and a text.
    Link,
    /// Numbers in a list of any length.
    Numbers(Prim),
    /// Pointers in a list of any length.
    Pointers,
    /// Links in a list of any length.
    Links,
}

/// A part of an object: its name, and what may stand there.
#[derive(Drop)]
pub struct Field<'a> {
    /// The name, which a base doesn't have.
    pub name: &'a [u8],
    /// What may stand there.
    pub slot: Slot<'a>,
}

impl<'a> Model for Field<'a> {
    ghost use Rattle.rio_format.specs.{Slots.{Field}, SlotCode.{field_code}};

    ghost Value = { Field };

    ghost coded = { field_code };

    ghost view = { λ field. record { name = field.name.now; slot = field.slot } };
}

/// The parts of an object, in order, told from its class where that stands: no list is made of them.
#[derive(Drop)]
pub struct Fields<'a>(pub FieldsKind<'a>);

impl<'a> Model for Fields<'a> {
    ghost use Rattle.std.specs.Prelude.{List};
    ghost use Rattle.std.specs.Coded.{coded_list};
    ghost use Rattle.rio_format.specs.{Slots.{Field as PartField}, SlotCode.{field_code}};

    ghost Value = { List PartField };

    ghost coded = { coded_list field_code };

    ghost use Rattle.rio_format.specs.FieldKinds.{fields_of_kind};

    ghost view = { λ fields. fields_of_kind fields.0 };
}

/// Whose parts they are.
#[derive(Clone, Copy)]
pub enum FieldsKind<'a> {
    /// An object's of this class, which is described.
    Described(&'a ClassDef),
    /// A TNamed's.
    Named,
    /// A TObjString's.
    ObjString,
    /// A TList's.
    Listed,
    /// A TObjArray's.
    Arrayed,
    /// A TObject's.
    Bare,
    /// A TArray's, of numbers of this kind.
    Numbers(Prim),
}

impl<'a> Fields<'a> {
    ghost use Rattle.std.specs.Prelude.{◌≡◌, slice_get};

    /// The part of this number, counted from 0, or `None` where there are no more.
    pub fn get(&self, number: usize) -> Option<Field<'a>>
        ensures { result ≡ slice_get self.now number }
    {
        match self.0 {
            FieldsKind::Described(class) => described_field(class, number),
            FieldsKind::Named => named_field(number),
            FieldsKind::ObjString => obj_string_field(number),
            FieldsKind::Listed => listed_field(number),
            FieldsKind::Arrayed => arrayed_field(number),
            FieldsKind::Bare => bare_field(number),
            FieldsKind::Numbers(of) => number_field(of, number),
        }
    }
}

/// What may stand in a member of the kind.
pub fn slot_of<'a>(kind: &'a Kind) -> Slot<'a>
    ensures { result ≡ kinded kind.now }
{
    let kind = match kind {
        Kind::Plain { of } => SlotKind::Plain(*of),
        Kind::Counter => SlotKind::Counter,
        Kind::Fixed { of, count } => SlotKind::Fixed(*of, *count),
        Kind::Counted { of, counter } => SlotKind::Counted(*of, counter.as_slice()),
        Kind::Text => SlotKind::Text,
        Kind::Inline { class } => SlotKind::Inline(class.as_slice()),
        Kind::Pointer { class } => SlotKind::Pointer(class.as_slice()),
        Kind::Other { code } => SlotKind::Other(*code),
    };
    Slot(kind)
}

fn base_field<'a>(base: &'a Base) -> Field<'a>
    ensures { result ≡ base_field base.now }
{
    Field {
        name: b"",
        slot: Slot(SlotKind::Based(base.name.as_slice(), base.version)),
    }
}

fn member_field<'a>(member: &'a Member) -> Field<'a>
    ensures { result ≡ member_field member.now }
{
    Field {
        name: member.name.as_slice(),
        slot: slot_of(&member.kind),
    }
}

fn described_field<'a>(class: &'a ClassDef, number: usize) -> Option<Field<'a>>
    ensures { result ≡ slice_get (described_fields class.now) number }
{
    let bases = class.bases.as_slice();
    if number < bases.len() {
        return Some(base_field(&bases[number]));
    }
    match class.members.as_slice().get(number - bases.len()) {
        Some(member) => Some(member_field(member)),
        None => None,
    }
}

fn field_of<'a>(name: &'a [u8], slot: Slot<'a>) -> Field<'a>
    ensures { result ≡ field name.now slot.entry }
{
    Field { name, slot }
}

// The TObject that the built-in classes have as their base.
fn object_field<'a>() -> Field<'a>
    ensures { result ≡ base_field t_object_base }
{
    field_of(b"", Slot(SlotKind::Based(b"TObject", 1)))
}

fn named_field<'a>(number: usize) -> Option<Field<'a>>
    ensures { result ≡ slice_get (described_fields t_named) number }
{
    match number {
        0 => Some(object_field()),
        1 => Some(field_of(b"fName", Slot(SlotKind::Text))),
        2 => Some(field_of(b"fTitle", Slot(SlotKind::Text))),
        _ => None,
    }
}

fn obj_string_field<'a>(number: usize) -> Option<Field<'a>>
    ensures { result ≡ slice_get (described_fields t_obj_string) number }
{
    match number {
        0 => Some(object_field()),
        1 => Some(field_of(b"fString", Slot(SlotKind::Text))),
        _ => None,
    }
}

fn listed_field<'a>(number: usize) -> Option<Field<'a>>
    ensures { result ≡ slice_get listed_fields number }
{
    match number {
        0 => Some(object_field()),
        1 => Some(field_of(b"fName", Slot(SlotKind::Text))),
        2 => Some(field_of(b"items", Slot(SlotKind::Links))),
        _ => None,
    }
}

fn arrayed_field<'a>(number: usize) -> Option<Field<'a>>
    ensures { result ≡ slice_get arrayed_fields number }
{
    match number {
        0 => Some(object_field()),
        1 => Some(field_of(b"fName", Slot(SlotKind::Text))),
        2 => Some(field_of(b"fLowerBound", Slot(SlotKind::Plain(Prim::I32)))),
        3 => Some(field_of(b"items", Slot(SlotKind::Pointers))),
        _ => None,
    }
}

fn bare_field<'a>(number: usize) -> Option<Field<'a>>
    ensures { result ≡ slice_get bare_fields number }
{
    match number {
        0 => Some(field_of(b"fUniqueID", Slot(SlotKind::Plain(Prim::U32)))),
        1 => Some(field_of(b"fBits", Slot(SlotKind::Flags))),
        _ => None,
    }
}

fn number_field<'a>(of: Prim, number: usize) -> Option<Field<'a>>
    ensures { result ≡ slice_get (number_fields of) number }
{
    match number {
        0 => Some(field_of(b"items", Slot(SlotKind::Numbers(of)))),
        _ => None,
    }
}

/// The parts of an object that has this body, or `None` where its bytes aren't read.
pub fn body_fields<'a>(body: &Body<'a>) -> Option<Fields<'a>>
    ensures { result ≡ body_fields (Some body.now) }
{
    let kind = match body.0 {
        BodyKind::Described(class) => FieldsKind::Described(class),
        BodyKind::Named => FieldsKind::Named,
        BodyKind::ObjString => FieldsKind::ObjString,
        BodyKind::Listed => FieldsKind::Listed,
        BodyKind::Arrayed => FieldsKind::Arrayed,
        BodyKind::Opaque => return None,
    };
    Some(Fields(kind))
}

/// The parts of an object of a class in a version, or `None` where the version isn't known.
pub fn fields_of<'a>(classes: &'a Classes, class: &[u8], version: i32) -> Option<Fields<'a>>
    ensures { result ≡ fields_of classes.now class.now version }
{
    match form_of(class) {
        Form::Bare if version == 1 => Some(Fields(FieldsKind::Bare)),
        Form::Numbers(of) if version == 1 => Some(Fields(FieldsKind::Numbers(of))),
        Form::Headed => match declared_body(classes, class, version) {
            Some(body) => body_fields(&body),
            None => None,
        },
        _ => None,
    }
}
