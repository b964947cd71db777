//! Values with the objects of a class in another version. The calls go as deep as the value, so those within one another
//! keep little: what is made of a value is made in calls of their own.
ghost use Rattle.std.specs.Prelude.{◌≡◌, drop, map, Ok};
ghost use Rattle.std.specs.Option.{option_copied};
ghost use Rattle.rio_num.specs.Answers.{GivesUnless};
ghost use Rattle.rio_model.specs.Mapping.{after_bases, as_version, base_mapped, base_part_of, class_named, described_bases, described_members, each_mapped, in_own_version, items_mapped, kind_zero, member_mapped, member_part_of, object_as, object_mapped, or_changed, zero_of_class};
ghost use Rattle.rio_model.specs.declared.map_fault.MapFault.TheVariants.{NoMemory as OutOfMemory};
ghost use Rattle.rio_format.specs.{declared.value.Value.{List as Items, Object, Pointed, out-Value}, Bodies.{part}};
ghost use Rattle.rio_map.specs.Converting.{flat_as};
ghost use Rattle.rio_map.specs.Versions.{Maps, asked_in, base_found, bases_as, behind, converted, has_base, is_base_part, is_nameless, kind_in, made_of, mapped_in, mapping_in, mapping_of_part, member_found, members_as, part_found};

use crate::convert::{flat_as, stays};
use crate::memory::Memory;
use crate::zero::{object_with, zero_object, zero_of_kind};
use rio_format::{
    Base, ClassDef, Classes, Kind, Member, Part, Parts, Value, Values, copy, part_with,
};
use rio_model::{MapFault, built_in_version};
use rio_num::{Boxed, Name};
use std::alloc::Global;

// ---- what is there of an object

fn described_bases<'a>(class: Option<&'a ClassDef>) -> &'a [Base]
    ensures { result.now ≡ described_bases (option_copied class.entry) }
{
    match class {
        Some(class) => class.bases.as_slice(),
        None => &[],
    }
}

fn described_members<'a>(class: Option<&'a ClassDef>) -> &'a [Member]
    ensures { result.now ≡ described_members (option_copied class.entry) }
{
    match class {
        Some(class) => class.members.as_slice(),
        None => &[],
    }
}

fn has_base(bases: &[Base], class: &[u8]) -> bool
    ensures { result ≡ has_base bases.now class.now }
{
    for base in bases {
        if base.name.as_slice() == class {
            return true;
        }
    }
    false
}

fn kind_in<'a>(members: &'a [Member], name: &[u8]) -> Option<&'a Kind>
    ensures { option_copied result ≡ kind_in members.now name.now }
{
    for member in members {
        if member.name.as_slice() == name {
            return Some(&member.kind);
        }
    }
    None
}

// Whether there is a part at `k`, and it has no name.
fn is_nameless(parts: &[Part], k: usize) -> bool
    ensures { result ≡ is_nameless parts.now k }
{
    match parts.get(k) {
        Some(part) => part.name.len() == 0,
        None => false,
    }
}

// How many parts at the front are those of these bases: parts without a name.
fn base_parts(bases: &[Base], parts: &[Part]) -> usize
    ensures { drop result parts.now ≡ after_bases (λ p. p.name) bases.now parts.now }
{
    for k in 0..bases.len() {
        if !is_nameless(parts, k) {
            return k;
        }
    }
    bases.len()
}

// The class of an object.
fn class_named(value: &Value) -> &[u8]
    ensures { result.now ≡ class_named (out-Value value.now) }
{
    match value {
        Value::Object { class, .. } | Value::Opaque { class, .. } => class.as_slice(),
        _ => &[],
    }
}

// Whether the part is an object of the class, as a base.
fn is_base_part(class: &[u8], part: &Part) -> bool
    ensures { result ≡ is_base_part class.now part.now }
{
    part.name.len() == 0 && class_named(&part.value) == class
}

// ---- what comes in its place

// The value, or the fault that the base or member of this name can't be had.
fn or_changed(alloc: Global, name: &[u8], value: Option<Value>) -> Result<Value, MapFault>
    ensures { Maps result (or_changed name.now value) }
{
    match value {
        Some(value) => Ok(value),
        None => Err(MapFault::KindChanged {
            member: Name::from_slice(alloc, name)?,
        }),
    }
}

fn base_zero(memory: &mut Memory, classes: &Classes, base: &Base) -> Result<Value, MapFault>
    ensures { let zero = zero_of_class classes.now base.now.name in
        Maps result (or_changed base.now.name zero) }
{
    let zero = zero_object(memory, classes, base.name.as_slice())?;
    or_changed(memory.alloc, base.name.as_slice(), zero)
}

fn member_zero(memory: &mut Memory, classes: &Classes, member: &Member) -> Result<Value, MapFault>
    ensures { let zero = kind_zero (zero_of_class classes.now) member.now.kind in
        Maps result (or_changed member.now.name zero) }
{
    let zero = zero_of_kind(memory, classes, &member.kind)?;
    or_changed(memory.alloc, member.name.as_slice(), zero)
}

// A value of this kind, without objects in it, in the kind of the member.
fn flat_converted(
    alloc: Global,
    from: &Kind,
    member: &Member,
    value: &Value,
) -> Result<Value, MapFault>
    ensures { let flat = flat_as from.now member.now.kind value.now in
        Maps result (or_changed member.now.name flat) }
{
    let found = flat_as(alloc, from, &member.kind, value)?;
    or_changed(alloc, member.name.as_slice(), found)
}

// ---- the walk

// The value as it is.
fn copied(alloc: Global, value: &Value) -> Result<Value, MapFault>
    ensures { Maps result (Ok value.now) }
{
    Ok(copy(alloc, value)?)
}

// The value, with the objects of the class in the asked version.
#[cycle(mapped)]
fn mapped(
    memory: &mut Memory,
    classes: &Classes,
    asked: &ClassDef,
    value: &Value,
) -> Result<Value, MapFault>
    ensures { Maps result (mapped_in classes.now asked.now value.now) }
{
    match value {
        Value::Int(_)
        | Value::Bits32(_)
        | Value::Bits64(_)
        | Value::Bool(_)
        | Value::Text(_)
        | Value::Null
        | Value::Back(_)
        | Value::Opaque { .. } => copied(memory.alloc, value),
        Value::List(items) => list_mapped(memory, classes, asked, items.as_slice()),
        Value::Object {
            class,
            version,
            parts,
        } => object_as(
            memory,
            classes,
            asked,
            class.as_slice(),
            *version,
            parts.as_slice(),
        ),
        Value::Pointed { label, object } => {
            pointed_mapped(memory, classes, asked, *label, object.get())
        }
    }
}

#[cycle(mapped)]
fn list_mapped(
    memory: &mut Memory,
    classes: &Classes,
    asked: &ClassDef,
    items: &[Value],
) -> Result<Value, MapFault>
    ensures { let found = items_mapped (map (mapping_in classes.now asked.now) items.now) in
        Maps result (made_of Items found) }
{
    match items_mapped(memory, classes, asked, items) {
        Ok(items) => Ok(Value::List(items)),
        Err(fault) => Err(fault),
    }
}

#[cycle(mapped)]
fn items_mapped(
    memory: &mut Memory,
    classes: &Classes,
    asked: &ClassDef,
    items: &[Value],
) -> Result<Values, MapFault>
    ensures { Maps result (items_mapped (map (mapping_in classes.now asked.now) items.now)) }
{
    let mut done = Values::new(memory.alloc);
    for item in items {
        done.push(mapped(memory, classes, asked, item)?)?;
    }
    Ok(done)
}

// A pointer to the object of this label, which begins here.
fn pointed(alloc: Global, label: u32, object: Value) -> Result<Value, MapFault>
    ensures { Maps result (Ok (Pointed label object)) }
{
    Ok(Value::Pointed {
        label,
        object: Boxed::new(alloc, object)?,
    })
}

#[cycle(mapped)]
fn pointed_mapped(
    memory: &mut Memory,
    classes: &Classes,
    asked: &ClassDef,
    label: u32,
    object: &Value,
) -> Result<Value, MapFault>
    ensures { let found = mapped_in classes.now asked.now object.now in
        Maps result (made_of (Pointed label) found) }
{
    match mapped(memory, classes, asked, object) {
        Ok(object) => pointed(memory.alloc, label, object),
        Err(fault) => Err(fault),
    }
}

// An object of these parts.
fn object_of(alloc: Global, class: &[u8], version: i32, parts: Parts) -> Result<Value, MapFault>
    ensures { Maps result (Ok (Object class.now version parts)) }
{
    Ok(object_with(alloc, class, version, parts)?)
}

// An object of the class in the asked version, any other one as it is with what is within it mapped.
#[cycle(mapped)]
fn object_as(
    memory: &mut Memory,
    classes: &Classes,
    asked: &ClassDef,
    class: &[u8],
    version: i32,
    parts: &[Part],
) -> Result<Value, MapFault>
    ensures { let within = map (mapping_of_part classes.now asked.now) parts.now in
        Maps result (object_as classes.now (asked_in asked.now) class.now version within) }
{
    if class != asked.name.as_slice() {
        return object_kept(memory, classes, asked, class, version, parts);
    }
    let old = classes.find(class, version);
    match object_mapped(memory, classes, asked, old, parts) {
        Ok(parts) => object_of(memory.alloc, class, asked.version, parts),
        Err(fault) => Err(fault),
    }
}

// An object of another class.
#[cycle(mapped)]
fn object_kept(
    memory: &mut Memory,
    classes: &Classes,
    asked: &ClassDef,
    class: &[u8],
    version: i32,
    parts: &[Part],
) -> Result<Value, MapFault>
    ensures { let within = map (mapping_of_part classes.now asked.now) parts.now in
        let found = each_mapped (λ p. p.name) (λ p. p.value.mapped) within in
        Maps result (made_of (Object class.now version) found) }
{
    match parts_mapped(memory, classes, asked, parts) {
        Ok(parts) => object_of(memory.alloc, class, version, parts),
        Err(fault) => Err(fault),
    }
}

#[cycle(mapped)]
fn parts_mapped(
    memory: &mut Memory,
    classes: &Classes,
    asked: &ClassDef,
    parts: &[Part],
) -> Result<Parts, MapFault>
    ensures { let within = map (mapping_of_part classes.now asked.now) parts.now in
        Maps result (each_mapped (λ p. p.name) (λ p. p.value.mapped) within) }
{
    let mut done = Parts::new(memory.alloc);
    for part in parts {
        let value = mapped(memory, classes, asked, &part.value)?;
        done.push(part_with(memory.alloc, part.name.as_slice(), value)?)?;
    }
    Ok(done)
}

// ---- the bases and members of the asked version

// The parts that an object with these parts, whose class is described so, has in the asked version.
#[cycle(mapped)]
fn object_mapped(
    memory: &mut Memory,
    classes: &Classes,
    asked: &ClassDef,
    old: Option<&ClassDef>,
    parts: &[Part],
) -> Result<Parts, MapFault>
    ensures { let within = map (mapping_of_part classes.now asked.now) parts.now in
        Maps result (object_mapped classes.now (option_copied old.entry) asked.now within) }
{
    let bases = described_bases(old);
    match bases_mapped(memory, classes, asked, bases, parts) {
        Ok(front) => {
            let members = described_members(old);
            let skipped = base_parts(bases, parts);
            members_after(memory, classes, asked, members, skipped, parts, front)
        }
        Err(fault) => Err(fault),
    }
}

#[cycle(mapped)]
fn bases_mapped(
    memory: &mut Memory,
    classes: &Classes,
    asked: &ClassDef,
    bases: &[Base],
    parts: &[Part],
) -> Result<Parts, MapFault>
    ensures { let within = map (mapping_of_part classes.now asked.now) parts.now in
        Maps result (bases_as classes.now bases.now asked.now within) }
{
    let mut done = Parts::new(memory.alloc);
    for base in asked.bases.as_slice() {
        let value = base_mapped(memory, classes, asked, bases, parts, base)?;
        done.push(part_with(memory.alloc, &[], value)?)?;
    }
    Ok(done)
}

// The members, after the parts that are there. Those of the object come after so many parts, which are its bases.
#[cycle(mapped)]
fn members_after(
    memory: &mut Memory,
    classes: &Classes,
    asked: &ClassDef,
    members: &[Member],
    bases: usize,
    parts: &[Part],
    front: Parts,
) -> Result<Parts, MapFault>
    ensures { let within = map (mapping_of_part classes.now asked.now) (drop bases parts.now) in
        let found = members_as classes.now members.now asked.now within in
        Maps result (behind front found) }
{
    let mut done = front;
    for member in asked.members.as_slice() {
        let value = member_mapped(memory, classes, asked, members, bases, parts, member)?;
        done.push(part_with(memory.alloc, member.name.as_slice(), value)?)?;
    }
    Ok(done)
}

// The base, which is zero where there is none.
#[cycle(mapped)]
fn base_mapped(
    memory: &mut Memory,
    classes: &Classes,
    asked: &ClassDef,
    bases: &[Base],
    parts: &[Part],
    base: &Base,
) -> Result<Value, MapFault>
    ensures { let within = map (mapping_of_part classes.now asked.now) parts.now in
        let part = base_part_of bases.now within base.now.name in
        Maps result (base_mapped classes.now base.now part) }
{
    match base_found(memory, classes, asked, bases, parts, base) {
        Ok(Some(value)) => Ok(value),
        Ok(None) => base_zero(memory, classes, base),
        Err(fault) => Err(fault),
    }
}

// The member, which is zero where there is none.
#[cycle(mapped)]
fn member_mapped(
    memory: &mut Memory,
    classes: &Classes,
    asked: &ClassDef,
    members: &[Member],
    bases: usize,
    parts: &[Part],
    member: &Member,
) -> Result<Value, MapFault>
    ensures { let within = map (mapping_of_part classes.now asked.now) (drop bases parts.now) in
        let part = member_part_of members.now within member.now.name in
        Maps result (member_mapped classes.now member.now part) }
{
    match member_found(memory, classes, asked, members, bases, parts, member) {
        Ok(Some(value)) => Ok(value),
        Ok(None) => member_zero(memory, classes, member),
        Err(fault) => Err(fault),
    }
}

// The base, if the object has it.
#[cycle(mapped)]
fn base_found(
    memory: &mut Memory,
    classes: &Classes,
    asked: &ClassDef,
    bases: &[Base],
    parts: &[Part],
    base: &Base,
) -> Result<Option<Value>, MapFault>
    ensures { let had = mapped_in classes.now asked.now in
        Maps result (base_found had bases.now parts.now base.now) }
{
    if !has_base(bases, base.name.as_slice()) {
        return Ok(None);
    }
    for part in parts {
        if is_base_part(base.name.as_slice(), part) {
            return Ok(Some(mapped(memory, classes, asked, &part.value)?));
        }
    }
    Ok(None)
}

// The member, if the object has it.
#[cycle(mapped)]
fn member_found(
    memory: &mut Memory,
    classes: &Classes,
    asked: &ClassDef,
    members: &[Member],
    bases: usize,
    parts: &[Part],
    member: &Member,
) -> Result<Option<Value>, MapFault>
    ensures { let had = mapped_in classes.now asked.now in
        Maps result (member_found had members.now (drop bases parts.now) member.now) }
{
    match kind_in(members, member.name.as_slice()) {
        Some(from) => part_found(memory, classes, asked, bases, parts, member, from),
        None => Ok(None),
    }
}

// The part of the member's name after the bases, which is of this kind, in the kind of the member.
#[cycle(mapped)]
fn part_found(
    memory: &mut Memory,
    classes: &Classes,
    asked: &ClassDef,
    bases: usize,
    parts: &[Part],
    member: &Member,
    from: &Kind,
) -> Result<Option<Value>, MapFault>
    ensures { let had = mapped_in classes.now asked.now in
        Maps result (part_found had member.now (drop bases parts.now) from.now) }
{
    for k in bases..parts.len() {
        let part = &parts[k];
        if part.name.as_slice() == member.name.as_slice() {
            return Ok(Some(converted(memory, classes, asked, from, member, &part.value)?));
        }
    }
    Ok(None)
}

// A value of this kind in the kind of the member. Whether it is one is seen before what is within it.
#[cycle(mapped)]
fn converted(
    memory: &mut Memory,
    classes: &Classes,
    asked: &ClassDef,
    from: &Kind,
    member: &Member,
    value: &Value,
) -> Result<Value, MapFault>
    ensures { let had = mapped_in classes.now asked.now in
        Maps result (converted had from.now member.now value.now) }
{
    if stays(from, &member.kind, value) {
        mapped(memory, classes, asked, value)
    } else {
        flat_converted(memory.alloc, from, member, value)
    }
}

// The value, if the class, whose built-in version this is, is asked in that.
fn in_own_version(alloc: Global, own: i32, version: i32, value: &Value) -> Result<Value, MapFault>
    ensures { Maps result (in_own_version version value.now own) }
{
    if version == own {
        copied(alloc, value)
    } else {
        Err(MapFault::NoVersion)
    }
}

/// The value with each object of the class, at any depth, in the version. Such an object gets the bases and members of the
/// asked version, in order: those of its own that have the names, converted, and zeros for the others. Any other object stays
/// as it is, with what is within it mapped. A built-in class has one version, in which nothing changes, whatever else is
/// described.
///
/// `NoVersion` is returned where the class isn't known in the version (`is_known_version` of `rio_model`), and `KindChanged` for the first
/// base or member that can't be had. It goes as deep as the value.
#[tactic(auto, unfolding(rio_model::specs::Mapping::as_version))]
pub fn as_version(
    alloc: Global,
    classes: &Classes,
    class: &[u8],
    version: i32,
    value: &Value,
) -> Result<Value, MapFault>
    ensures { GivesUnless OutOfMemory (λ v. v) result
        (as_version classes.now class.now version value.now) }
{
    match built_in_version(class) {
        Some(own) => in_own_version(alloc, own, version, value),
        None => match classes.find(class, version) {
            Some(asked) => mapped(&mut Memory::new(alloc), classes, asked, value),
            None => Err(MapFault::NoVersion),
        },
    }
}
