//! Values with the versions that their text leaves open. The calls go as deep as the value, so those within one another keep
//! little: what is made of a value is made in calls of their own.
ghost use Rattle.std.specs.Prelude.{◌≡◌, ◌==◌, [], ◌∷◌, length, map, option_and_then, IfOk, IfErr, Some, None, if◌then◌else◌};
ghost use Rattle.std.specs.Option.{option_map};
ghost use Rattle.rio_format.specs.{declared.value.Value.{List as Items, Object, Pointed}, Bodies.{part, t_object_base}, Slots.{body_bases, headed_body}};
ghost use Rattle.rio_model.specs.Resolving.{ResolvedHasVersions, ResolvedStays, base_version, each_resolved, meant_version, newest_known, object_resolved, resolved, resolved_row, resolved_version, resolving_of, resolving_of_part};
ghost use Rattle.rio_valtext.specs.Resolves.{Resolves};

use rio_format::{
    Base, Body, BodyKind, Classes, Part, Parts, Value, Values, copy, declared_body, is_headed,
};
use rio_model::{is_known_version, newest_known};
use rio_num::{Boxed, Name, NoMemory};
use std::alloc::Global;
use thiserror::Error;

/// Why a value can't be resolved.
#[derive(Clone, Copy, Debug, PartialEq, Eq, Error)]
pub enum ResolveFault {
    #[error("an object is of a class or version that isn't declared")]
    NoSuchClass,
    #[error("no memory")]
    NoMemory,
}

impl From<NoMemory> for ResolveFault {
    ghost use Rattle.std.specs.Prelude.{◌≡◌};
    ghost use Rattle.rio_valtext.specs.declared.resolving.ResolveFault.TheVariants.{NoMemory as OutOfMemory};

    ghost from_gives = { λ _ fault. fault ≡ OutOfMemory };

    fn from(_e: NoMemory) -> ResolveFault {
        ResolveFault::NoMemory
    }
}

// The body of the class's objects that begin with a header. It says which bases the class has in the version.
fn headed_body<'a>(classes: &'a Classes, class: &[u8], version: i32) -> Option<Body<'a>>
    ensures { result ≡ headed_body classes.now class.now version }
{
    if is_headed(class) {
        declared_body(classes, class, version)
    } else {
        None
    }
}

// The version of the base of that name.
fn base_version(around: &Option<Body>, class: &[u8]) -> Option<i32>
    ensures { result ≡ base_version (body_bases around.now) class.now }
{
    match around {
        Some(body) => version_in_body(body, class),
        None => None,
    }
}

fn version_in_body(body: &Body, class: &[u8]) -> Option<i32>
    ensures { result ≡ base_version (body_bases (Some body.now)) class.now }
{
    match body.0 {
        BodyKind::Described(found) => listed_version(found.bases.as_slice(), class),
        BodyKind::Opaque => None,
        BodyKind::Named | BodyKind::ObjString | BodyKind::Listed | BodyKind::Arrayed => {
            object_version(class)
        }
    }
}

// The version of TObject, which is the one base.
fn object_version(class: &[u8]) -> Option<i32>
    ensures { result ≡ base_version (t_object_base ∷ []) class.now }
{
    if class == b"TObject".as_slice() {
        Some(1)
    } else {
        None
    }
}

fn listed_version(bases: &[Base], class: &[u8]) -> Option<i32>
    ensures { result ≡ base_version bases.now class.now }
{
    for base in bases {
        if base.name.as_slice() == class {
            return Some(base.version);
        }
    }
    None
}

// The version that an object means.
fn meant_version(
    classes: &Classes,
    around: &Option<Body>,
    class: &[u8],
    version: i32,
) -> Option<i32>
    ensures { result ≡ meant_version classes.now (body_bases around.now) class.now version }
{
    if version != 0 {
        return Some(version);
    }
    match base_version(around, class) {
        Some(version) => Some(version),
        None => newest_known(classes, class),
    }
}

// The version that an object means, if its class is known in it.
fn resolved_version(
    classes: &Classes,
    around: &Option<Body>,
    class: &[u8],
    version: i32,
) -> Result<i32, ResolveFault>
    ensures { let found = resolved_version classes.now (body_bases around.now) class.now version in
        Resolves result found }
{
    match meant_version(classes, around, class, version) {
        Some(version) if is_known_version(classes, class, version) => Ok(version),
        _ => Err(ResolveFault::NoSuchClass),
    }
}

// The value as it is.
fn copied(alloc: Global, value: &Value) -> Result<Value, ResolveFault>
    ensures ok { IfOk result (λ v. v ≡ value.now) }
    ensures err { IfErr result (λ e. e ≡ ResolveFault.NoMemory) }
{
    Ok(copy(alloc, value)?)
}

// The value, which is a base of an object with this body if it stands in one.
#[cycle(resolve)]
fn resolve_value(
    alloc: Global,
    classes: &Classes,
    around: &Option<Body>,
    value: &Value,
) -> Result<Value, ResolveFault>
    ensures { Resolves result (resolving_of classes.now value.now (body_bases around.now)) }
{
    match value {
        Value::Int(_)
        | Value::Bits32(_)
        | Value::Bits64(_)
        | Value::Bool(_)
        | Value::Text(_)
        | Value::Null
        | Value::Back(_)
        | Value::Opaque { .. } => copied(alloc, value),
        Value::List(items) => resolve_list(alloc, classes, items.as_slice()),
        Value::Object {
            class,
            version,
            parts,
        } => resolve_object(
            alloc,
            classes,
            around,
            class.as_slice(),
            *version,
            parts.as_slice(),
        ),
        Value::Pointed { label, object } => resolve_pointed(alloc, classes, *label, object.get()),
    }
}

#[cycle(resolve)]
fn resolve_list(alloc: Global, classes: &Classes, items: &[Value]) -> Result<Value, ResolveFault>
    ensures { let found = each_resolved [] (map (resolving_of classes.now) items.now) in
        Resolves result (option_map Items found) }
{
    match resolve_items(alloc, classes, items) {
        Ok(items) => Ok(Value::List(items)),
        Err(fault) => Err(fault),
    }
}

// A pointer to the object of this label, which begins here.
fn pointed(alloc: Global, label: u32, object: Value) -> Result<Value, ResolveFault>
    ensures ok { IfOk result (λ v. v ≡ Pointed label object) }
    ensures err { IfErr result (λ e. e ≡ ResolveFault.NoMemory) }
{
    Ok(Value::Pointed {
        label,
        object: Boxed::new(alloc, object)?,
    })
}

#[cycle(resolve)]
fn resolve_pointed(
    alloc: Global,
    classes: &Classes,
    label: u32,
    object: &Value,
) -> Result<Value, ResolveFault>
    ensures { let found = resolving_of classes.now object.now [] in
        Resolves result (option_map (Pointed label) found) }
{
    match resolve_value(alloc, classes, &None, object) {
        Ok(object) => pointed(alloc, label, object),
        Err(fault) => Err(fault),
    }
}

#[cycle(resolve)]
fn resolve_object(
    alloc: Global,
    classes: &Classes,
    around: &Option<Body>,
    class: &[u8],
    version: i32,
    parts: &[Part],
) -> Result<Value, ResolveFault>
    ensures { let within = map (resolving_of_part classes.now) parts.now in
        let version = resolved_version classes.now (body_bases around.now) class.now version in
        Resolves result (option_and_then (object_resolved classes.now class.now within) version) }
{
    let version = resolved_version(classes, around, class, version)?;
    resolve_in_version(alloc, classes, class, version, parts)
}

// An object of these parts.
fn object_with(
    alloc: Global,
    class: &[u8],
    version: i32,
    parts: Parts,
) -> Result<Value, ResolveFault>
    ensures ok { IfOk result (λ v. v ≡ Object class.now version parts) }
    ensures err { IfErr result (λ e. e ≡ ResolveFault.NoMemory) }
{
    let class = Name::from_slice(alloc, class)?;
    Ok(Value::Object {
        class,
        version,
        parts,
    })
}

// The object of the class in this version.
#[cycle(resolve)]
fn resolve_in_version(
    alloc: Global,
    classes: &Classes,
    class: &[u8],
    version: i32,
    parts: &[Part],
) -> Result<Value, ResolveFault>
    ensures { let within = map (resolving_of_part classes.now) parts.now in
        Resolves result (object_resolved classes.now class.now within version) }
{
    let body = headed_body(classes, class, version);
    match resolve_parts(alloc, classes, &body, parts) {
        Ok(parts) => object_with(alloc, class, version, parts),
        Err(fault) => Err(fault),
    }
}

#[cycle(resolve)]
fn resolve_items(alloc: Global, classes: &Classes, items: &[Value]) -> Result<Values, ResolveFault>
    ensures { Resolves result (each_resolved [] (map (resolving_of classes.now) items.now)) }
{
    let mut resolved = Values::new(alloc);
    for item in items {
        resolved.push(resolve_value(alloc, classes, &None, item)?)?;
    }
    Ok(resolved)
}

// The parts of an object with this body.
#[cycle(resolve)]
fn resolve_parts(
    alloc: Global,
    classes: &Classes,
    around: &Option<Body>,
    parts: &[Part],
) -> Result<Parts, ResolveFault>
    ensures { let within = map (resolving_of_part classes.now) parts.now in
        Resolves result (each_resolved (body_bases around.now) within) }
{
    let mut resolved = Parts::new(alloc);
    for part in parts {
        resolved.push(resolve_part(alloc, classes, around, part)?)?;
    }
    Ok(resolved)
}

// The value of a part of an object with this body. Where the part has no name it is a base.
#[cycle(resolve)]
fn resolve_named(
    alloc: Global,
    classes: &Classes,
    around: &Option<Body>,
    part: &Part,
) -> Result<Value, ResolveFault>
    ensures { let bases = if length part.now.name == 0 then body_bases around.now else [] in
        Resolves result (resolving_of classes.now part.now.value bases) }
{
    if part.name.len() == 0 {
        resolve_value(alloc, classes, around, &part.value)
    } else {
        resolve_value(alloc, classes, &None, &part.value)
    }
}

fn part_with(name: &Name, value: Value) -> Result<Part, ResolveFault>
    ensures ok { IfOk result (λ p. p ≡ part name.now value) }
    ensures err { IfErr result (λ e. e ≡ ResolveFault.NoMemory) }
{
    let name = name.copy()?;
    Ok(Part { name, value })
}

#[cycle(resolve)]
fn resolve_part(
    alloc: Global,
    classes: &Classes,
    around: &Option<Body>,
    part: &Part,
) -> Result<Part, ResolveFault>
    ensures { Resolves result (resolving_of_part classes.now part.now (body_bases around.now)) }
{
    match resolve_named(alloc, classes, around, part) {
        Ok(value) => part_with(&part.name, value),
        Err(fault) => Err(fault),
    }
}

/// The value with a version in each object. One of version 0 gets the newest version in which its class is declared, or
/// else the version in which it is built in. As a base it gets the version in which the class of the object around it has
/// the base, if that class has one of the name. All else stays. `NoSuchClass` says that an object's class is neither
/// declared nor built in in its version. It goes as deep as the value.
pub fn resolved(alloc: Global, classes: &Classes, value: &Value) -> Result<Value, ResolveFault>
    ensures ok { IfOk result (λ v. resolved classes.now value.now ≡ Some v) }
    ensures none { let found = resolved classes.now value.now in
        IfErr result (λ e. e ≡ ResolveFault.NoSuchClass → found ≡ None) }
{
    resolve_value(alloc, classes, &None, value)
}

/// The row with a version in each object of its values, as `resolved` gives it. `NoSuchClass` says that the class of an
/// object of one of them is neither declared nor built in in its version.
pub fn resolved_row(alloc: Global, classes: &Classes, row: &Values) -> Result<Values, ResolveFault>
    ensures ok { IfOk result (λ vs. resolved_row classes.now row.now ≡ Some vs) }
    ensures none { let found = resolved_row classes.now row.now in
        IfErr result (λ e. e ≡ ResolveFault.NoSuchClass → found ≡ None) }
{
    resolve_items(alloc, classes, row.as_slice())
}

/// The value as `resolved` gives it. On an error it is handed back as it was.
pub fn resolve(
    alloc: Global,
    classes: &Classes,
    value: Value,
) -> Result<Value, (ResolveFault, Value)>
    ensures ok { IfOk result (λ v. resolved classes.now value ≡ Some v) }
    ensures unchanged { IfErr result (λ e. e.1 ≡ value) }
    ensures none { let found = resolved classes.now value in
        IfErr result (λ e. e.0 ≡ ResolveFault.NoSuchClass → found ≡ None) }
{
    match resolved(alloc, classes, &value) {
        Ok(found) => Ok(found),
        Err(fault) => Err((fault, value)),
    }
}

/// Resolving changes nothing in a value that is resolved.
pub fn resolved_stays()
    ensures { ResolvedStays }
{}

/// A value that is resolved leaves no version open, where no class is declared in version 0.
pub fn resolved_has_versions()
    ensures { ResolvedHasVersions }
{}
