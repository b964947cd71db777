//! What stands behind the header of an object.
ghost use Rattle.std.specs.Prelude.{◌≡◌, ℤ, pos, Option, Some, None};
ghost use Rattle.std.specs.Option.{option_copied, option_map, option_map_or};
ghost use Rattle.rio_format.specs.{Bodies.{body_of, built_in, by_description, described, headed_version, row_of}, Slots.{declared_body}, Lists.{listed}, Classes.{judged}, declared.class.ClassDef.{ClassDef as Class}};

use crate::built_in::BuiltIn;
use crate::lists::ClassLists;
use crate::{ClassDef, Classes, Header};
use std::marker::Model;

/// What an object has behind its header.
#[derive(Drop)]
pub struct Body<'a>(pub BodyKind<'a>);

impl<'a> Model for Body<'a> {
    ghost use Rattle.rio_format.specs.Bodies.{Body};

    ghost Value = { Body };

    ghost use Rattle.rio_format.specs.BodyKinds.{body_of_kind};

    ghost view = { λ body. body_of_kind body.0 };
}

/// The kinds of bodies. Those of TNamed and TObjString are like those of described classes.
#[derive(Clone, Copy)]
pub enum BodyKind<'a> {
    /// The bases and members of this class.
    Described(&'a ClassDef),
    /// A TNamed.
    Named,
    /// A TObjString.
    ObjString,
    /// A TList.
    Listed,
    /// A TObjArray.
    Arrayed,
    /// Bytes that aren't read.
    Opaque,
}

fn by_description<'a>(found: Option<(&'a ClassDef, bool)>) -> Body<'a>
    ensures { (class : Option Class) →
        option_map (λ p. (p.0.now, p.1)) found.entry ≡ option_map judged class →
        result ≡ by_description class }
{
    match found {
        Some((class, true)) => Body(BodyKind::Described(class)),
        _ => Body(BodyKind::Opaque),
    }
}

// The body of a built-in class, behind its header.
fn own_body<'a>(class: BuiltIn) -> Option<Body<'a>>
    ensures { result ≡ (row_of class).body }
{
    match class {
        BuiltIn::Named => Some(Body(BodyKind::Named)),
        BuiltIn::ObjString => Some(Body(BodyKind::ObjString)),
        BuiltIn::Listed => Some(Body(BodyKind::Listed)),
        BuiltIn::Arrayed => Some(Body(BodyKind::Arrayed)),
        _ => None,
    }
}

fn built_in<'a>(class: &[u8], version: i32) -> Option<Body<'a>>
    ensures { result ≡ built_in class.now version }
{
    match BuiltIn::headed(class) {
        Some(class) if version == class.version() => own_body(class),
        _ => None,
    }
}

// The version of the class that a checksum picks, or 0.
fn picked_version(found: Option<(&ClassDef, bool)>) -> i32
    ensures { (class : Option Class) →
        option_map (λ p. (p.0.now, p.1)) found.entry ≡ option_map judged class →
        result ≡ option_map_or (λ c. c.version) class (pos 0) }
{
    match found {
        Some((class, _)) => class.version,
        None => 0,
    }
}

/// What stands behind a header of the class.
pub fn body_of<'a>(classes: &'a Classes, class: &[u8], header: &Header) -> Body<'a>
    ensures { result ≡ body_of classes.now class.now header.now.version header.now.sum }
{
    match header.sum {
        Some(sum) => summed_body(classes, class, sum),
        None => versioned_body(classes, class, header.version),
    }
}

// The body that a checksum behind version 0 picks.
fn summed_body<'a>(classes: &'a Classes, class: &[u8], sum: u32) -> Body<'a>
    ensures { (version : ℤ) → result ≡ body_of classes.now class.now version (Some sum) }
{
    let found = classes.find_sum_judged(class, sum);
    match built_in(class, picked_version(found)) {
        Some(body) => body,
        None => by_description(found),
    }
}

// The body that a header of this version has.
fn versioned_body<'a>(classes: &'a Classes, class: &[u8], version: i32) -> Body<'a>
    ensures { result ≡ body_of classes.now class.now version None }
{
    match built_in(class, version) {
        Some(body) => body,
        None => by_description(classes.find_judged(class, version)),
    }
}

// The body of a class that is described.
fn described<'a>(found: Option<&'a ClassDef>) -> Option<Body<'a>>
    ensures { result ≡ option_map described (option_copied found.entry) }
{
    match found {
        Some(class) => Some(Body(BodyKind::Described(class))),
        None => None,
    }
}

/// The body that a class has in a version, if it is built in or described in it.
pub fn declared_body<'a>(classes: &'a Classes, class: &[u8], version: i32) -> Option<Body<'a>>
    ensures { result ≡ declared_body classes.now class.now version }
{
    listed_body(&ClassLists::One(classes), class, version)
}

/// The same where the classes stand in one list or in two.
pub(crate) fn listed_body<'a>(
    classes: &ClassLists<'a>,
    class: &[u8],
    version: i32,
) -> Option<Body<'a>>
    ensures { result ≡ declared_body (listed classes.now) class.now version }
{
    match built_in(class, version) {
        Some(body) => Some(body),
        None => described(classes.find(class, version)),
    }
}

/// The one version of a built-in class with a header.
pub fn headed_version(class: &[u8]) -> Option<i32>
    ensures { result ≡ headed_version class.now }
{
    match BuiltIn::headed(class) {
        Some(class) => Some(class.version()),
        None => None,
    }
}
