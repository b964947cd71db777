//! Which classes have which among their bases.
ghost use Rattle.std.specs.Prelude.{◌≡◌, ◌≤◌, ◌∷◌, [], true, false, length, IfOk};
ghost use Rattle.rio_format.specs.{Bodies.{form_of}, Slots.{body_bases, derives_from, has_base, headed_body, is_headed}, Lists.{listed}, Bases.{Expanded, HaveVisitedBases, Pushed, any_direct, are_targets}, Visits.{base_of}};

use crate::Base;
use crate::base_set::BaseSet;
use crate::body::{Body, BodyKind, listed_body};
use crate::form::{Form, form_of};
use crate::lists::ClassLists;
use rio_num::NoMemory;
use std::alloc::Global;

/// Whether objects of the class begin with a header.
pub fn is_headed(class: &[u8]) -> bool
    ensures { result ≡ is_headed (form_of class.now) }
{
    matches!(form_of(class), Form::Headed)
}

// The body of a class's objects that begin with a header.
fn headed_body<'a>(classes: &ClassLists<'a>, class: &[u8], version: i32) -> Option<Body<'a>>
    ensures { result ≡ headed_body (listed classes.now) class.now version }
{
    if is_headed(class) {
        listed_body(classes, class, version)
    } else {
        None
    }
}

// Whether the base is the target. If not, it is among the visits from then on.
fn push_base<'a>(
    target: &[u8],
    class: &'a [u8],
    version: i32,
    visits: &mut BaseSet<'a>,
) -> Result<bool, NoMemory>
    ensures found { IfOk result
        (λ found. found ≡ true → are_targets target.now (base_of class.now version ∷ []) ≡ true) }
    ensures pushed { IfOk result
        (λ found. found ≡ false →
        Pushed target.now (base_of class.now version ∷ []) visits.old visits.new) }
{
    if class == target {
        return Ok(true);
    }
    visits.put(class, version)?;
    Ok(false)
}

// Whether the target is one of the bases. If not, they are among the visits from then on.
fn push_bases<'a>(
    target: &[u8],
    bases: &'a [Base],
    visits: &mut BaseSet<'a>,
) -> Result<bool, NoMemory>
    ensures found { IfOk result (λ found. found ≡ true → are_targets target.now bases.now ≡ true) }
    ensures pushed { IfOk result
        (λ found. found ≡ false → Pushed target.now bases.now visits.old visits.new) }
{
    for base in bases {
        if push_base(target, base.name.as_slice(), base.version, visits)? {
            return Ok(true);
        }
    }
    Ok(false)
}

// The same for the bases of a body: each built-in class has the base TObject.
fn push_body<'a>(
    target: &[u8],
    body: Option<Body<'a>>,
    visits: &mut BaseSet<'a>,
) -> Result<bool, NoMemory>
    ensures found { IfOk result
        (λ found. found ≡ true → are_targets target.now (body_bases body.entry) ≡ true) }
    ensures pushed { IfOk result
        (λ found. found ≡ false → Pushed target.now (body_bases body.entry) visits.old visits.new) }
{
    let Some(body) = body else {
        return Ok(false);
    };
    match body.0 {
        BodyKind::Described(class) => push_bases(target, class.bases.as_slice(), visits),
        BodyKind::Named => push_base(target, b"TObject", 1, visits),
        BodyKind::ObjString => push_base(target, b"TObject", 1, visits),
        BodyKind::Listed => push_base(target, b"TObject", 1, visits),
        BodyKind::Arrayed => push_base(target, b"TObject", 1, visits),
        BodyKind::Opaque => Ok(false),
    }
}

// Whether the target is a base of a visit from `begin` on. If not, their bases are among the visits from then on.
fn expand_round<'a>(
    classes: &ClassLists<'a>,
    target: &[u8],
    begin: usize,
    visits: &mut BaseSet<'a>,
) -> Result<bool, NoMemory>
    requires begin { begin ≤ length visits.old }
    requires closed { HaveVisitedBases (listed classes.now) target.now visits.old begin }
    ensures found { IfOk result
        (λ found. found ≡ true → any_direct (listed classes.now) target.now visits.old ≡ true) }
    ensures expanded { IfOk result
        (λ found. found ≡ false →
        Expanded (listed classes.now) target.now visits.old visits.new (length visits.old)) }
{
    for k in begin..visits.len() {
        let visit = visits.get(k);
        let body = headed_body(classes, visit.name, visit.version);
        if push_body(target, body, visits)? {
            return Ok(true);
        }
    }
    Ok(false)
}

// Whether the class has the target among its bases, at most `levels` levels deep.
fn has_base<'a>(
    alloc: Global,
    classes: &ClassLists<'a>,
    target: &[u8],
    class: &'a [u8],
    version: i32,
    levels: usize,
) -> Result<bool, NoMemory>
    ensures { IfOk result
        (λ b. b ≡ has_base levels (listed classes.now) target.now class.now version) }
{
    let mut visits = BaseSet::new(alloc);
    visits.put(class, version)?;
    let mut begin = 0;
    let mut left = levels;
    while left > 0 {
        left -= 1;
        let end = visits.len();
        if begin == end {
            return Ok(false);
        }
        if expand_round(classes, target, begin, &mut visits)? {
            return Ok(true);
        }
        begin = end;
    }
    Ok(false)
}

/// Whether the class is the target, or has it among its bases at any depth.
pub fn derives_from<'a>(
    alloc: Global,
    classes: &ClassLists<'a>,
    target: &[u8],
    class: &'a [u8],
    version: i32,
) -> Result<bool, NoMemory>
    ensures { IfOk result
        (λ derives. derives ≡ derives_from (listed classes.now) target.now class.now version) }
{
    if class == target {
        return Ok(true);
    }
    has_base(alloc, classes, target, class, version, classes.len() + 1)
}
