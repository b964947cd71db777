//! Which names a class reaches through bases and members by value.
ghost use Rattle.std.specs.Prelude.{◌≡◌, ◌||◌, ◌↔◌, IfOk, OnOk, IsTrue};
ghost use Rattle.std.specs.List.{IsDistinct, list_any};
ghost use Rattle.std.specs.Str.{bytes_eq};
ghost use Rattle.rio_model.specs.Declaring.{IsClosed, has_within, holds, holds_itself, is_built_in_base, is_declared, is_inline};
ghost use Rattle.rio_registry.specs.Reaching.{ComesTo, IsGrown};

use crate::names::{is_built_in_base, is_declared};
use crate::reached::ReachedNames;
use rio_format::{Base, ClassDef, Classes, Kind, Member};
use rio_num::NoMemory;

fn add_bases<'a>(names: &mut ReachedNames<'a>, bases: &'a [Base]) -> Result<(), NoMemory>
    ensures { OnOk result (IsGrown names.old names.new
        (λ n. list_any (λ b. bytes_eq n b.name) bases.now)) }
{
    for base in bases {
        names.add(base.name.as_slice())?;
    }
    Ok(())
}

// Puts the class of a member by value at the end, unless it is there.
fn add_inline<'a>(names: &mut ReachedNames<'a>, kind: &'a Kind) -> Result<(), NoMemory>
    ensures { OnOk result (IsGrown names.old names.new (λ n. is_inline n kind.now)) }
{
    match kind {
        Kind::Inline { class } => names.add(class.as_slice()),
        _ => Ok(()),
    }
}

fn add_members<'a>(names: &mut ReachedNames<'a>, members: &'a [Member]) -> Result<(), NoMemory>
    ensures { OnOk result (IsGrown names.old names.new
        (λ n. list_any (λ m. is_inline n m.kind) members.now)) }
{
    for member in members {
        add_inline(names, &member.kind)?;
    }
    Ok(())
}

// Puts the names that the class has within at the end, but for those that are there.
fn add_within<'a>(names: &mut ReachedNames<'a>, class: &'a ClassDef) -> Result<(), NoMemory>
    ensures { OnOk result (IsGrown names.old names.new (has_within class.now)) }
{
    add_bases(names, class.bases.as_slice())?;
    add_members(names, class.members.as_slice())
}

// Puts the names that the classes of this name hold at the end, but for those that are there. No other class is looked
// at.
fn add_held<'a>(
    names: &mut ReachedNames<'a>,
    classes: &'a Classes,
    outer: &[u8],
) -> Result<(), NoMemory>
    ensures { OnOk result (IsGrown names.old names.new (holds classes.now outer.now)) }
{
    let slice = classes.as_slice();
    let mut at = classes.last_named(outer);
    while let Some(k) = at {
        add_within(names, &slice[k])?;
        at = classes.same_name_before(k);
    }
    Ok(())
}

// Whether the last name is one of these, or one of these reaches it. Each name that is met is followed once.
fn comes_to<'a>(
    mut names: ReachedNames<'a>,
    classes: &'a Classes,
    last: &[u8],
) -> Result<bool, NoMemory>
    requires { IsDistinct bytes_eq names }
    ensures { IfOk result (λ b. IsTrue b ↔ ComesTo classes.now names.entry last.now) }
{
    let mut index: usize = 0;
    while let Some(name) = names.get(index) {
        if last == name {
            return Ok(true);
        }
        add_held(&mut names, classes, name)?;
        index += 1;
    }
    Ok(false)
}

// Whether a declared class may hold one of the name.
fn may_be_held(classes: &Classes, name: &[u8]) -> bool
    ensures { result ≡ (is_declared classes.now name.now || is_built_in_base name.now) }
{
    is_declared(classes, name) || is_built_in_base(name)
}

/// Whether the class would reach its own name, over all versions of all classes. A name that no declared class may hold
/// can be reached in one step alone, so nothing is searched for it.
pub(crate) fn holds_itself(classes: &Classes, class: &ClassDef) -> Result<bool, NoMemory>
    requires { IsClosed classes.now }
    ensures { IfOk result (λ b. b ≡ holds_itself classes.now class.now) }
{
    let own = class.name.as_slice();
    let mut names = ReachedNames::new(class.bases.allocator());
    add_within(&mut names, class)?;
    if !may_be_held(classes, own) {
        return Ok(names.contains(own));
    }
    add_held(&mut names, classes, own)?;
    comes_to(names, classes, own)
}
