//! The bases and members of a class, by its elements.
ghost use Rattle.std.specs.Prelude.{◌≡◌, ℕ, List, [], map, is_some, option_and_then, option_map, IfOk, OnOk};
ghost use Rattle.std.specs.List.{list_any};
ghost use Rattle.std.specs.Str.{bytes_eq};
ghost use Rattle.rio_format.specs.Elements.{base_of_element, bases_of, counters_behind, element_of, member_of, members_of};

use crate::element::{Element, element_of};
use crate::kind::kind_of;
use rio_format::{Base, Bases, Kind, Member, Members, Value};
use rio_num::{Name, Names, NoMemory};
use std::alloc::Global;

// The version in which the class has the base that an element is, if it is one.
fn base_version(element: &Element) -> Option<i32>
    ensures { option_map (λ version. record { name = element.now.name; version = version }) result
        ≡ base_of_element element.now }
{
    let version = element.base_version?;
    if matches!(element.code, 0 | 66 | 67) {
        Some(version)
    } else {
        None
    }
}

// The base that an item is, if it is one.
fn base_in(alloc: Global, item: &Value) -> Result<Option<Base>, NoMemory>
    ensures { IfOk result (λ base. base ≡ option_and_then base_of_element (element_of item.now)) }
{
    match element_of(item) {
        Some(element) => match base_version(&element) {
            Some(version) => Ok(Some(Base {
                name: Name::from_slice(alloc, element.name)?,
                version,
            })),
            None => Ok(None),
        },
        None => Ok(None),
    }
}

/// The bases that these items are.
pub(crate) fn bases_of(alloc: Global, items: &[Value]) -> Result<Bases, NoMemory>
    ensures { IfOk result (λ bases. bases ≡ bases_of (map element_of items.now)) }
{
    let mut bases = Bases::new(alloc);
    for item in items {
        if let Some(base) = base_in(alloc, item)? {
            bases.push(base)?;
        }
    }
    Ok(bases)
}

fn is_base(element: &Option<Element>) -> bool
    ensures { result ≡ is_some (option_and_then base_of_element element.now) }
{
    match element {
        Some(element) => base_version(element).is_some(),
        None => false,
    }
}

// A member that isn't read.
fn unread(alloc: Global) -> Result<Member, NoMemory>
    ensures { IfOk result (λ member. member ≡ member_of [] None) }
{
    Ok(Member {
        name: Name::from_slice(alloc, b"?")?,
        kind: Kind::Other { code: 0 },
        title: Name::new(alloc),
    })
}

fn member_of(alloc: Global, counters: &Names, element: &Option<Element>) -> Result<Member, NoMemory>
    ensures { IfOk result (λ member. member ≡ member_of counters.now element.now) }
{
    match element {
        Some(element) => Ok(Member {
            name: Name::from_slice(alloc, element.name)?,
            kind: kind_of(alloc, counters, element)?,
            title: Name::from_slice(alloc, element.title)?,
        }),
        None => unread(alloc),
    }
}

// A counter may count the members behind it.
fn note_counter<'a>(counters: &mut Names<'a>, element: &Option<Element<'a>>) -> Result<(), NoMemory>
    ensures { OnOk result ((other : List ℕ) → list_any (bytes_eq other) counters.new
        ≡ list_any (bytes_eq other) (counters_behind element.now counters.old)) }
{
    match element {
        Some(element) if element.code == 6 => counters.note(element.name),
        _ => Ok(()),
    }
}

/// The members that these items are. Each name of a counter is looked for in a set of those before it.
pub(crate) fn members_of(alloc: Global, items: &[Value]) -> Result<Members, NoMemory>
    ensures { IfOk result (λ members. members ≡ members_of [] (map element_of items.now)) }
{
    let mut members = Members::new(alloc);
    let mut counters = Names::new(alloc);
    for item in items {
        let element = element_of(item);
        if !is_base(&element) {
            members.push(member_of(alloc, &counters, &element)?)?;
            note_counter(&mut counters, &element)?;
        }
    }
    Ok(members)
}
