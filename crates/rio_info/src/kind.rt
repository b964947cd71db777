//! The kinds of members.
ghost use Rattle.std.specs.Prelude.{◌≡◌, IfOk};
ghost use Rattle.rio_format.specs.{Elements.{counted_kind, fixed_kind, kind_of, own_kind, primitive_by_code, without_star}, declared.kind.Kind.TheVariants.{Inline as InlineKind, Pointer as PointerKind}};

use crate::element::Element;
use rio_format::{Kind, Prim};
use rio_num::{Name, Names, NoMemory};
use std::alloc::Global;

// The single values that a code stands for.
#[tactic(auto, unfolding(rio_format::specs::Elements::primitive_by_code))]
fn primitive_by_code(code: i64) -> Option<Prim>
    ensures { result ≡ primitive_by_code code }
{
    match code {
        1 => Some(Prim::I8),
        2 => Some(Prim::I16),
        3 => Some(Prim::I32),
        4 => Some(Prim::I64),
        5 => Some(Prim::F32),
        8 => Some(Prim::F64),
        11 => Some(Prim::U8),
        12 => Some(Prim::U16),
        13 => Some(Prim::U32),
        14 => Some(Prim::U64),
        16 => Some(Prim::I64),
        17 => Some(Prim::U64),
        18 => Some(Prim::Bool),
        _ => None,
    }
}

// A name without one asterisk at its end.
#[tactic(auto, unfolding(rio_format::specs::Elements::without_star))]
fn without_star(name: &[u8]) -> &[u8]
    ensures { result.now ≡ without_star name.now }
{
    name.strip_suffix(b"*".as_slice()).unwrap_or(name)
}

// An array of so many values. There is none of a negative number of them.
fn fixed_kind(element: &Element) -> Option<Kind>
    ensures { result ≡ fixed_kind element.now }
{
    let of = primitive_by_code(i64::from(element.code) - 20)?;
    match u32::try_from(element.count) {
        Ok(count) => Some(Kind::Fixed { of, count }),
        Err(_) => None,
    }
}

// An array that one of these counters counts.
fn counted_kind(
    alloc: Global,
    counters: &Names,
    element: &Element,
) -> Result<Option<Kind>, NoMemory>
    ensures { IfOk result (λ kind. kind ≡ counted_kind counters.now element.now) }
{
    match (
        primitive_by_code(i64::from(element.code) - 40),
        element.counter,
    ) {
        (Some(of), Some(counter)) if counters.has(counter) => Ok(Some(Kind::Counted {
            of,
            counter: Name::from_slice(alloc, counter)?,
        })),
        _ => Ok(None),
    }
}

fn inline(alloc: Global, class: &[u8]) -> Result<Option<Kind>, NoMemory>
    ensures { IfOk result (λ kind. kind ≡ Some (InlineKind class.now)) }
{
    Ok(Some(Kind::Inline {
        class: Name::from_slice(alloc, class)?,
    }))
}

fn pointer(alloc: Global, class: &[u8]) -> Result<Option<Kind>, NoMemory>
    ensures { IfOk result (λ kind. kind ≡ Some (PointerKind class.now)) }
{
    Ok(Some(Kind::Pointer {
        class: Name::from_slice(alloc, class)?,
    }))
}

// Names, texts, objects and pointers.
#[tactic(auto, unfolding(rio_format::specs::Elements::own_kind))]
fn own_kind(alloc: Global, element: &Element) -> Result<Option<Kind>, NoMemory>
    ensures { IfOk result (λ kind. kind ≡ own_kind element.now) }
{
    match element.code {
        6 => Ok(Some(Kind::Counter)),
        61 | 62 | 63 | 68 => inline(alloc, without_star(element.type_name)),
        64 | 69 => pointer(alloc, without_star(element.type_name)),
        65 => Ok(Some(Kind::Text)),
        66 => inline(alloc, b"TObject"),
        67 => inline(alloc, b"TNamed"),
        _ => Ok(None),
    }
}

/// The kind of a member behind these counters. With a code that stands for none it isn't read.
#[tactic(auto, unfolding(rio_format::specs::Elements::kind_of))]
pub(crate) fn kind_of(alloc: Global, counters: &Names, element: &Element) -> Result<Kind, NoMemory>
    ensures { IfOk result (λ kind. kind ≡ kind_of counters.now element.now) }
{
    if let Some(of) = primitive_by_code(i64::from(element.code)) {
        return Ok(Kind::Plain { of });
    }
    if let Some(kind) = fixed_kind(element) {
        return Ok(kind);
    }
    if let Some(kind) = counted_kind(alloc, counters, element)? {
        return Ok(kind);
    }
    match own_kind(alloc, element)? {
        Some(kind) => Ok(kind),
        None => Ok(Kind::Other { code: element.code }),
    }
}
