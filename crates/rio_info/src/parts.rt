//! What a class list says in the parts of its objects, by their names.
ghost use Rattle.std.specs.Prelude.{◌≡◌};
ghost use Rattle.std.specs.Option.{option_copied};
ghost use Rattle.rio_format.specs.ValueParts.{base_parts, items_in, list_of, parts_behind, signed_in, signed_of, text_in, text_in_part, unsigned_in, unsigned_of};

use rio_format::{Part, Value, part_of};

/// The parts of an object of the class in the version, where it begins behind a pointer.
pub(crate) fn parts_behind<'a>(class: &[u8], version: i32, pointer: &'a Value) -> Option<&'a [Part]>
    ensures { option_copied result ≡ parts_behind class.now version pointer.now }
{
    pointer.pointed_object()?.parts_of(class, version)
}

/// The values in a list. There are none in another value.
pub(crate) fn items_in(value: &Value) -> &[Value]
    ensures { result.now ≡ items_in value.now }
{
    value.as_list().unwrap_or(&[])
}

/// The bytes of a text. There are none in another value.
pub(crate) fn text_in(value: &Value) -> &[u8]
    ensures { result.now ≡ text_in value.now }
{
    value.as_text().unwrap_or(&[])
}

/// A number that an `i32` holds, and 0 for another value.
pub(crate) fn signed_in(value: &Value) -> i32
    ensures { result ≡ signed_in value.now }
{
    value.as_i32().unwrap_or(0)
}

/// A number that a `u32` holds, and 0 for another value.
pub(crate) fn unsigned_in(value: &Value) -> u32
    ensures { result ≡ unsigned_in value.now }
{
    value.as_u32().unwrap_or(0)
}

/// What stands in the part of that name. A list or text is empty, and a number 0, where there is none.
pub(crate) fn list_of<'a>(name: &[u8], parts: &'a [Part]) -> &'a [Value]
    ensures { result.now ≡ list_of name.now parts.now }
{
    match part_of(name, parts) {
        Some(value) => items_in(value),
        None => &[],
    }
}

pub(crate) fn text_of<'a>(name: &[u8], parts: &'a [Part]) -> &'a [u8]
    ensures { result.now ≡ text_in_part name.now parts.now }
{
    match part_of(name, parts) {
        Some(value) => text_in(value),
        None => &[],
    }
}

pub(crate) fn signed_of(name: &[u8], parts: &[Part]) -> i32
    ensures { result ≡ signed_of name.now parts.now }
{
    match part_of(name, parts) {
        Some(value) => signed_in(value),
        None => 0,
    }
}

pub(crate) fn unsigned_of(name: &[u8], parts: &[Part]) -> u32
    ensures { result ≡ unsigned_of name.now parts.now }
{
    match part_of(name, parts) {
        Some(value) => unsigned_in(value),
        None => 0,
    }
}

/// The parts of the first base, where it is an object of the class in the version.
pub(crate) fn base_parts<'a>(class: &[u8], version: i32, parts: &'a [Part]) -> Option<&'a [Part]>
    ensures { option_copied result ≡ base_parts class.now version parts.now }
{
    part_of(b"", parts)?.parts_of(class, version)
}
