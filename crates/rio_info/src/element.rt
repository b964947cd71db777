//! Elements of a class in a class list.
ghost use Rattle.std.specs.Prelude.{◌≡◌, ◌&&◌};
ghost use Rattle.std.specs.Option.{option_copied};
ghost use Rattle.std.specs.Ordering.{int_eq};
ghost use Rattle.std.specs.Str.{bytes_eq};
ghost use Rattle.rio_format.specs.{Descriptions.{is_element}, Elements.{element_of, element_with, layer_element, pointed_element_parts}, declared.value.Value.{out-Value}};

use crate::parts::{base_parts, signed_in, signed_of, text_in, text_of};
use rio_format::{Part, Value, part_of};
use std::marker::Model;

/// What an element of a class says: the name and title, the code of its type, how many values an array
/// has, the type's name, the version that a TStreamerBase says, and the name of the counter that a
/// TStreamerBasicPointer says.
#[derive(Drop)]
pub(crate) struct Element<'a> {
    pub(crate) name: &'a [u8],
    pub(crate) title: &'a [u8],
    pub(crate) code: i32,
    pub(crate) count: i32,
    pub(crate) type_name: &'a [u8],
    pub(crate) base_version: Option<i32>,
    pub(crate) counter: Option<&'a [u8]>,
}

impl<'a> Model for Element<'a> {
    ghost use Rattle.std.specs.Option.{option_copied};
    ghost use Rattle.rio_format.specs.Elements.{Element as Said};

    ghost Value = { Said };

    ghost view = { λ e. record {
      name = e.name.now;
      title = e.title.now;
      code = e.code;
      count = e.count;
      type_name = e.type_name.now;
      base_version = e.base_version;
      counter = option_copied e.counter;
    } };
}

// Whether a class in a version is the known one of this name.
fn is_class(class: &[u8], version: i32, name: &[u8], known: i32) -> bool
    ensures { result ≡ (bytes_eq name.now class.now && int_eq known version) }
{
    name == class && known == version
}

// Whether an element may be an object of this class in this version.
fn is_element(class: &[u8], version: i32) -> bool
    ensures { result ≡ is_element class.now version }
{
    is_class(class, version, b"TStreamerBase", 3)
        || is_class(class, version, b"TStreamerBasicPointer", 2)
        || is_class(class, version, b"TStreamerBasicType", 2)
        || is_class(class, version, b"TStreamerObject", 2)
        || is_class(class, version, b"TStreamerObjectAny", 2)
        || is_class(class, version, b"TStreamerObjectPointer", 2)
        || is_class(class, version, b"TStreamerObjectAnyPointer", 1)
        || is_class(class, version, b"TStreamerString", 2)
}

fn parts_of_element(value: &Value) -> Option<&[Part]>
    ensures { option_copied result ≡ layer_element (out-Value value.now) }
{
    match value {
        Value::Object {
            class,
            version,
            parts,
        } => {
            if is_element(class.as_slice(), *version) {
                Some(parts.as_slice())
            } else {
                None
            }
        }
        _ => None,
    }
}

// The parts of an object of one of the classes of elements, where it begins behind a pointer.
fn pointed_element_parts(pointer: &Value) -> Option<&[Part]>
    ensures { option_copied result ≡ pointed_element_parts pointer.now }
{
    parts_of_element(pointer.pointed_object()?)
}

fn element_with<'a>(own: &'a [Part], stated: &'a [Part], named: &'a [Part]) -> Element<'a>
    ensures { result ≡ element_with own.now stated.now named.now }
{
    Element {
        name: text_of(b"fName", named),
        title: text_of(b"fTitle", named),
        code: signed_of(b"fType", stated),
        count: signed_of(b"fArrayLength", stated),
        type_name: text_of(b"fTypeName", stated),
        base_version: part_of(b"fBaseVersion", own).map(|value| signed_in(value)),
        counter: part_of(b"fCountName", own).map(|value| text_in(value)),
    }
}

/// What an item of a class's elements says. Null, a reference, an object of another class or version, and
/// one whose TStreamerElement or TNamed is of another version say nothing.
#[tactic(auto, unfolding(rio_format::specs::Elements::element_of))]
pub(crate) fn element_of(pointer: &Value) -> Option<Element<'_>>
    ensures { result ≡ element_of pointer.now }
{
    let own = pointed_element_parts(pointer)?;
    let stated = base_parts(b"TStreamerElement", 4, own)?;
    let named = base_parts(b"TNamed", 1, stated)?;
    Some(element_with(own, stated, named))
}
