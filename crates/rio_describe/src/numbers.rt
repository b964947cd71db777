//! Elements of numbers, single ones and arrays of them.
ghost use Rattle.std.specs.Prelude.{◌≡◌, ◌*◌};
ghost use Rattle.rio_format.specs.{Prims.{width_of}, WrittenElements.{basic_element, counted_element, counter_element, fixed_element, plain_element, primitive_code, primitive_name}};

use crate::element::{Element, ElementClass, TypeName};
use rio_format::{ClassDef, Prim, width_of};

// The code of single values.
fn primitive_code(of: Prim) -> u8
    ensures { result ≡ primitive_code of }
{
    match of {
        Prim::I8 => 1,
        Prim::I16 => 2,
        Prim::I32 => 3,
        Prim::I64 => 16,
        Prim::U8 => 11,
        Prim::U16 => 12,
        Prim::U32 => 13,
        Prim::U64 => 17,
        Prim::Bool => 18,
        Prim::F32 => 5,
        Prim::F64 => 8,
    }
}

fn primitive_name(of: Prim) -> &'static [u8]
    ensures { result.now ≡ primitive_name of }
{
    match of {
        Prim::I8 => b"char",
        Prim::I16 => b"short",
        Prim::I32 => b"int",
        Prim::I64 => b"Long64_t",
        Prim::U8 => b"unsigned char",
        Prim::U16 => b"unsigned short",
        Prim::U32 => b"unsigned int",
        Prim::U64 => b"ULong64_t",
        Prim::Bool => b"bool",
        Prim::F32 => b"float",
        Prim::F64 => b"double",
    }
}

/// An element with a type of C++ itself.
pub(crate) fn basic_element<'a>(
    name: &'a [u8],
    code: i32,
    size: u64,
    type_name: &'static [u8],
) -> Element<'a>
    ensures { result ≡ basic_element name.now code size type_name.now }
{
    Element {
        class: ElementClass::BasicType,
        name,
        code,
        size,
        array: None,
        type_name: TypeName::of(type_name),
    }
}

pub(crate) fn plain_element<'a>(name: &'a [u8], of: Prim) -> Element<'a>
    ensures { result ≡ plain_element name.now of }
{
    let code = i32::from(primitive_code(of));
    basic_element(name, code, width_of(of), primitive_name(of))
}

pub(crate) fn counter_element<'a>(name: &'a [u8]) -> Element<'a>
    ensures { result ≡ counter_element name.now }
{
    basic_element(name, 6, 4, b"int")
}

// How many bytes so many values have.
fn fixed_size(of: Prim, count: u32) -> u64
    ensures { result ≡ width_of of * count }
{
    width_of(of) * u64::from(count)
}

/// An array of so many values.
pub(crate) fn fixed_element<'a>(name: &'a [u8], of: Prim, count: u32) -> Element<'a>
    ensures { result ≡ fixed_element name.now of count }
{
    Element {
        class: ElementClass::BasicType,
        name,
        code: i32::from(primitive_code(of)) + 20,
        size: fixed_size(of, count),
        array: Some(count),
        type_name: TypeName::of(primitive_name(of)),
    }
}

/// An array of the class that another member counts.
pub(crate) fn counted_element<'a>(
    owner: &'a ClassDef,
    name: &'a [u8],
    of: Prim,
    counter: &'a [u8],
) -> Element<'a>
    ensures { result ≡ counted_element owner.now name.now of counter.now }
{
    Element {
        class: ElementClass::BasicPointer { owner, counter },
        name,
        code: i32::from(primitive_code(of)) + 40,
        size: 0,
        array: None,
        type_name: TypeName::pointer_to(primitive_name(of)),
    }
}
