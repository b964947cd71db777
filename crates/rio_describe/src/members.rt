//! Elements of the bases and members of a class.
ghost use Rattle.std.specs.Prelude.{◌≡◌};
ghost use Rattle.rio_format.specs.{Lists.{listed}, WrittenElements.{base_code, base_element, inline_element, kind_element, member_element, pointer_element, text_element}};

use crate::element::{Element, ElementClass, TypeName};
use crate::judged::JudgedLists;
use crate::numbers::{
    basic_element, counted_element, counter_element, fixed_element, plain_element,
};
use crate::reach::reaches_object;
use rio_format::{Base, ClassDef, Kind, Member};

// ---- bases

fn base_code(class: &[u8]) -> u8
    ensures { result ≡ base_code class.now }
{
    if class == b"TObject".as_slice() {
        66
    } else if class == b"TNamed".as_slice() {
        67
    } else {
        0
    }
}

/// What is written for a base of a class.
pub fn base_element<'a>(base: &'a Base) -> Element<'a>
    ensures { result ≡ base_element base.now }
{
    let name = base.name.as_slice();
    Element {
        class: ElementClass::Base {
            version: base.version,
        },
        name,
        code: i32::from(base_code(name)),
        size: 0,
        array: None,
        type_name: TypeName::of(b"BASE"),
    }
}

// ---- members

fn text_element<'a>(name: &'a [u8]) -> Element<'a>
    ensures { result ≡ text_element name.now }
{
    Element {
        class: ElementClass::Text,
        name,
        code: 65,
        size: 0,
        array: None,
        type_name: TypeName::of(b"TString"),
    }
}

// An object within the object, by whether it reaches TObject.
fn inline_element<'a>(reaches: bool, name: &'a [u8], class: &'a [u8]) -> Element<'a>
    ensures { result ≡ inline_element reaches name.now class.now }
{
    let (own, code) = if reaches {
        (ElementClass::Object, 61)
    } else {
        (ElementClass::ObjectAny, 62)
    };
    Element {
        class: own,
        name,
        code,
        size: 0,
        array: None,
        type_name: TypeName::of(class),
    }
}

// A pointer, by whether its class reaches TObject.
fn pointer_element<'a>(reaches: bool, name: &'a [u8], class: &'a [u8]) -> Element<'a>
    ensures { result ≡ pointer_element reaches name.now class.now }
{
    let (own, code) = if reaches {
        (ElementClass::ObjectPointer, 64)
    } else {
        (ElementClass::ObjectAnyPointer, 69)
    };
    Element {
        class: own,
        name,
        code,
        size: 0,
        array: None,
        type_name: TypeName::pointer_to(class),
    }
}

// A member of the class, among these classes.
fn kind_element<'a>(
    classes: &JudgedLists,
    owner: &'a ClassDef,
    name: &'a [u8],
    kind: &'a Kind,
) -> Element<'a>
    ensures { result ≡ kind_element (listed classes.now) owner.now name.now kind.now }
{
    match kind {
        Kind::Plain { of } => plain_element(name, *of),
        Kind::Counter => counter_element(name),
        Kind::Fixed { of, count } => fixed_element(name, *of, *count),
        Kind::Counted { of, counter } => counted_element(owner, name, *of, counter.as_slice()),
        Kind::Text => text_element(name),
        Kind::Inline { class } => {
            let class = class.as_slice();
            inline_element(reaches_object(classes, class), name, class)
        }
        Kind::Pointer { class } => {
            let class = class.as_slice();
            pointer_element(reaches_object(classes, class), name, class)
        }
        Kind::Other { code } => basic_element(name, *code, 0, b""),
    }
}

/// What is written for a member of the class `owner`. Whether an object or a pointer is one of TObject, or of a class
/// that has it among its bases, is known of the classes that are given.
pub fn member_element<'a>(
    classes: &JudgedLists,
    owner: &'a ClassDef,
    member: &'a Member,
) -> Element<'a>
    ensures { result ≡ member_element (listed classes.now) owner.now member.now }
{
    kind_element(classes, owner, member.name.as_slice(), &member.kind)
}
