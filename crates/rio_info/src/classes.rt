//! The classes that a list describes.
ghost use Rattle.std.specs.Prelude.{◌≡◌, codes, option_and_then, option_copied, pos, IfOk};
ghost use Rattle.rio_format.specs.{ClassList.{class_with, classes_of, described_class, element_items, item_class, list_items}, ValueParts.{parts_behind}, Accessors.{part_of}};

use crate::members::{bases_of, members_of};
use crate::parts::{base_parts, items_in, list_of, parts_behind, signed_of, text_of, unsigned_of};
use rio_format::{ClassDef, Classes, Part, Value, part_of};
use rio_num::{Name, NoMemory};
use std::alloc::Global;

// The parts of the TObjArray behind the pointer to a class's elements.
fn array_parts(info: &[Part]) -> Option<&[Part]>
    ensures { option_copied result
        ≡ option_and_then (parts_behind (codes "TObjArray") (pos 3)) (part_of
        (codes "fElements") info.now) }
{
    parts_behind(b"TObjArray", 3, part_of(b"fElements", info)?)
}

// The items behind the pointer to a class's elements.
fn element_items(info: &[Part]) -> &[Value]
    ensures { result.now ≡ element_items info.now }
{
    match array_parts(info) {
        Some(array) => list_of(b"items", array),
        None => &[],
    }
}

// A class, by the parts of its TStreamerInfo and those of its TNamed.
fn class_with(alloc: Global, info: &[Part], named: &[Part]) -> Result<ClassDef, NoMemory>
    ensures { IfOk result (λ class. class ≡ class_with info.now named.now) }
{
    let items = element_items(info);
    Ok(ClassDef {
        name: Name::from_slice(alloc, text_of(b"fName", named))?,
        version: signed_of(b"fClassVersion", info),
        sum: unsigned_of(b"fCheckSum", info),
        bases: bases_of(alloc, items)?,
        members: members_of(alloc, items)?,
    })
}

// The class that a pointer's object describes, if it describes one.
#[tactic(auto, unfolding(rio_format::specs::ClassList::described_class))]
fn described_class(alloc: Global, pointer: &Value) -> Result<Option<ClassDef>, NoMemory>
    ensures { IfOk result (λ class. class ≡ described_class pointer.now) }
{
    match parts_behind(b"TStreamerInfo", 9, pointer) {
        Some(info) => match base_parts(b"TNamed", 1, info) {
            Some(named) => Ok(Some(class_with(alloc, info, named)?)),
            None => Ok(None),
        },
        None => Ok(None),
    }
}

// The class that an item of the list describes, if it describes one.
fn class_in(alloc: Global, item: &Value) -> Result<Option<ClassDef>, NoMemory>
    ensures { IfOk result (λ class. class ≡ item_class item.now) }
{
    match items_in(item).first() {
        Some(pointer) => described_class(alloc, pointer),
        None => Ok(None),
    }
}

fn list_items(list: &Value) -> &[Value]
    ensures { result.now ≡ list_items list.now }
{
    match list.parts_of(b"TList", 5) {
        Some(parts) => list_of(b"items", parts),
        None => &[],
    }
}

/// The classes that a list describes, in the order of its items. Every item that describes none is skipped.
#[tactic(auto, unfolding(rio_format::specs::ClassList::classes_of))]
pub(crate) fn classes_of(alloc: Global, list: &Value) -> Result<Classes, NoMemory>
    ensures { IfOk result (λ classes. classes ≡ classes_of list.now) }
{
    let mut classes = Classes::new(alloc);
    for item in list_items(list) {
        if let Some(class) = class_in(alloc, item)? {
            classes.push(class)?;
        }
    }
    Ok(classes)
}
