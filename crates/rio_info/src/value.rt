//! The class list that is written, as a value.
ghost use Rattle.std.specs.Prelude.{◌≡◌, ◌+◌, ◌++◌, ◌∷◌, [], map, slice_get, IfOk, OnOk};
ghost use Rattle.std.specs.Option.{option_copied};
ghost use Rattle.rio_format.specs.{declared.value.Value.{Pointed}, Lists.{listed}, WrittenElements.{base_element, member_element, written_elements}};
ghost use Rattle.rio_format.specs.WrittenList.{class_links, class_list_value, class_pointer, element_object, info_object, linked, pointers_from};

use crate::element_value::element_object;
use rio_describe::{Element, JudgedLists, base_element, member_element};
use rio_format::{
    Base, ClassDef, ClassLists, Member, PartList, Value, Values, array_object, list_object,
    titled_object,
};
use rio_num::{Boxed, Name, NoMemory};
use std::alloc::Global;

// The label behind so many from this one on. A list with more than 2^32 labels has no room in memory.
fn label_after(label: u32, taken: usize) -> Result<u32, NoMemory>
    ensures { IfOk result (λ next. next ≡ label + taken) }
{
    match u32::try_from(taken) {
        Ok(taken) => label.checked_add(taken).ok_or(NoMemory),
        Err(_) => Err(NoMemory),
    }
}

// A pointer to the object, which has this label.
fn pointer_with(alloc: Global, label: u32, object: Value) -> Result<Value, NoMemory>
    ensures { IfOk result (λ pointer. pointer ≡ Pointed label object) }
{
    Ok(Value::Pointed {
        label,
        object: Boxed::new(alloc, object)?,
    })
}

// ---- elements

// A pointer to the object of an element is put at the end.
fn put_element(
    alloc: Global,
    pointers: &mut Values,
    label: u32,
    element: &Element,
) -> Result<(), NoMemory>
    ensures { OnOk result
        (pointers.new ≡ pointers.old ++ Pointed label (element_object element.now) ∷ []) }
{
    let object = element_object(alloc, element)?;
    pointers.push(pointer_with(alloc, label, object)?)
}

// Those of bases, which have the labels from this one on.
#[tactic(auto, unfolding(rio_format::specs::WrittenList::pointers_from))]
fn put_bases(
    alloc: Global,
    pointers: &mut Values,
    first: u32,
    bases: &[Base],
) -> Result<(), NoMemory>
    ensures { OnOk result (pointers.new ≡ pointers.old
        ++ pointers_from first (map element_object (map base_element bases.now))) }
{
    let mut label = first;
    for base in bases {
        put_element(alloc, pointers, label, &base_element(base))?;
        label = label_after(label, 1)?;
    }
    Ok(())
}

// Those of members of the class.
#[tactic(auto, unfolding(rio_format::specs::WrittenList::pointers_from))]
fn put_members(
    alloc: Global,
    classes: &JudgedLists,
    pointers: &mut Values,
    first: u32,
    class: &ClassDef,
) -> Result<(), NoMemory>
    ensures { OnOk result (pointers.new ≡ pointers.old ++ pointers_from first
        (map element_object (map (member_element (listed classes.now) class.now) class.now.members))) }
{
    let mut label = first;
    for member in class.members.as_slice() {
        put_element(
            alloc,
            pointers,
            label,
            &member_element(classes, class, member),
        )?;
        label = label_after(label, 1)?;
    }
    Ok(())
}

// Pointers to the elements of the class.
fn element_pointers(
    alloc: Global,
    classes: &JudgedLists,
    first: u32,
    class: &ClassDef,
) -> Result<Values, NoMemory>
    ensures { IfOk result (λ pointers. pointers ≡ pointers_from first
        (map element_object (written_elements (listed classes.now) class.now))) }
{
    let bases = class.bases.as_slice();
    let mut pointers = Values::new(alloc);
    put_bases(alloc, &mut pointers, first, bases)?;
    let behind = label_after(first, bases.len())?;
    put_members(alloc, classes, &mut pointers, behind, class)?;
    Ok(pointers)
}

// ---- classes

// A class with a pointer to its elements.
#[tactic(auto, unfolding(rio_format::specs::WrittenList::info_object))]
fn info_object(alloc: Global, class: &ClassDef, elements: Value) -> Result<Value, NoMemory>
    ensures { IfOk result (λ object. object ≡ info_object class.now elements) }
{
    PartList::new(alloc)
        .with(
            b"",
            titled_object(alloc, class.name.as_slice(), Name::new(alloc))?,
        )?
        .with_number(b"fCheckSum", u64::from(class.sum))?
        .with_int(b"fClassVersion", class.version)?
        .with(b"fElements", elements)?
        .object(b"TStreamerInfo", 9)
}

// The pointer to a class, which has this label; its elements have the next ones.
#[tactic(auto, unfolding(rio_format::specs::WrittenList::class_pointer))]
fn class_pointer(
    alloc: Global,
    classes: &JudgedLists,
    label: u32,
    class: &ClassDef,
) -> Result<Value, NoMemory>
    ensures { IfOk result
        (λ pointer. pointer ≡ class_pointer (listed classes.now) label class.now) }
{
    let elements = element_pointers(alloc, classes, label_after(label, 2)?, class)?;
    let array = array_object(alloc, elements)?;
    let elements = pointer_with(alloc, label_after(label, 1)?, array)?;
    let object = info_object(alloc, class, elements)?;
    pointer_with(alloc, label, object)
}

// An item of the list: the pointer, and an option, which is empty.
fn linked(alloc: Global, pointer: Value) -> Result<Value, NoMemory>
    ensures { IfOk result (λ item. item ≡ linked pointer) }
{
    let mut pair = Values::with_capacity(alloc, 2)?;
    pair.push(pointer)?;
    pair.push(Value::Text(Name::new(alloc)))?;
    Ok(Value::List(pair))
}

// The class at `k`, counted from 0.
fn class_at<'a>(lists: &ClassLists<'a>, k: usize) -> Option<&'a ClassDef>
    ensures { option_copied result ≡ slice_get (listed lists.now) k }
{
    match lists {
        ClassLists::One(classes) => classes.as_slice().get(k),
        ClassLists::Two(first, second) => class_of_two(first.as_slice(), second.as_slice(), k),
        ClassLists::With(first, second, class) => {
            let behind = first.as_slice().len() + second.as_slice().len();
            if k == behind {
                return Some(class);
            }
            class_of_two(first.as_slice(), second.as_slice(), k)
        }
    }
}

fn class_of_two<'a>(first: &'a [ClassDef], second: &'a [ClassDef], k: usize) -> Option<&'a ClassDef>
    ensures { option_copied result ≡ slice_get (first.now ++ second.now) k }
{
    if k < first.len() {
        first.get(k)
    } else {
        second.get(k - first.len())
    }
}

// The items of all classes, which have the labels from 0 on.
#[tactic(auto, unfolding(rio_format::specs::WrittenList::class_links))]
fn class_links(alloc: Global, classes: &JudgedLists) -> Result<Values, NoMemory>
    ensures { IfOk result
        (λ links. links ≡ class_links (listed classes.now) 0 (listed classes.now)) }
{
    let mut links = Values::new(alloc);
    let mut label: u32 = 0;
    for k in 0..classes.lists().len() {
        let Some(class) = class_at(classes.lists(), k) else {
            return Ok(links);
        };
        links.push(linked(alloc, class_pointer(alloc, classes, label, class)?)?)?;
        let elements = class.bases.as_slice().len() + class.members.as_slice().len();
        label = label_after(label_after(label, elements)?, 2)?;
    }
    Ok(links)
}

/// The list of all these classes.
#[tactic(auto, unfolding(rio_format::specs::WrittenList::class_list_value))]
pub(crate) fn class_list_value(alloc: Global, classes: &JudgedLists) -> Result<Value, NoMemory>
    ensures { IfOk result (λ list. list ≡ class_list_value (listed classes.now)) }
{
    list_object(alloc, class_links(alloc, classes)?)
}
