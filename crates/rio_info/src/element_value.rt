//! The elements of class lists, as values.
ghost use Rattle.std.specs.Prelude.{◌≡◌, ◌++◌, IfOk};
ghost use Rattle.rio_format.specs.{WrittenElements.{count_parts}, WrittenList.{element_object, element_parts, index_list}};
ghost use Rattle.rio_describe.specs.ElementClasses.{added_parts};

use rio_describe::{Element, ElementClass, TypeName};
use rio_format::{ClassDef, PartList, Value, Values, titled_object};
use rio_num::{Name, NoMemory};
use std::alloc::Global;

// The greatest index in each of five dimensions, of which there is one at most.
fn index_list(alloc: Global, count: u32) -> Result<Value, NoMemory>
    ensures { IfOk result (λ value. value ≡ index_list count) }
{
    let mut items = Values::with_capacity(alloc, 5)?;
    items.push(Value::Int(i128::from(count)))?;
    items.push(Value::Int(0))?;
    items.push(Value::Int(0))?;
    items.push(Value::Int(0))?;
    items.push(Value::Int(0))?;
    Ok(Value::List(items))
}

// The name of the element's type.
fn type_text(alloc: Global, type_name: &TypeName) -> Result<Name, NoMemory>
    ensures { IfOk result (λ name. name ≡ type_name.now) }
{
    let mut name = Name::from_slice(alloc, type_name.name)?;
    if type_name.is_pointer {
        name.push(b'*')?;
    }
    Ok(name)
}

// What the element says as a TStreamerElement.
#[tactic(auto, unfolding(rio_format::specs::WrittenList::element_parts))]
fn element_parts(alloc: Global, element: &Element) -> Result<PartList, NoMemory>
    ensures { IfOk result (λ list. list ≡ element_parts element.now) }
{
    let count = element.array.unwrap_or(0);
    let type_name = type_text(alloc, &element.type_name)?;
    PartList::new(alloc)
        .with(b"", titled_object(alloc, element.name, Name::new(alloc))?)?
        .with_int(b"fType", element.code)?
        .with_number(b"fSize", element.size)?
        .with_number(b"fArrayLength", u64::from(count))?
        .with_number(b"fArrayDim", u64::from(element.array.is_some()))?
        .with(b"fMaxIndex", index_list(alloc, count)?)?
        .with(b"fTypeName", Value::Text(type_name))
}

// These parts, and behind them which member of which class counts the values.
fn with_counter(parts: PartList, owner: &ClassDef, counter: &[u8]) -> Result<PartList, NoMemory>
    ensures { IfOk result (λ list. list ≡ parts ++ count_parts owner.now counter.now) }
{
    parts
        .with_int(b"fCountVersion", owner.version)?
        .with_text(b"fCountName", counter)?
        .with_text(b"fCountClass", owner.name.as_slice())
}

// These parts, and behind them what the class of an element adds.
fn with_added(parts: PartList, class: ElementClass) -> Result<PartList, NoMemory>
    ensures { IfOk result (λ list. list ≡ parts ++ added_parts class.entry) }
{
    match class {
        ElementClass::Base { version } => parts.with_int(b"fBaseVersion", version),
        ElementClass::BasicPointer { owner, counter } => with_counter(parts, owner, counter),
        _ => Ok(parts),
    }
}

/// The object of an element.
#[tactic(auto, unfolding(rio_format::specs::WrittenList::element_object))]
pub(crate) fn element_object(alloc: Global, element: &Element) -> Result<Value, NoMemory>
    ensures { IfOk result (λ value. value ≡ element_object element.now) }
{
    let stated = element_parts(alloc, element)?.object(b"TStreamerElement", 4)?;
    let parts = PartList::new(alloc).with(b"", stated)?;
    with_added(parts, element.class)?.object(
        element.class_name(),
        i32::from(element.class_version()),
    )
}
