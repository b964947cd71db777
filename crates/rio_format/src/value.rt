//! Values, their depth and copies of them.
ghost use Rattle.std.specs.Prelude.{◌≡◌, min, map, IfOk};
ghost use Rattle.rio_format.specs.Depth.{depth_of, greatest};

use rio_num::{Boxed, Items, Name, NoMemory};
use std::alloc::Global;

/// A list of values.
pub type Values = Items<Value>;

/// The parts of an object, in order.
pub type Parts = Items<Part>;

/// A list of rows. A row has one value for each leaf.
pub type Rows = Items<Values>;

/// A value. The objects that pointers point to are labelled 0, 1, 2 in the order in which they begin.
#[cycle(value)]
#[derive(Drop)]
pub enum Value {
    /// An integer of any width.
    Int(i128),
    /// The bits of a floating-point number of 4 bytes.
    Bits32(u32),
    /// The bits of a floating-point number of 8 bytes.
    Bits64(u64),
    Bool(bool),
    /// A text, as its bytes.
    Text(Name),
    List(Items<Value>),
    /// An object of the class in this version.
    Object {
        class: Name,
        version: i32,
        parts: Items<Part>,
    },
    /// A pointer to an object that begins here.
    Pointed {
        label: u32,
        object: Boxed<Value>,
    },
    /// A pointer to nothing.
    Null,
    /// A pointer to the object of this label.
    Back(u32),
    /// An object that isn't read, of so many bytes.
    Opaque {
        class: Name,
        length: u32,
    },
}

/// A base or a member of an object. The name of a base is empty.
#[cycle(value)]
#[derive(Drop)]
pub struct Part {
    pub name: Name,
    pub value: Value,
}

/// How deep the value goes, or 4,294,967,295 where that is less: an object is one deeper than its deepest
/// part, a list as deep as its deepest item, a pointed object as deep as the object, and all else has depth 0.
#[cycle(depth)]
pub fn depth(value: &Value) -> u32
    ensures { result ≡ min (depth_of value.now) 4294967295 }
{
    match value {
        Value::List(items) => items_depth(items.as_slice()),
        Value::Object { parts, .. } => parts_depth(parts.as_slice()).saturating_add(1),
        Value::Pointed { object, .. } => depth(object.get()),
        _ => 0,
    }
}

#[cycle(depth)]
fn items_depth(items: &[Value]) -> u32
    ensures { result ≡ min (greatest (map depth_of items.now)) 4294967295 }
{
    let mut deepest: u32 = 0;
    for item in items {
        deepest = deepest.max(depth(item));
    }
    deepest
}

#[cycle(depth)]
fn parts_depth(parts: &[Part]) -> u32
    ensures { result ≡ min (greatest (map (λ p. depth_of p.value) parts.now)) 4294967295 }
{
    let mut deepest: u32 = 0;
    for part in parts {
        deepest = deepest.max(depth(&part.value));
    }
    deepest
}

/// An equal value.
#[cycle(copy)]
pub fn copy(alloc: Global, value: &Value) -> Result<Value, NoMemory>
    ensures { IfOk result (λ c. c ≡ value.now) }
{
    match value {
        Value::Int(n) => Ok(Value::Int(*n)),
        Value::Bits32(n) => Ok(Value::Bits32(*n)),
        Value::Bits64(n) => Ok(Value::Bits64(*n)),
        Value::Bool(b) => Ok(Value::Bool(*b)),
        Value::Text(text) => Ok(Value::Text(text.copy()?)),
        Value::List(items) => Ok(Value::List(copy_items(alloc, items.as_slice())?)),
        Value::Object {
            class,
            version,
            parts,
        } => Ok(Value::Object {
            class: class.copy()?,
            version: *version,
            parts: copy_parts(alloc, parts.as_slice())?,
        }),
        Value::Pointed { label, object } => Ok(Value::Pointed {
            label: *label,
            object: Boxed::new(alloc, copy(alloc, object.get())?)?,
        }),
        Value::Null => Ok(Value::Null),
        Value::Back(label) => Ok(Value::Back(*label)),
        Value::Opaque { class, length } => Ok(Value::Opaque {
            class: class.copy()?,
            length: *length,
        }),
    }
}

#[cycle(copy)]
fn copy_items(alloc: Global, items: &[Value]) -> Result<Values, NoMemory>
    ensures { IfOk result (λ c. c ≡ items.now) }
{
    let mut copies = Values::new(alloc);
    for item in items {
        copies.push(copy(alloc, item)?)?;
    }
    Ok(copies)
}

#[cycle(copy)]
fn copy_parts(alloc: Global, parts: &[Part]) -> Result<Parts, NoMemory>
    ensures { IfOk result (λ c. c ≡ parts.now) }
{
    let mut copies = Parts::new(alloc);
    for part in parts {
        copies.push(Part {
            name: part.name.copy()?,
            value: copy(alloc, &part.value)?,
        })?;
    }
    Ok(copies)
}
