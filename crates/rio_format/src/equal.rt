//! Whether two values are equal.
ghost use Rattle.std.specs.Prelude.{◌≡◌, ◌↔◌, IsTrue};
ghost use Rattle.rio_format.specs.declared.value.Value.{List as Items, Object, Opaque, Pointed};

use crate::{Part, Value};
use rio_num::Name;

#[cycle(equal)]
fn is_equal(a: &Value, b: &Value) -> bool
    ensures { IsTrue result ↔ (a.now ≡ b.now) }
{
    match a {
        Value::Int(m) => matches!(b, Value::Int(n) if m == n),
        Value::Bits32(m) => matches!(b, Value::Bits32(n) if m == n),
        Value::Bits64(m) => matches!(b, Value::Bits64(n) if m == n),
        Value::Bool(m) => matches!(b, Value::Bool(n) if m == n),
        Value::Text(m) => matches!(b, Value::Text(n) if m == n),
        Value::List(items) => is_list(items.as_slice(), b),
        Value::Object {
            class,
            version,
            parts,
        } => is_object(parts.as_slice(), class, *version, b),
        Value::Pointed { label, object } => is_pointed(object.get(), *label, b),
        Value::Null => matches!(b, Value::Null),
        Value::Back(m) => matches!(b, Value::Back(n) if m == n),
        Value::Opaque { class, length } => is_opaque(class, *length, b),
    }
}

// Whether the value is the list of these items.
#[cycle(equal)]
fn is_list(items: &[Value], value: &Value) -> bool
    ensures { IsTrue result ↔ (Items items.now ≡ value.now) }
{
    match value {
        Value::List(others) => are_equal(items, others.as_slice()),
        _ => false,
    }
}

// Whether the value is the object of the class in the version with these parts.
#[cycle(equal)]
fn is_object(parts: &[Part], class: &Name, version: i32, value: &Value) -> bool
    ensures { IsTrue result ↔ (Object class.now version parts.now ≡ value.now) }
{
    match value {
        Value::Object {
            class: own,
            version: stated,
            parts: others,
        } => class == own && version == *stated && are_equal_parts(parts, others.as_slice()),
        _ => false,
    }
}

// Whether the value is the pointer to the object that begins here, with the label.
#[cycle(equal)]
fn is_pointed(object: &Value, label: u32, value: &Value) -> bool
    ensures { IsTrue result ↔ (Pointed label object.now ≡ value.now) }
{
    match value {
        Value::Pointed {
            label: own,
            object: other,
        } => label == *own && is_equal(object, other.get()),
        _ => false,
    }
}

// Whether the value is the object of the class that isn't read, of so many bytes.
fn is_opaque(class: &Name, length: u32, value: &Value) -> bool
    ensures { IsTrue result ↔ (Opaque class.now length ≡ value.now) }
{
    match value {
        Value::Opaque {
            class: own,
            length: stated,
        } => class == own && length == *stated,
        _ => false,
    }
}

#[cycle(equal)]
fn are_equal(a: &[Value], b: &[Value]) -> bool
    ensures { IsTrue result ↔ (a.now ≡ b.now) }
{
    if a.len() != b.len() {
        return false;
    }
    'pairs: for (x, y) in a.iter().zip(b) {
        if !is_equal(x, y) {
            return false;
        }
    }
    true
}

#[cycle(equal)]
fn is_equal_part(a: &Part, b: &Part) -> bool
    ensures { IsTrue result ↔ (a.now ≡ b.now) }
{
    a.name == b.name && is_equal(&a.value, &b.value)
}

#[cycle(equal)]
fn are_equal_parts(a: &[Part], b: &[Part]) -> bool
    ensures { IsTrue result ↔ (a.now ≡ b.now) }
{
    if a.len() != b.len() {
        return false;
    }
    'pairs: for (x, y) in a.iter().zip(b) {
        if !is_equal_part(x, y) {
            return false;
        }
    }
    true
}

impl PartialEq for Value {
    ghost use Rattle.rio_format.specs.{Codes.{is_coded_same}, CodeLaws.{coded_per}};
    ghost use Rattle.rio_format.specs.contracts.value.Value as values;

    ghost eq = { is_coded_same values.the_row.coded };

    ghost laws = { coded_per values.the_row.coded };

    fn eq(&self, other: &Value) -> bool
        ensures coded { result ≡ is_coded_same values.the_row.coded self.now other.now }
        ensures same { IsTrue result ↔ (self.now ≡ other.now) }
    {
        is_equal(self, other)
    }
}

impl PartialEq for Part {
    ghost use Rattle.rio_format.specs.{Codes.{is_coded_same}, CodeLaws.{coded_per}};
    ghost use Rattle.rio_format.specs.contracts.value.Part as parts;

    ghost eq = { is_coded_same parts.the_row.coded };

    ghost laws = { coded_per parts.the_row.coded };

    fn eq(&self, other: &Part) -> bool
        ensures coded { result ≡ is_coded_same parts.the_row.coded self.now other.now }
        ensures same { IsTrue result ↔ (self.now ≡ other.now) }
    {
        is_equal_part(self, other)
    }
}
