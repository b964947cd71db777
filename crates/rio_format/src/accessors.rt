//! What stands in a value.
ghost use Rattle.std.specs.Prelude.{◌≡◌};
ghost use Rattle.std.specs.Option.{option_copied};
ghost use Rattle.rio_format.specs.Accessors.{class_of_object, integer_in, list_in, number_in, unsigned_integer_in, pointed_object, own_parts, part_of, parts_of, text_bytes_in, truth_in, version_of_object};
ghost use Rattle.rio_format.specs.declared.value.Value.{out-Value};

use crate::value::{Part, Value};

impl Value {
    /// The number that an integer is, and 0 of another value.
    pub fn number(&self) -> i128
        ensures { result ≡ number_in (out-Value self.now) }
    {
        match self {
            Value::Int(n) => *n,
            _ => 0,
        }
    }

    /// An integer that an `i32` holds.
    pub fn as_i32(&self) -> Option<i32>
        ensures { result ≡ integer_in 32 self.now }
    {
        match self {
            Value::Int(n) => i32::try_from(*n).ok(),
            _ => None,
        }
    }

    /// An integer that an `i64` holds.
    pub fn as_i64(&self) -> Option<i64>
        ensures { result ≡ integer_in 64 self.now }
    {
        match self {
            Value::Int(n) => i64::try_from(*n).ok(),
            _ => None,
        }
    }

    /// An integer that a `u32` holds.
    pub fn as_u32(&self) -> Option<u32>
        ensures { result ≡ unsigned_integer_in 32 self.now }
    {
        match self {
            Value::Int(n) => u32::try_from(*n).ok(),
            _ => None,
        }
    }

    /// A truth value.
    pub fn as_bool(&self) -> Option<bool>
        ensures { result ≡ truth_in self.now }
    {
        match self {
            Value::Bool(b) => Some(*b),
            _ => None,
        }
    }

    /// The bytes of a text.
    pub fn as_text(&self) -> Option<&[u8]>
        ensures { option_copied result ≡ text_bytes_in self.now }
    {
        match self {
            Value::Text(text) => Some(text.as_slice()),
            _ => None,
        }
    }

    /// The items of a list.
    pub fn as_list(&self) -> Option<&[Value]>
        ensures { option_copied result ≡ list_in self.now }
    {
        match self {
            Value::List(items) => Some(items.as_slice()),
            _ => None,
        }
    }

    /// The object that begins behind a pointer.
    pub fn pointed_object(&self) -> Option<&Value>
        ensures { option_copied result ≡ pointed_object self.now }
    {
        match self {
            Value::Pointed { object, .. } => Some(object.get()),
            _ => None,
        }
    }

    /// The class of an object. It is empty for another value.
    pub fn class(&self) -> &[u8]
        ensures { result.now ≡ class_of_object self.now }
    {
        match self {
            Value::Object { class, .. } => class.as_slice(),
            _ => &[],
        }
    }

    /// The version of an object, and 0 for another value.
    pub fn version(&self) -> i32
        ensures { result ≡ version_of_object self.now }
    {
        match self {
            Value::Object { version, .. } => *version,
            _ => 0,
        }
    }

    /// The object's own parts. There are none in another value.
    pub fn parts(&self) -> &[Part]
        ensures { result.now ≡ own_parts self.now }
    {
        match self {
            Value::Object { parts, .. } => parts.as_slice(),
            _ => &[],
        }
    }

    /// The parts of an object of the class in the version.
    pub fn parts_of(&self, class: &[u8], version: i32) -> Option<&[Part]>
        ensures { option_copied result ≡ parts_of class.now version self.now }
    {
        match self {
            Value::Object {
                class: own,
                version: stated,
                parts,
            } => {
                if own.as_slice() == class && *stated == version {
                    Some(parts.as_slice())
                } else {
                    None
                }
            }
            _ => None,
        }
    }

    /// The value of the object's first own part of that name.
    pub fn part(&self, name: &[u8]) -> Option<&Value>
        ensures { option_copied result ≡ part_of name.now (own_parts self.now) }
    {
        part_of(name, self.parts())
    }
}

/// The value of the first part of that name.
pub fn part_of<'a>(name: &[u8], parts: &'a [Part]) -> Option<&'a Value>
    ensures { option_copied result ≡ part_of name.now parts.now }
{
    for part in parts {
        if part.name.as_slice() == name {
            return Some(&part.value);
        }
    }
    None
}
