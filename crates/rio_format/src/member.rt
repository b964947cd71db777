//! The members of an object, its own and those of its bases.
ghost use Rattle.std.specs.Prelude.{◌≡◌};
ghost use Rattle.std.specs.List.{flat_map};
ghost use Rattle.std.specs.Option.{option_copied};
ghost use Rattle.rio_format.specs.{Accessors.{part_of}, PartsWithBases.{member_in, parts_of_base}};

use crate::accessors::part_of;
use crate::value::{Part, Value};

// The member of that name, if the part is a base that has one.
#[cycle(member)]
fn member_of_base<'a>(name: &[u8], part: &'a Part) -> Option<&'a Value>
    ensures { option_copied result ≡ part_of name.now (parts_of_base part.now) }
{
    if part.name.is_empty() {
        member(name, &part.value)
    } else {
        None
    }
}

// The member of that name of the first base that has one.
#[cycle(member)]
fn base_member<'a>(name: &[u8], parts: &'a [Part]) -> Option<&'a Value>
    ensures { option_copied result ≡ part_of name.now (flat_map parts_of_base parts.now) }
{
    for part in parts {
        if let Some(value) = member_of_base(name, part) {
            return Some(value);
        }
    }
    None
}

#[cycle(member)]
fn member<'a>(name: &[u8], value: &'a Value) -> Option<&'a Value>
    ensures { option_copied result ≡ member_in name.now value.now }
{
    match value {
        Value::Object { parts, .. } => match part_of(name, parts.as_slice()) {
            Some(value) => Some(value),
            None => base_member(name, parts.as_slice()),
        },
        _ => None,
    }
}

impl Value {
    /// The value of the member of that name: of the first part of that name among the object's own, or else among those of
    /// its bases, of which the first is searched with its own bases before the next.
    pub fn member(&self, name: &[u8]) -> Option<&Value>
        ensures { option_copied result ≡ member_in name.now self.now }
    {
        member(name, self)
    }
}
