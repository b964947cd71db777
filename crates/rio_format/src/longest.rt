//! The longest list within a value.
ghost use Rattle.std.specs.Prelude.{◌≡◌, map, max, length};
ghost use Rattle.rio_format.specs.{Depth.{greatest}, LongestList.{longest_list_of}};

use crate::value::{Part, Value};

/// How many values the longest list within the value has, at any depth: 0 where there is none. An array is a list, and so
/// are the items of a collection.
#[cycle(longest)]
pub fn longest_list(value: &Value) -> u64
    ensures { result ≡ longest_list_of value.now }
{
    match value {
        Value::List(items) => longest_of_items(items.as_slice()),
        Value::Object { parts, .. } => longest_of_parts(parts.as_slice()),
        Value::Pointed { object, .. } => longest_list(object.get()),
        _ => 0,
    }
}

#[cycle(longest)]
fn longest_of_items(items: &[Value]) -> u64
    ensures { result ≡ max (length items.now) (greatest (map longest_list_of items.now)) }
{
    let mut longest = items.len() as u64;
    for item in items {
        longest = longest.max(longest_list(item));
    }
    longest
}

#[cycle(longest)]
fn longest_of_parts(parts: &[Part]) -> u64
    ensures { result ≡ greatest (map (λ p. longest_list_of p.value) parts.now) }
{
    let mut longest: u64 = 0;
    for part in parts {
        longest = longest.max(longest_list(&part.value));
    }
    longest
}
