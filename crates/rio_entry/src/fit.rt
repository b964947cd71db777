//! Which values fit a leaf.
ghost use Rattle.std.specs.Prelude.{◌≡◌, ℕ, Some, [], min};
ghost use Rattle.std.specs.List.{list_all};
ghost use Rattle.rio_format.specs.{Fits.{bits32_fits, bits64_fits, int_fits}, Slots.{kinded}, declared.kind.Kind.TheVariants.{Fixed, Plain}};
ghost use Rattle.rio_machine.specs.Rows.{counted_leaf_kind, leaf_kind, sized_kind};
ghost use Rattle.rio_entry.specs.Bounds.{most_values};
ghost use Rattle.rio_entry.specs.Counting.{counters_from};
ghost use Rattle.rio_machine.specs.Entries.{counter_saying};
ghost use Rattle.rio_entry.specs.Leaves.{kind_fits, leaves_fit, single_fits};

use crate::counter::LeafCounters;
use crate::leaf::{given_count, letter_kind, said_count};
use rio_format::{Prim, Value};
use rio_leaf::{Dim, Leaf};

fn int_fits(of: Prim, n: i128) -> bool
    ensures { result ≡ int_fits n (kinded (Plain of)) }
{
    match of {
        Prim::I8 => i8::try_from(n).is_ok(),
        Prim::I16 => i16::try_from(n).is_ok(),
        Prim::I32 => i32::try_from(n).is_ok(),
        Prim::I64 => i64::try_from(n).is_ok(),
        Prim::U8 => u8::try_from(n).is_ok(),
        Prim::U16 => u16::try_from(n).is_ok(),
        Prim::U32 => u32::try_from(n).is_ok(),
        Prim::U64 => u64::try_from(n).is_ok(),
        Prim::Bool | Prim::F32 | Prim::F64 => false,
    }
}

fn bits32_fits(of: Prim, bits: u32) -> bool
    ensures { result ≡ bits32_fits bits (kinded (Plain of)) }
{
    matches!(of, Prim::F32)
}

fn bits64_fits(of: Prim, bits: u64) -> bool
    ensures { result ≡ bits64_fits bits (kinded (Plain of)) }
{
    matches!(of, Prim::F64)
}

/// Whether it is a value of the kind.
pub(crate) fn single_fits(of: Prim, value: &Value) -> bool
    ensures { result ≡ single_fits of value.now }
{
    match value {
        Value::Int(n) => int_fits(of, *n),
        Value::Bits32(bits) => bits32_fits(of, *bits),
        Value::Bits64(bits) => bits64_fits(of, *bits),
        Value::Bool(_) => matches!(of, Prim::Bool),
        _ => false,
    }
}

fn all_fit(of: Prim, values: &[Value]) -> bool
    ensures { result ≡ list_all (single_fits of) values.now }
{
    values.iter().all(|value| single_fits(of, value))
}

/// Whether it is a list of so many values of the kind.
pub(crate) fn list_fits(of: Prim, n: u128, value: &Value) -> bool
    ensures { (count : ℕ) → n ≡ min count most_values
        → result ≡ kind_fits (Fixed of count) value.now }
{
    match value {
        Value::List(items) => items.len() as u128 == n && all_fit(of, items.as_slice()),
        _ => false,
    }
}

/// Whether the value is a list of so many values for each that was counted.
pub(crate) fn counted_fits(of: Prim, times: u32, count: i128, value: &Value) -> bool
    ensures { result ≡ kind_fits (counted_leaf_kind of times (Some count)) value.now }
{
    if count < 0 {
        return false;
    }
    let n = count.unsigned_abs().saturating_mul(u128::from(times));
    list_fits(of, n, value)
}

fn sized_fits(of: Prim, dim: &Dim, count: i128, value: &Value) -> bool
    ensures { result
        ≡ kind_fits (sized_kind (counter_saying dim.now count) of dim.now) value.now }
{
    match dim {
        Dim::One => single_fits(of, value),
        Dim::Fixed(n) => list_fits(of, u128::from(*n), value),
        Dim::Counted { times, .. } => counted_fits(of, *times, count, value),
    }
}

// Whether the value fits the leaf, whose counter says so.
fn leaf_fits(leaf: &Leaf, count: i128, value: &Value) -> bool
    ensures { result
        ≡ kind_fits (leaf_kind (counter_saying leaf.now.dim count) leaf.now) value.now }
{
    match letter_kind(leaf.letter) {
        Some(of) => sized_fits(of, &leaf.dim, count, value),
        None => leaf.letter == b'C' && matches!(value, Value::Text(_)),
    }
}

/// Whether the values fit the leaves, one for each, where these counts are given.
pub(crate) fn leaves_fit(
    leaves: &[Leaf],
    counters: &LeafCounters,
    counts: &[Value],
    row: &[Value],
) -> bool
    requires { counters.now ≡ counters_from leaves.now 0 [] }
    ensures { result ≡ leaves_fit leaves.now counts.now row.now [] }
{
    if leaves.len() != row.len() {
        return false;
    }
    for (k, leaf) in leaves.iter().enumerate() {
        let count = said_count(counters.get(k), given_count(counts, k), &row[..k]);
        if !leaf_fits(leaf, count, &row[k]) {
            return false;
        }
    }
    true
}
