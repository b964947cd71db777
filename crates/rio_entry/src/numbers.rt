//! What the leaves of a row say, by name.
ghost use Rattle.std.specs.Prelude.{◌≡◌, ℕ, List, Some, IfOk, OnOk, map, pos, unwrap_or, if◌then◌else◌};
ghost use Rattle.std.specs.Str.{bytes_eq};
ghost use Rattle.rio_format.specs.{Bodies.{Counters}, Counts.{SaysAsFirst, number_by_name}};
ghost use Rattle.rio_machine.specs.Rows.{leaf_column, leaf_numbers_after, shape_columns};
ghost use Rattle.rio_entry.specs.Leaves.{numbers_after};
ghost use Rattle.rio_machine.specs.RowEntries.{count_before, counts_before};

use rio_format::{Value, Values};
use rio_leaf::{Dim, Leaf, Shape};
use rio_num::NoMemory;
use std::alloc::Global;
use std::collections::BTreeMap;

/// What the nearest leaf of each name says. The names are those of the leaves.
pub type Numbers<'a> = BTreeMap<&'a [u8], i128>;

/// The name leads to the number from now on.
pub(crate) fn put_number<'a>(
    numbers: &mut Numbers<'a>,
    name: &'a [u8],
    said: i128,
) -> Result<(), NoMemory>
    ensures { OnOk result
        ((q : List ℕ) →
        number_by_name numbers.new q
        ≡ (if bytes_eq q name.now then Some said else number_by_name numbers.old q)) }
{
    numbers.insert(name, said)?;
    Ok(())
}

/// The leaves with these values stand behind those before.
pub fn note_leaves<'a>(
    leaves: &'a [Leaf],
    values: &[Value],
    numbers: &mut Numbers<'a>,
) -> Result<(), NoMemory>
    ensures { (before : Counters) → SaysAsFirst numbers.old before
        → OnOk result (SaysAsFirst numbers.new (numbers_after leaves.now values.now before)) }
{
    for (k, leaf) in leaves.iter().enumerate() {
        match values.get(k) {
            Some(value) => put_number(numbers, leaf.name.as_slice(), value.number())?,
            None => return Ok(()),
        }
    }
    Ok(())
}

/// The leaves of a branch with these values stand behind those before.
pub(crate) fn note_values<'a>(
    shape: &'a Shape,
    values: &[Value],
    numbers: &mut Numbers<'a>,
) -> Result<(), NoMemory>
    ensures { (before : Counters) → SaysAsFirst numbers.old before
        → OnOk result (SaysAsFirst numbers.new
        (leaf_numbers_after (shape_columns shape.now) values.now before)) }
{
    match shape {
        Shape::Leaves(leaves) => note_leaves(leaves.as_slice(), values, numbers),
        Shape::Class(_) => Ok(()),
    }
}

/// What the nearest leaf of the name says, if there is one.
pub(crate) fn number_said(numbers: &Numbers, name: &[u8]) -> Option<i128>
    ensures { result ≡ number_by_name numbers.now name.now }
{
    numbers.get(name).copied()
}

fn count_said(numbers: &Numbers, name: &[u8]) -> i128
    ensures { result ≡ unwrap_or (number_by_name numbers.now name.now) (pos 0) }
{
    number_said(numbers, name).unwrap_or(0)
}

fn count_of(numbers: &Numbers, dim: &Dim) -> i128
    ensures { (before : Counters) → SaysAsFirst numbers.now before
        → result ≡ count_before dim.now before }
{
    match dim {
        Dim::Counted { counter, .. } => count_said(numbers, counter.as_slice()),
        _ => 0,
    }
}

/// What is counted for each of these leaves, behind leaves that say these numbers: 0 where none of them counts it.
pub fn leaf_counts(alloc: Global, leaves: &[Leaf], numbers: &Numbers) -> Result<Values, NoMemory>
    ensures { (before : Counters) → SaysAsFirst numbers.now before
        → IfOk result (λ counts. counts ≡ counts_before (map leaf_column leaves.now) before) }
{
    let mut counts = Values::new(alloc);
    for leaf in leaves {
        counts.push(Value::Int(count_of(numbers, &leaf.dim)))?;
    }
    Ok(counts)
}

/// The counts beside an entry of a branch, behind leaves that say these numbers.
pub(crate) fn counts_beside(
    alloc: Global,
    shape: &Shape,
    numbers: &Numbers,
) -> Result<Values, NoMemory>
    ensures { (before : Counters) → SaysAsFirst numbers.now before
        → IfOk result (λ counts. counts ≡ counts_before (shape_columns shape.now) before) }
{
    match shape {
        Shape::Leaves(leaves) => leaf_counts(alloc, leaves.as_slice(), numbers),
        Shape::Class(_) => {
            let mut counts = Values::new(alloc);
            counts.push(Value::Int(0))?;
            Ok(counts)
        }
    }
}
