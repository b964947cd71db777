//! What earlier branches count for the leaves of a branch.
ghost use Rattle.std.specs.Prelude.{◌≡◌, None, Some, IfOk, OnOk, drop, map, slice_get};
ghost use Rattle.std.specs.List.{list_any};
ghost use Rattle.rio_entry.specs.Leaves.{last_number as last_said};
ghost use Rattle.rio_format.specs.{Bodies.{Counters}, Counts.{SaysAsFirst}};
ghost use Rattle.rio_tree.specs.Header.{branch_leaves};
ghost use Rattle.rio_entry.specs.Counted.{noted_branch, noted_branches};
ghost use Rattle.rio_entry.specs.Counters.{counters_are_read, entry_counts, is_refused, leaf_count, number_in_branch, number_said, values_or_none};
ghost use Rattle.rio_entry.specs.Lanes.{number_with, number_if_named};

use crate::tree_row::{BranchRefusals, BranchRows};
use crate::{Numbers, leaf_counts, note_leaves};
use rio_format::{Value, Values};
use rio_leaf::{Dim, Leaf, Shape};
use rio_num::NoMemory;
use rio_tree::{Branch, BranchRefusal};
use std::alloc::Global;

// The branch at `k` is refused.
fn is_refused(refusals: &[Option<BranchRefusal>], k: usize) -> bool
    ensures { result ≡ is_refused (slice_get refusals.now k) }
{
    match refusals.get(k) {
        Some(refusal) => refusal.is_some(),
        None => false,
    }
}

fn is_any_refused(refusals: &[Option<BranchRefusal>], numbers: &[usize]) -> bool
    ensures { result ≡ list_any (λ k. is_refused (slice_get refusals.now k)) numbers.now }
{
    numbers.iter().any(|k| is_refused(refusals, *k))
}

/// None of the branches by whose leaves the branch is counted is refused.
pub(crate) fn counters_are_read(refusals: &BranchRefusals, branch: &Branch) -> bool
    ensures { result ≡ counters_are_read refusals.now branch.now }
{
    !is_any_refused(refusals.as_slice(), branch.counted_by.as_slice())
}

// The number, if the leaf has the name, or else what was found before.
fn number_if_named(name: &[u8], leaf: &Leaf, value: &Value, found: Option<i128>) -> Option<i128>
    ensures { result ≡ number_if_named name.now leaf.now value.now found }
{
    if name == leaf.name.as_slice() {
        Some(value.number())
    } else {
        found
    }
}

// The number that the value at `k` says, if there is one and the leaf has the name, or else what was found before.
fn number_with(
    name: &[u8],
    leaf: &Leaf,
    values: &[Value],
    k: usize,
    found: Option<i128>,
) -> Option<i128>
    ensures { result ≡ number_with name.now leaf.now (drop k values.now) found }
{
    match values.get(k) {
        Some(value) => number_if_named(name, leaf, value, found),
        None => found,
    }
}

// The number of the last leaf of the name, or else what was found before.
fn last_number(name: &[u8], leaves: &[Leaf], values: &[Value], found: Option<i128>) -> Option<i128>
    ensures { result ≡ last_said name.now leaves.now values.now found }
{
    let mut last = found;
    for (k, leaf) in leaves.iter().enumerate() {
        last = number_with(name, leaf, values, k, last);
    }
    last
}

fn branch_leaves(branch: &Branch) -> &[Leaf]
    ensures { result.now ≡ branch_leaves branch.now }
{
    match &branch.def.shape {
        Shape::Leaves(leaves) => leaves.as_slice(),
        Shape::Class(_) => &[],
    }
}

// The values of the branch at `k`.
fn values_there(row: &BranchRows, k: usize) -> &[Value]
    ensures { result.now ≡ values_or_none (slice_get row.now k) }
{
    match row.get(k) {
        Some(values) => values.as_slice(),
        None => &[],
    }
}

fn number_in_branch(
    name: &[u8],
    branches: &[Branch],
    row: &BranchRows,
    k: usize,
    found: Option<i128>,
) -> Option<i128>
    ensures { result ≡ number_in_branch name.now (slice_get branches.now k)
        (values_or_none (slice_get row.now k)) found }
{
    match branches.get(k) {
        Some(branch) => last_number(name, branch_leaves(branch), values_there(row, k), found),
        None => found,
    }
}

// What the branches of these numbers say of the leaf of the name.
fn number_said(
    name: &[u8],
    branches: &[Branch],
    row: &BranchRows,
    counters: &[usize],
) -> Option<i128>
    ensures { result ≡ number_said name.now branches.now row.now counters.now None }
{
    let mut found: Option<i128> = None;
    for k in counters {
        found = number_in_branch(name, branches, row, *k, found);
    }
    found
}

// What is counted for a leaf.
fn leaf_count(branches: &[Branch], row: &BranchRows, counters: &[usize], leaf: &Leaf) -> Value
    ensures { result ≡ leaf_count branches.now row.now counters.now leaf.now }
{
    match &leaf.dim {
        Dim::One => Value::Int(0),
        Dim::Fixed(_) => Value::Int(0),
        Dim::Counted { counter, .. } => {
            Value::Int(number_said(counter.as_slice(), branches, row, counters).unwrap_or(0))
        }
    }
}

// The leaves of the branch at `k` stand behind those before.
fn note_branch<'a>(
    branches: &'a [Branch],
    row: &BranchRows,
    k: usize,
    numbers: &mut Numbers<'a>,
) -> Result<(), NoMemory>
    ensures { (before : Counters) → SaysAsFirst numbers.old before
        → OnOk result (SaysAsFirst numbers.new (noted_branch (slice_get branches.now k)
        (values_or_none (slice_get row.now k)) before)) }
{
    match branches.get(k) {
        Some(branch) => note_leaves(branch_leaves(branch), values_there(row, k), numbers),
        None => Ok(()),
    }
}

// So do the leaves of the branches of these numbers.
fn note_branches<'a>(
    branches: &'a [Branch],
    row: &BranchRows,
    counters: &[usize],
    numbers: &mut Numbers<'a>,
) -> Result<(), NoMemory>
    ensures { (before : Counters) → SaysAsFirst numbers.old before
        → OnOk result
        (SaysAsFirst numbers.new (noted_branches branches.now row.now counters.now before)) }
{
    for k in counters {
        note_branch(branches, row, *k, numbers)?;
    }
    Ok(())
}

// What is counted for each leaf. The numbers of the leaves that count are looked up by their names, so that many leaves that
// are counted by many cost a time linear in both, but for the search in a map.
fn count_by_name(
    alloc: Global,
    branches: &[Branch],
    row: &BranchRows,
    counters: &[usize],
    leaves: &[Leaf],
) -> Result<Values, NoMemory>
    ensures { IfOk result
        (λ counts. counts ≡ map (leaf_count branches.now row.now counters.now) leaves.now) }
{
    let mut numbers = Numbers::new(alloc);
    note_branches(branches, row, counters, &mut numbers)?;
    leaf_counts(alloc, leaves, &numbers)
}

// What is counted for each leaf.
fn count_leaves(
    alloc: Global,
    branches: &[Branch],
    row: &BranchRows,
    counters: &[usize],
    leaves: &[Leaf],
) -> Result<Values, NoMemory>
    ensures { IfOk result
        (λ counts. counts ≡ map (leaf_count branches.now row.now counters.now) leaves.now) }
{
    let mut counts = Values::new(alloc);
    for leaf in leaves {
        counts.push(leaf_count(branches, row, counters, leaf))?;
    }
    Ok(counts)
}

// What is counted for each leaf. One leaf, which most branches have, needs no map.
fn count_any(
    alloc: Global,
    branches: &[Branch],
    row: &BranchRows,
    counters: &[usize],
    leaves: &[Leaf],
) -> Result<Values, NoMemory>
    ensures { IfOk result
        (λ counts. counts ≡ map (leaf_count branches.now row.now counters.now) leaves.now) }
{
    if leaves.len() < 2 {
        count_leaves(alloc, branches, row, counters, leaves)
    } else {
        count_by_name(alloc, branches, row, counters, leaves)
    }
}

/// What is counted for each leaf of a branch by leaves of the branches before it, which have these values. Nothing is
/// given where none of them counts any.
pub(crate) fn entry_counts(
    alloc: Global,
    branches: &[Branch],
    row: &BranchRows,
    branch: &Branch,
) -> Result<Values, NoMemory>
    ensures { IfOk result (λ counts. counts ≡ entry_counts branches.now row.now branch.now) }
{
    let counters = branch.counted_by.as_slice();
    match counters {
        [] => Ok(Values::new(alloc)),
        _ => count_any(alloc, branches, row, counters, branch_leaves(branch)),
    }
}
