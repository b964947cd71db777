//! The next row of a scan.
ghost use Rattle.std.specs.Prelude.{◌≡◌, ◌<◌, ◌^◌, IfOk, IsTrue, length, map, slice_get, Err, ◌↔◌};
ghost use Rattle.rio_num.specs.Answers.{GivesUnless};
ghost use Rattle.rio_machine.specs.declared.entry_fault.EntryFault.TheVariants.{NoMemory as OutOfMemory};
ghost use Rattle.rio_machine.specs.RowEntries.{row_in};
ghost use Rattle.rio_entry.specs.TreeCounters.{tree_counters};
ghost use Rattle.rio_index.specs.Scan.{broken_at, entry_among, held_entry, read_branches, read_entries, read_numbers};

use crate::lane::{Held, Lane};
use rio_entry::{EntryFault, RowPart, TreeCounters, broken_branch, read_row};
use rio_format::{Classes, Values};
use rio_num::NoMemory;
use rio_tree::Branch;
use std::alloc::Global;

// The bytes of the entry in the basket that is held.
fn held_entry(entry: u64, held: &Option<Held>) -> &[u8]
    ensures same { result.now ≡ held_entry entry held.now }
    ensures short { length result.now < 2 ^ 32 }
{
    match held {
        Some(held) => entry_in(entry, held),
        None => &[],
    }
}

fn entry_in(entry: u64, held: &Held) -> &[u8]
    ensures same { result.now ≡ entry_among entry held.now }
    ensures short { length result.now < 2 ^ 32 }
{
    match held
        .entries
        .entry(entry.saturating_sub(held.first) as usize)
    {
        Some(bytes) => bytes,
        None => &[],
    }
}

// The branches that are read, with the entries of a row.
fn row_parts<'a>(
    alloc: Global,
    entry: u64,
    branches: &'a [Branch],
    counters: &'a TreeCounters,
    lanes: &'a [Lane],
) -> Result<Vec<RowPart<'a>>, NoMemory>
    requires counted { counters.now ≡ tree_counters branches.now }
    requires lanes { length branches.now ≡ length lanes.now }
    ensures branches { IfOk result
        (λ parts. map (λ part. part.branch.now) parts.items ≡ read_branches branches.now lanes.now) }
    ensures entries { IfOk result
        (λ parts. map (λ part. part.entry.now) parts.items ≡ read_entries entry lanes.now) }
{
    let mut parts = Vec::new(alloc);
    for (k, branch) in branches.iter().enumerate() {
        let lane = &lanes[k];
        if lane.refused.is_some() {
            continue;
        }
        let part = RowPart {
            branch: &branch.def,
            counters: counters.at(k),
            entry: held_entry(entry, &lane.held),
        };
        parts.push(part)?;
    }
    Ok(parts)
}

/// The row with these entries of the branches that are read.
pub(crate) fn read_next(
    alloc: Global,
    classes: &Classes,
    entry: u64,
    branches: &[Branch],
    counters: &TreeCounters,
    lanes: &[Lane],
) -> Result<Values, EntryFault>
    requires counted { counters.now ≡ tree_counters branches.now }
    requires lanes { length branches.now ≡ length lanes.now }
    ensures { GivesUnless OutOfMemory (λ row. row) result
        (row_in classes.now (read_branches branches.now lanes.now) (read_entries entry lanes.now)) }
{
    let parts = row_parts(alloc, entry, branches, counters, lanes)?;
    read_row(alloc, classes, parts.as_slice())
}

// The number of the branch that is the `i`-th of those that are read.
fn read_number(lanes: &[Lane], i: usize) -> Option<usize>
    ensures { result ≡ slice_get (read_numbers 0 lanes.now) i }
{
    let mut left = i;
    for (k, lane) in lanes.iter().enumerate() {
        if lane.refused.is_some() {
            continue;
        }
        if left == 0 {
            return Some(k);
        }
        left -= 1;
    }
    None
}

/// The number of the first branch whose entry breaks in this row.
pub(crate) fn check_next(
    alloc: Global,
    classes: &Classes,
    entry: u64,
    branches: &[Branch],
    counters: &TreeCounters,
    lanes: &[Lane],
) -> Result<Option<usize>, NoMemory>
    requires counted { counters.now ≡ tree_counters branches.now }
    requires lanes { length branches.now ≡ length lanes.now }
    ensures { IfOk result (λ found. found ≡ broken_at classes.now entry branches.now lanes.now) }
{
    let parts = row_parts(alloc, entry, branches, counters, lanes)?;
    match broken_branch(alloc, classes, parts.as_slice())? {
        Some(i) => Ok(read_number(lanes, i)),
        None => Ok(None),
    }
}

/// Memory ran out.
pub(crate) fn is_memory(row: &Result<Values, EntryFault>) -> bool
    ensures { IsTrue result ↔ (row.now ≡ Err EntryFault.NoMemory) }
{
    matches!(row, Err(EntryFault::NoMemory))
}
