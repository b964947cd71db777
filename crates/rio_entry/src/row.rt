//! The row of a tree is read.
ghost use Rattle.std.specs.Prelude.{◌≡◌, ◌++◌, map, IfOk, OnOk};
ghost use Rattle.rio_format.specs.{Bodies.{Counters}, Counts.{SaysAsFirst}};
ghost use Rattle.rio_num.specs.Answers.{GivesUnless};
ghost use Rattle.rio_machine.specs.declared.entry_fault.EntryFault.TheVariants.{NoMemory as OutOfMemory};
ghost use Rattle.rio_entry.specs.Rows.{broken_branch};
ghost use Rattle.rio_machine.specs.RowEntries.{branch_values, row_in};

use crate::EntryFault;
use crate::numbers::{Numbers, counts_beside, note_values};
use crate::part::RowPart;
use crate::read::read_entry_with;
use rio_format::{Classes, Value, Values, copy};
use rio_num::NoMemory;
use std::alloc::Global;

// The values of the branch's entry, behind leaves that say these numbers.
fn read_part(
    alloc: Global,
    classes: &Classes,
    part: &RowPart,
    numbers: &Numbers,
) -> Result<Values, EntryFault>
    ensures { (before : Counters) → SaysAsFirst numbers.now before
        → GivesUnless OutOfMemory (λ row. row) result
        (branch_values classes.now part.now.branch.now part.now.entry.now before) }
{
    let counts = counts_beside(alloc, &part.branch.shape, numbers)?;
    read_entry_with(
        alloc,
        classes,
        part.branch,
        part.counters,
        &counts,
        part.entry,
    )
}

fn append(alloc: Global, row: &mut Values, values: &[Value]) -> Result<(), NoMemory>
    ensures { OnOk result (row.new ≡ row.old ++ values.now) }
{
    for value in values {
        row.push(copy(alloc, value)?)?;
    }
    Ok(())
}

/// A row of a tree, read of one entry for each branch: the values of the branches one behind the other. A leaf whose
/// counter stands in an earlier branch is counted by what the nearest leaf of that name says there.
///
/// The first branch whose entry breaks tells BadEntry, as [`crate::read_entry`] does.
pub fn read_row(alloc: Global, classes: &Classes, parts: &[RowPart]) -> Result<Values, EntryFault>
    ensures { GivesUnless OutOfMemory (λ row. row) result
        (row_in classes.now (map (λ part. part.branch.now) parts.now)
        (map (λ part. part.entry.now) parts.now)) }
{
    let mut row = Values::new(alloc);
    let mut numbers = Numbers::new(alloc);
    for part in parts {
        let values = read_part(alloc, classes, part, &numbers)?;
        note_values(&part.branch.shape, values.as_slice(), &mut numbers)?;
        append(alloc, &mut row, values.as_slice())?;
    }
    Ok(row)
}

/// The number of the first branch whose entry isn't read, counted from 0; None where the row is read.
pub fn broken_branch(
    alloc: Global,
    classes: &Classes,
    parts: &[RowPart],
) -> Result<Option<usize>, NoMemory>
    ensures { IfOk result
        (λ found. found ≡ broken_branch classes.now (map (λ part. part.branch.now) parts.now)
        (map (λ part. part.entry.now) parts.now)) }
{
    let mut numbers = Numbers::new(alloc);
    for (k, part) in parts.iter().enumerate() {
        match read_part(alloc, classes, part, &numbers) {
            Ok(values) => note_values(&part.branch.shape, values.as_slice(), &mut numbers)?,
            Err(EntryFault::NoMemory) => return Err(NoMemory),
            Err(_) => return Ok(Some(k)),
        }
    }
    Ok(None)
}
