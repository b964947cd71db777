//! The entries of a row are made.
ghost use Rattle.std.specs.Prelude.{◌≡◌, List, length, IfOk, IsTrue};
ghost use Rattle.rio_leaf.specs.declared.leaf.Leaf.{Leaf as LeafHeld};
ghost use Rattle.rio_leaf.specs.Stated.{are_stated_branches, is_stated_shape, leaves_of};
ghost use Rattle.rio_format.specs.{Bodies.{Counters}, Counts.{SaysAsFirst}};
ghost use Rattle.rio_machine.specs.Rows.{shape_columns};
ghost use Rattle.rio_num.specs.Answers.{GivesUnless};
ghost use Rattle.rio_machine.specs.declared.entry_fault.EntryFault.TheVariants.{NoMemory as OutOfMemory};
ghost use Rattle.rio_fill.specs.Fill.{defs_of};
ghost use Rattle.rio_fill.specs.Prepare.{HaveNumbers, part_written, row_prepared};
ghost use Rattle.rio_fill.specs.Parts.{PutsPart, whole_row};

use crate::branch::OpenBranch;
use rio_entry::{EntryFault, Numbers, leaf_counts, note_leaves, value_count, write_entry};
use rio_format::{Classes, Value, Values, copy};
use rio_key::Entries;
use rio_leaf::{BranchDef, Leaf, Shape, leaves_of};
use rio_num::{Bytes, NoMemory};
use std::alloc::Global;

/// The bytes of a row, one entry for each branch.
pub type Prepared = Entries;

fn copies(alloc: Global, values: &[Value]) -> Result<Values, NoMemory>
    ensures { IfOk result (λ copies. copies ≡ values.now) }
{
    let mut copies = Values::new(alloc);
    for value in values {
        copies.push(copy(alloc, value)?)?;
    }
    Ok(copies)
}

// The entry of a branch for its values, behind leaves that say these numbers.
fn write_part(
    alloc: Global,
    classes: &Classes,
    branch: &BranchDef,
    numbers: &Numbers,
    values: &[Value],
) -> Result<Bytes, EntryFault>
    ensures { (leaves : List LeafHeld) (before : Counters) → SaysAsFirst numbers.now before
        → HaveNumbers leaves before → IsTrue (is_stated_shape leaves branch.now.shape)
        → GivesUnless OutOfMemory (λ room. room.bytes) result
        (part_written classes.now branch.now.shape values.now before) }
{
    let counts = leaf_counts(alloc, leaves_of(&branch.shape), numbers)?;
    write_entry(alloc, classes, branch, &counts, &copies(alloc, values)?)
}

// The entries of a row so far, and whether one of them is too long and isn't kept.
#[derive(Drop)]
struct Parts {
    entries: Entries,
    long: bool,
}

// The entry of the next branch, or that it is too long.
fn put_part(
    alloc: Global,
    classes: &Classes,
    branch: &BranchDef,
    numbers: &Numbers,
    values: &[Value],
    parts: &mut Parts,
) -> Result<(), EntryFault>
    ensures { (leaves : List LeafHeld) (before : Counters) → SaysAsFirst numbers.now before
        → HaveNumbers leaves before → IsTrue (is_stated_shape leaves branch.now.shape)
        → PutsPart classes.now branch.now.shape values.now before parts.old result parts.new }
{
    match write_part(alloc, classes, branch, numbers, values) {
        Ok(entry) => parts.entries.push(entry)?,
        Err(EntryFault::TooLarge) => parts.long = true,
        Err(EntryFault::BadRow) => return Err(EntryFault::BadRow),
        Err(_) => return Err(EntryFault::NoMemory),
    }
    Ok(())
}

// All entries, if no values are left and none was too long.
fn whole_row(parts: Parts, rest: &[Value]) -> Result<Prepared, EntryFault>
    ensures { result ≡ whole_row parts rest.now }
{
    if !rest.is_empty() {
        return Err(EntryFault::BadRow);
    }
    if parts.long {
        return Err(EntryFault::TooLarge);
    }
    Ok(parts.entries)
}

/// The entries of the row. BadRow where it doesn't fit the branches, and else TooLarge where one of them has more than
/// 16,777,216 bytes.
pub(crate) fn prepare_row(
    alloc: Global,
    classes: &Classes,
    branches: &[OpenBranch],
    row: &[Value],
) -> Result<Prepared, EntryFault>
    requires { IsTrue (are_stated_branches (defs_of branches.now)) }
    ensures { GivesUnless OutOfMemory (λ entries. entries) result
        (row_prepared classes.now (defs_of branches.now) row.now) }
{
    let mut parts = Parts {
        entries: Entries::new(alloc),
        long: false,
    };
    let mut numbers = Numbers::new(alloc);
    let mut rest = row;
    for branch in branches {
        let def = branch.def();
        let (values, others) = rest.split_at(value_count(&def.shape).min(rest.len()));
        put_part(alloc, classes, def, &numbers, values, &mut parts)?;
        note_leaves(leaves_of(&def.shape), values, &mut numbers)?;
        rest = others;
    }
    whole_row(parts, rest)
}
