//! Entries are written.
ghost use Rattle.std.specs.Prelude.{List, [], ◌∷◌};
ghost use Rattle.rio_leaf.specs.declared.branch.Shape.TheVariants.{Leaves as Leafy, Class as Classed};
ghost use Rattle.rio_entry.specs.Entries.{entry_written};
ghost use Rattle.rio_num.specs.Answers.{GivesUnless};
ghost use Rattle.rio_machine.specs.declared.entry_fault.EntryFault.TheVariants.{NoMemory as OutOfMemory};
ghost use Rattle.rio_format.specs.{declared.class.ClassDef.{ClassDef as Class}, declared.value.Value.{Value as Given}};

use crate::EntryFault;
use crate::counter::LeafCounters;
use crate::fit::leaves_fit;
use crate::put::{leaves_length, leaves_written};
use rio_fit::fits;
use rio_format::{Classes, LENGTH_LIMIT, Value, Values};
use rio_leaf::{BranchDef, Leaf, Shape};
use rio_num::Bytes;
use rio_write::{write_object, written_length};
use std::alloc::Global;

fn write_leaves(
    alloc: Global,
    leaves: &[Leaf],
    counts: &[Value],
    row: &[Value],
) -> Result<Bytes, EntryFault>
    ensures { (classes : List Class)
        → GivesUnless OutOfMemory (λ room. room.bytes) result
        (entry_written classes (Leafy leaves.now) counts.now row.now) }
{
    let counters = LeafCounters::of(alloc, leaves)?;
    if !leaves_fit(leaves, &counters, counts, row) {
        return Err(EntryFault::BadRow);
    }
    if leaves_length(leaves, row)? > LENGTH_LIMIT {
        return Err(EntryFault::TooLarge);
    }
    Ok(leaves_written(alloc, leaves, row)?)
}

fn write_value(
    alloc: Global,
    classes: &Classes,
    class: &[u8],
    value: &Value,
) -> Result<Bytes, EntryFault>
    ensures { (counts : List Given) → GivesUnless OutOfMemory (λ room. room.bytes) result
        (entry_written classes.now (Classed class.now) counts (value.now ∷ [])) }
{
    if !fits(alloc, classes, class, value)? {
        return Err(EntryFault::BadRow);
    }
    if written_length(alloc, classes, value)? > LENGTH_LIMIT {
        return Err(EntryFault::TooLarge);
    }
    Ok(write_object(alloc, classes, value, 0)?)
}

fn write_class(
    alloc: Global,
    classes: &Classes,
    class: &[u8],
    row: &[Value],
) -> Result<Bytes, EntryFault>
    ensures { (counts : List Given) → GivesUnless OutOfMemory (λ room. room.bytes) result
        (entry_written classes.now (Classed class.now) counts row.now) }
{
    match row {
        [value] => write_value(alloc, classes, class, value),
        _ => Err(EntryFault::BadRow),
    }
}

/// The bytes of an entry of the branch, for the values of a row that belong to it: one for each leaf, or the one object of
/// a branch of a class.
///
/// `counts` has for each leaf what its counter says where that stands in an earlier branch, and else 0. The nearest leaf
/// of the counter's name before it in the branch counts, if there is one, and else this count. One that isn't there, or is
/// no integer, is 0.
///
/// BadRow where the values don't fit the branch, and else TooLarge where they have more than 16,777,216 bytes.
pub fn write_entry(
    alloc: Global,
    classes: &Classes,
    branch: &BranchDef,
    counts: &Values,
    row: &Values,
) -> Result<Bytes, EntryFault>
    ensures exact { GivesUnless OutOfMemory (λ room. room.bytes) result
        (entry_written classes.now branch.now.shape counts.now row.now) }
{
    match &branch.shape {
        Shape::Leaves(leaves) => {
            write_leaves(alloc, leaves.as_slice(), counts.as_slice(), row.as_slice())
        }
        Shape::Class(class) => write_class(alloc, classes, class.as_slice(), row.as_slice()),
    }
}
