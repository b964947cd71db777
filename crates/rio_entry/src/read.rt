//! Entries are read.
ghost use Rattle.std.specs.Prelude.{◌≡◌, ◌<◌, ◌^◌, List, length, Err, IfOk, Ok};
ghost use Rattle.rio_num.specs.At.{GoesOn};
ghost use Rattle.rio_num.specs.Meanings.{read};
ghost use Rattle.rio_format.specs.{Frames.{ReadsAs}, declared.value.Value.{Value as Given}};
ghost use Rattle.rio_leaf.specs.declared.branch.Shape.TheVariants.{Class as Classed};
ghost use Rattle.rio_num.specs.Answers.{GivesUnless};
ghost use Rattle.rio_machine.specs.declared.entry_fault.EntryFault.TheVariants.{NoMemory as OutOfMemory};
ghost use Rattle.rio_machine.specs.declared.entry_fault.EntryFault.{EntryFault as Fault};
ghost use Rattle.rio_entry.specs.Counting.{counters_within};
ghost use Rattle.rio_entry.specs.Reading.{BreaksEntry, SpellsEntry};
ghost use Rattle.rio_machine.specs.Entries.{entry_in, entry_values, only_values};

use crate::EntryFault;
use crate::counter::LeafCounters;
use crate::read_leaves::read_leaves;
use rio_format::{Classes, ObjFault, ObjReader, Value, Values};
use rio_leaf::{BranchDef, Shape};
use rio_read::read_next;
use std::alloc::Global;

/// Nothing stands behind what was read.
pub(crate) fn check_end(reader: &ObjReader) -> Result<(), EntryFault>
    ensures { result ≡ only_values (Ok (tt, reader.now)) }
{
    if reader.left() == 0 {
        Ok(())
    } else {
        Err(EntryFault::BadEntry {
            place: reader.place(),
        })
    }
}

// The one object of a branch of a class.
#[tactic(auto, unfolding(rio_machine::specs::Entries::columns_values))]
fn read_one(
    alloc: Global,
    classes: &Classes,
    reader: &mut ObjReader,
    class: &[u8],
) -> Result<Values, ObjFault>
    ensures exact { (counts : List Given) → ReadsAs (λ x. x) result
        (read (entry_values classes.now (Classed class.now) counts) reader.old) reader.new }
    ensures goes { GoesOn reader.old.at reader.new.at }
{
    let value = read_next(alloc, classes, reader, class)?;
    let mut values = Values::new(alloc);
    values.push(value)?;
    Ok(values)
}

fn shape_values(
    alloc: Global,
    classes: &Classes,
    reader: &mut ObjReader,
    shape: &Shape,
    counters: &LeafCounters,
    counts: &[Value],
) -> Result<Values, ObjFault>
    requires { counters.now ≡ counters_within shape.now }
    ensures exact { ReadsAs (λ x. x) result
        (read (entry_values classes.now shape.now counts.now) reader.old) reader.new }
    ensures goes { GoesOn reader.old.at reader.new.at }
{
    match shape {
        Shape::Leaves(leaves) => read_leaves(alloc, reader, leaves.as_slice(), counters, counts),
        Shape::Class(class) => read_one(alloc, classes, reader, class.as_slice()),
    }
}

fn read_shape(
    alloc: Global,
    classes: &Classes,
    shape: &Shape,
    counters: &LeafCounters,
    counts: &[Value],
    bytes: &[u8],
) -> Result<Values, EntryFault>
    requires counters { counters.now ≡ counters_within shape.now }
    requires short { length bytes.now < 2 ^ 32 }
    ensures { GivesUnless OutOfMemory (λ row. row) result
        (entry_in classes.now shape.now counts.now bytes.now) }
{
    let mut reader = ObjReader::new(alloc, bytes, 0);
    let values = shape_values(alloc, classes, &mut reader, shape, counters, counts)?;
    check_end(&reader)?;
    Ok(values)
}

/// As [`read_entry`], for one that reads many entries of the branch and has its counters.
pub fn read_entry_with(
    alloc: Global,
    classes: &Classes,
    branch: &BranchDef,
    counters: &LeafCounters,
    counts: &Values,
    bytes: &[u8],
) -> Result<Values, EntryFault>
    requires counters { counters.now ≡ counters_within branch.now.shape }
    requires short { length bytes.now < 2 ^ 32 }
    ensures { GivesUnless OutOfMemory (λ row. row) result
        (entry_in classes.now branch.now.shape counts.now bytes.now) }
{
    read_shape(
        alloc,
        classes,
        &branch.shape,
        counters,
        counts.as_slice(),
        bytes,
    )
}

/// The values of an entry of the branch: one for each leaf, or the one object of a branch of a class. `counts` is as
/// [`crate::write_entry`] has it.
///
/// BadEntry tells the place of the first part that breaks, counted from the entry's first byte. What stands behind the
/// last value breaks too.
pub fn read_entry(
    alloc: Global,
    classes: &Classes,
    branch: &BranchDef,
    counts: &Values,
    bytes: &[u8],
) -> Result<Values, EntryFault>
    requires { length bytes.now < 2 ^ 32 }
    // What is read is spelled by the bytes.
    ensures found { IfOk result
        (λ row. SpellsEntry classes.now branch.now.shape counts.now row bytes.now) }
    // What the bytes spell is read, unless memory runs out.
    ensures only { (row : List Given)
        → SpellsEntry classes.now branch.now.shape counts.now row bytes.now
        → GivesUnless OutOfMemory (λ row. row) result (Ok row) }
    // The fault with which the bytes break is told, unless memory runs out.
    ensures broken { (e : Fault)
        → BreaksEntry classes.now branch.now.shape counts.now bytes.now e
        → GivesUnless OutOfMemory (λ row. row) result (Err e) }
    // Which values, or which place, as reading from left to right gives them.
    ensures exact { GivesUnless OutOfMemory (λ row. row) result
        (entry_in classes.now branch.now.shape counts.now bytes.now) }
{
    let counters = LeafCounters::new(alloc, &branch.shape)?;
    read_shape(
        alloc,
        classes,
        &branch.shape,
        &counters,
        counts.as_slice(),
        bytes,
    )
}
