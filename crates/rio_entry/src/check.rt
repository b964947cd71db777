//! Entries are checked, and no value is made.
ghost use Rattle.std.specs.Prelude.{◌≡◌, ◌<◌, ◌^◌, List, length, Err, IfOk};
ghost use Rattle.rio_num.specs.Answers.{GivesUnless};
ghost use Rattle.rio_num.specs.At.{GoesOn};
ghost use Rattle.rio_num.specs.Meanings.{read};
ghost use Rattle.rio_format.specs.{Frames.{ReadsAs}, ReaderState.{no_words, standing}, declared.value.Value.{Value as Given}};
ghost use Rattle.rio_leaf.specs.declared.branch.Shape.TheVariants.{Class as Classed};
ghost use Rattle.rio_read.specs.Passing.{pass_of};
ghost use Rattle.rio_machine.specs.declared.entry_fault.EntryFault.TheVariants.{NoMemory as OutOfMemory};
ghost use Rattle.rio_machine.specs.declared.entry_fault.EntryFault.{EntryFault as Fault};
ghost use Rattle.rio_entry.specs.Counting.{counters_within};
ghost use Rattle.rio_entry.specs.Reading.{BreaksEntry, SpellsEntry, entry_checked};
ghost use Rattle.rio_machine.specs.Entries.{entry_values, only_values};

use crate::EntryFault;
use crate::check_leaves::check_leaves;
use crate::counter::LeafCounters;
use crate::read::check_end;
use rio_format::{Classes, ObjFault, ObjReader, Value, Values};
use rio_leaf::{BranchDef, Shape};
use rio_read::pass_next;
use std::alloc::Global;

// The one object of a branch of a class.
fn pass_one(
    alloc: Global,
    classes: &Classes,
    reader: &mut ObjReader,
    class: &[u8],
) -> Result<(), ObjFault>
    ensures exact { (counts : List Given) → ReadsAs (λ x. x) result
        (read (pass_of (entry_values classes.now (Classed class.now) counts)) reader.old)
        reader.new }
    ensures goes { GoesOn reader.old.at reader.new.at }
{
    pass_next(alloc, classes, reader, class)
}

fn pass_shape(
    alloc: Global,
    classes: &Classes,
    reader: &mut ObjReader,
    shape: &Shape,
    counters: &LeafCounters,
    counts: &[Value],
) -> Result<(), ObjFault>
    requires { counters.now ≡ counters_within shape.now }
    ensures exact { ReadsAs (λ x. x) result
        (read (pass_of (entry_values classes.now shape.now counts.now)) reader.old) reader.new }
    ensures goes { GoesOn reader.old.at reader.new.at }
{
    match shape {
        Shape::Leaves(leaves) => check_leaves(alloc, reader, leaves.as_slice(), counters, counts),
        Shape::Class(class) => pass_one(alloc, classes, reader, class.as_slice()),
    }
}

fn check_shape(
    alloc: Global,
    classes: &Classes,
    shape: &Shape,
    counters: &LeafCounters,
    counts: &[Value],
    bytes: &[u8],
) -> Result<(), EntryFault>
    requires counters { counters.now ≡ counters_within shape.now }
    requires short { length bytes.now < 2 ^ 32 }
    ensures { GivesUnless OutOfMemory (λ done. done) result
        (only_values (read (pass_of (entry_values classes.now shape.now counts.now))
        (standing 0 bytes.now no_words))) }
{
    let mut reader = ObjReader::new(alloc, bytes, 0);
    pass_shape(alloc, classes, &mut reader, shape, counters, counts)?;
    check_end(&reader)
}

/// As [`check_entry`], for one that checks many entries of the branch and has its counters.
pub fn check_entry_with(
    alloc: Global,
    classes: &Classes,
    branch: &BranchDef,
    counters: &LeafCounters,
    counts: &Values,
    bytes: &[u8],
) -> Result<(), EntryFault>
    requires counters { counters.now ≡ counters_within branch.now.shape }
    requires short { length bytes.now < 2 ^ 32 }
    ensures { GivesUnless OutOfMemory (λ done. done) result
        (entry_checked classes.now branch.now.shape counts.now bytes.now) }
{
    check_shape(
        alloc,
        classes,
        &branch.shape,
        counters,
        counts.as_slice(),
        bytes,
    )
}

/// Whether the bytes are an entry of the branch: the fault that [`crate::read_entry`] would tell, or that there is none.
/// `counts` is as [`crate::write_entry`] has it.
///
/// No list, text or object is made. Where leaves of the branch are counted, a number is kept for each leaf meanwhile.
pub fn check_entry(
    alloc: Global,
    classes: &Classes,
    branch: &BranchDef,
    counts: &Values,
    bytes: &[u8],
) -> Result<(), EntryFault>
    requires { length bytes.now < 2 ^ 32 }
    // Where it is whole, the bytes spell some values.
    ensures found { IfOk result (λ done. (row : List Given)
        × SpellsEntry classes.now branch.now.shape counts.now row bytes.now) }
    // The fault with which the bytes break is told, unless memory runs out.
    ensures broken { (e : Fault)
        → BreaksEntry classes.now branch.now.shape counts.now bytes.now e
        → GivesUnless OutOfMemory (λ done. done) result (Err e) }
    // Whether they break, and at which place, as reading from left to right gives it.
    ensures exact { GivesUnless OutOfMemory (λ done. done) result
        (entry_checked classes.now branch.now.shape counts.now bytes.now) }
{
    let counters = LeafCounters::new(alloc, &branch.shape)?;
    check_shape(
        alloc,
        classes,
        &branch.shape,
        &counters,
        counts.as_slice(),
        bytes,
    )
}
