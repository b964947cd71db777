//! The number that each value of an entry says is read, and no list, text or object is made.
ghost use Rattle.std.specs.Prelude.{◌≡◌, ◌<◌, ◌^◌, List, length, map, Err, IfOk};
ghost use Rattle.rio_num.specs.Answers.{GivesUnless};
ghost use Rattle.rio_num.specs.At.{GoesOn};
ghost use Rattle.rio_num.specs.Meanings.{read};
ghost use Rattle.rio_format.specs.{Frames.{ReadsAs}, ReaderState.{no_words, standing}, declared.value.Value.{Value as Given}};
ghost use Rattle.rio_leaf.specs.declared.branch.Shape.TheVariants.{Class as Classed};
ghost use Rattle.rio_machine.specs.declared.entry_fault.EntryFault.TheVariants.{NoMemory as OutOfMemory};
ghost use Rattle.rio_machine.specs.declared.entry_fault.EntryFault.{EntryFault as Fault};
ghost use Rattle.rio_entry.specs.Counting.{counters_within};
ghost use Rattle.rio_entry.specs.Leaves.{number_alone, numbers_of_values};
ghost use Rattle.rio_entry.specs.Reading.{BreaksEntry, SpellsEntry, numbers_of_entry};
ghost use Rattle.rio_machine.specs.Entries.{entry_values, only_values};

use crate::EntryFault;
use crate::check_leaves::pass_counting;
use crate::counter::LeafCounters;
use crate::read::check_end;
use rio_format::{Classes, ObjFault, ObjReader, Value, Values};
use rio_leaf::{BranchDef, Shape};
use rio_read::pass_next;
use std::alloc::Global;

// The one object of a branch of a class, which says no number.
fn object_numbers(
    alloc: Global,
    classes: &Classes,
    reader: &mut ObjReader,
    class: &[u8],
) -> Result<Values, ObjFault>
    ensures exact { (counts : List Given) → ReadsAs (λ x. x) result
        (read (numbers_of_values (entry_values classes.now (Classed class.now) counts)) reader.old)
        reader.new }
    ensures goes { GoesOn reader.old.at reader.new.at }
{
    pass_next(alloc, classes, reader, class)?;
    let mut numbers = Values::new(alloc);
    numbers.push(Value::Int(0))?;
    Ok(numbers)
}

fn shape_numbers(
    alloc: Global,
    classes: &Classes,
    reader: &mut ObjReader,
    shape: &Shape,
    counters: &LeafCounters,
    counts: &[Value],
) -> Result<Values, ObjFault>
    requires { counters.now ≡ counters_within shape.now }
    ensures exact { ReadsAs (λ x. x) result
        (read (numbers_of_values (entry_values classes.now shape.now counts.now)) reader.old)
        reader.new }
    ensures goes { GoesOn reader.old.at reader.new.at }
{
    match shape {
        Shape::Leaves(leaves) => pass_counting(alloc, reader, leaves.as_slice(), counters, counts),
        Shape::Class(class) => object_numbers(alloc, classes, reader, class.as_slice()),
    }
}

fn numbers_in_bytes(
    alloc: Global,
    classes: &Classes,
    shape: &Shape,
    counters: &LeafCounters,
    counts: &[Value],
    bytes: &[u8],
) -> Result<Values, EntryFault>
    requires counters { counters.now ≡ counters_within shape.now }
    requires short { length bytes.now < 2 ^ 32 }
    ensures { GivesUnless OutOfMemory (λ numbers. numbers) result
        (only_values (read (numbers_of_values (entry_values classes.now shape.now counts.now))
        (standing 0 bytes.now no_words))) }
{
    let mut reader = ObjReader::new(alloc, bytes, 0);
    let numbers = shape_numbers(alloc, classes, &mut reader, shape, counters, counts)?;
    check_end(&reader)?;
    Ok(numbers)
}

/// As [`entry_numbers`], for one that reads many entries of the branch and has its counters.
pub fn entry_numbers_with(
    alloc: Global,
    classes: &Classes,
    branch: &BranchDef,
    counters: &LeafCounters,
    counts: &Values,
    bytes: &[u8],
) -> Result<Values, EntryFault>
    requires counters { counters.now ≡ counters_within branch.now.shape }
    requires short { length bytes.now < 2 ^ 32 }
    ensures { GivesUnless OutOfMemory (λ numbers. numbers) result
        (numbers_of_entry classes.now branch.now.shape counts.now bytes.now) }
{
    numbers_in_bytes(
        alloc,
        classes,
        &branch.shape,
        counters,
        counts.as_slice(),
        bytes,
    )
}

/// What the values of an entry of the branch say: a number for each leaf, which is 0 where its value is no single integer, and
/// 0 for the one object of a branch of a class. Where there are none, the fault that [`crate::read_entry`] would tell.
/// `counts` is as [`crate::write_entry`] has it.
///
/// No list, text or object is made.
pub fn entry_numbers(
    alloc: Global,
    classes: &Classes,
    branch: &BranchDef,
    counts: &Values,
    bytes: &[u8],
) -> Result<Values, EntryFault>
    requires { length bytes.now < 2 ^ 32 }
    // They are the numbers of values that the bytes spell.
    ensures found { IfOk result (λ numbers. (row : List Given)
        × SpellsEntry classes.now branch.now.shape counts.now row bytes.now
        × (numbers ≡ map number_alone row)) }
    // The fault with which the bytes break is told, unless memory runs out.
    ensures broken { (e : Fault)
        → BreaksEntry classes.now branch.now.shape counts.now bytes.now e
        → GivesUnless OutOfMemory (λ numbers. numbers) result (Err e) }
    // Which numbers, or which place, as reading from left to right gives them.
    ensures exact { GivesUnless OutOfMemory (λ numbers. numbers) result
        (numbers_of_entry classes.now branch.now.shape counts.now bytes.now) }
{
    let counters = LeafCounters::new(alloc, &branch.shape)?;
    numbers_in_bytes(
        alloc,
        classes,
        &branch.shape,
        &counters,
        counts.as_slice(),
        bytes,
    )
}
