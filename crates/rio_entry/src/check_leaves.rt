//! Leaves are checked: of their values no more is kept than what they count.
ghost use Rattle.std.specs.Prelude.{◌≡◌, ℕ, List, [], Some, min, false};
ghost use Rattle.rio_num.specs.At.{GoesOn};
ghost use Rattle.rio_num.specs.Meanings.{read};
ghost use Rattle.rio_format.specs.{Frames.{ReadsAs}, Objects.{numbers, text_value}, declared.class.ClassDef.{ClassDef as Class}, declared.value.Value.{Value as Given}};
ghost use Rattle.rio_leaf.specs.declared.branch.Shape.TheVariants.{Leaves as Leafy};
ghost use Rattle.rio_machine.specs.Rows.{counted_leaf_kind, leaf_kind, sized_kind};
ghost use Rattle.rio_read.specs.Passing.{pass_of};
ghost use Rattle.rio_entry.specs.Bounds.{most_values};
ghost use Rattle.rio_entry.specs.Counting.{counters_from};
ghost use Rattle.rio_machine.specs.Entries.{counter_saying};
ghost use Rattle.rio_entry.specs.Leaves.{is_any_counted, kind_layout, said_by, number_of_value, numbers_of_values, without_number};
ghost use Rattle.rio_machine.specs.Entries.{entry_values};

use crate::counter::LeafCounters;
use crate::leaf::{given_count, letter_kind, said_count};
use rio_format::{ObjFault, ObjReader, Prim, Value, Values};
use rio_leaf::{Dim, Leaf, is_counted_dim};
use rio_read::{pass_numbers, read_number};
use std::alloc::Global;

// A list of values is passed over. No more are than there are bytes, and one, which is then not there.
fn pass_list(reader: &mut ObjReader, of: Prim, n: u128) -> Result<Value, ObjFault>
    ensures exact { (count : ℕ) → n ≡ min count most_values
        → ReadsAs (λ v. said_by v) result (read (number_of_value (numbers of count)) reader.old)
        reader.new }
    ensures goes { GoesOn reader.old.at reader.new.at }
{
    let most = u128::from(reader.left()) + 1;
    pass_numbers(reader, of, n.min(most) as u64)?;
    Ok(Value::Null)
}

// A list of so many values for each that was counted.
fn pass_counted(
    reader: &mut ObjReader,
    of: Prim,
    times: u32,
    count: i128,
) -> Result<Value, ObjFault>
    ensures exact { ReadsAs (λ v. said_by v) result
        (read (number_of_value (kind_layout (counted_leaf_kind of times (Some count)))) reader.old)
        reader.new }
    ensures goes { GoesOn reader.old.at reader.new.at }
{
    if count < 0 {
        return Err(ObjFault::NoCount {
            place: reader.place(),
        });
    }
    let n = count.unsigned_abs().saturating_mul(u128::from(times));
    pass_list(reader, of, n)
}

fn pass_sized(reader: &mut ObjReader, of: Prim, dim: &Dim, count: i128) -> Result<Value, ObjFault>
    ensures exact { ReadsAs (λ v. said_by v) result
        (read (number_of_value (kind_layout (sized_kind (counter_saying dim.now count) of dim.now)))
        reader.old) reader.new }
    ensures goes { GoesOn reader.old.at reader.new.at }
{
    match dim {
        Dim::One => read_number(reader, of),
        Dim::Fixed(n) => pass_list(reader, of, u128::from(*n)),
        Dim::Counted { times, .. } => pass_counted(reader, of, *times, count),
    }
}

#[tactic(auto, unfolding(rio_format::specs::Objects::text_value))]
fn pass_text(reader: &mut ObjReader) -> Result<Value, ObjFault>
    ensures exact { ReadsAs (λ v. said_by v) result (read (number_of_value text_value) reader.old)
        reader.new }
    ensures goes { GoesOn reader.old.at reader.new.at }
{
    reader.take_text()?;
    Ok(Value::Null)
}

fn pass_without_number(reader: &mut ObjReader, letter: u8) -> Result<Value, ObjFault>
    ensures exact { ReadsAs (λ v. said_by v) result
        (read (number_of_value (kind_layout (without_number letter))) reader.old) reader.new }
    ensures goes { GoesOn reader.old.at reader.new.at }
{
    if letter == b'C' {
        pass_text(reader)
    } else {
        Err(ObjFault::NoCount {
            place: reader.place(),
        })
    }
}

// The value of a leaf, whose counter says so, is passed over: what is returned says the same number, which is 0 of all but a
// single integer.
fn pass_leaf(reader: &mut ObjReader, leaf: &Leaf, count: i128) -> Result<Value, ObjFault>
    ensures exact { ReadsAs (λ v. said_by v) result
        (read (number_of_value (kind_layout (leaf_kind (counter_saying leaf.now.dim count) leaf.now)))
        reader.old) reader.new }
    ensures goes { GoesOn reader.old.at reader.new.at }
{
    match letter_kind(leaf.letter) {
        Some(of) => pass_sized(reader, of, &leaf.dim, count),
        None => pass_without_number(reader, leaf.letter),
    }
}

fn is_any_counted(leaves: &[Leaf]) -> bool
    ensures { result ≡ is_any_counted leaves.now }
{
    leaves.iter().any(|leaf| is_counted_dim(&leaf.dim))
}

// Leaves of which none is counted.
fn pass_leaves(reader: &mut ObjReader, leaves: &[Leaf]) -> Result<(), ObjFault>
    requires { is_any_counted leaves.now ≡ false }
    ensures exact { (classes : List Class) (counts : List Given) → ReadsAs (λ x. x) result
        (read (pass_of (entry_values classes (Leafy leaves.now) counts)) reader.old) reader.new }
    ensures goes { GoesOn reader.old.at reader.new.at }
{
    for leaf in leaves {
        pass_leaf(reader, leaf, 0)?;
    }
    Ok(())
}

/// Passes over the values of leaves, of which some may be counted by earlier ones, and keeps the number that each says, which
/// is 0 of all but a single integer.
pub(crate) fn pass_counting(
    alloc: Global,
    reader: &mut ObjReader,
    leaves: &[Leaf],
    counters: &LeafCounters,
    counts: &[Value],
) -> Result<Values, ObjFault>
    requires { counters.now ≡ counters_from leaves.now 0 [] }
    ensures exact { (classes : List Class) → ReadsAs (λ x. x) result
        (read (numbers_of_values (entry_values classes (Leafy leaves.now) counts.now)) reader.old)
        reader.new }
    ensures goes { GoesOn reader.old.at reader.new.at }
{
    let mut kept = Values::new(alloc);
    for (k, leaf) in leaves.iter().enumerate() {
        let given = given_count(counts, k);
        let count = said_count(counters.get(k), given, kept.as_slice());
        let value = pass_leaf(reader, leaf, count)?;
        kept.push(Value::Int(value.number()))?;
    }
    Ok(kept)
}

/// Passes over the values of leaves, one behind the other.
pub(crate) fn check_leaves(
    alloc: Global,
    reader: &mut ObjReader,
    leaves: &[Leaf],
    counters: &LeafCounters,
    counts: &[Value],
) -> Result<(), ObjFault>
    requires { counters.now ≡ counters_from leaves.now 0 [] }
    ensures exact { (classes : List Class) → ReadsAs (λ x. x) result
        (read (pass_of (entry_values classes (Leafy leaves.now) counts.now)) reader.old)
        reader.new }
    ensures goes { GoesOn reader.old.at reader.new.at }
{
    if is_any_counted(leaves) {
        pass_counting(alloc, reader, leaves, counters, counts)?;
        Ok(())
    } else {
        pass_leaves(reader, leaves)
    }
}
