//! The values of leaves are read.
ghost use Rattle.std.specs.Prelude.{◌≡◌, ℕ, List, Some, [], min};
ghost use Rattle.rio_num.specs.At.{GoesOn};
ghost use Rattle.rio_num.specs.Meanings.{read};
ghost use Rattle.rio_format.specs.{Frames.{ReadsAs}, Objects.{numbers}, declared.class.ClassDef.{ClassDef as Class}};
ghost use Rattle.rio_leaf.specs.declared.branch.Shape.TheVariants.{Leaves as Leafy};
ghost use Rattle.rio_machine.specs.Rows.{counted_leaf_kind, leaf_kind, sized_kind};
ghost use Rattle.rio_entry.specs.Bounds.{most_values};
ghost use Rattle.rio_entry.specs.Counting.{counters_from};
ghost use Rattle.rio_machine.specs.Entries.{counter_saying};
ghost use Rattle.rio_entry.specs.Leaves.{kind_layout, without_number};
ghost use Rattle.rio_machine.specs.Entries.{entry_values};

use crate::counter::LeafCounters;
use crate::leaf::{given_count, letter_kind, said_count};
use rio_format::{ObjFault, ObjReader, Prim, Value, Values};
use rio_leaf::{Dim, Leaf};
use rio_read::{read_number, read_text, read_times};
use std::alloc::Global;

// A list of values. No more are read than there are bytes, and one, which is then not there.
fn read_list(alloc: Global, reader: &mut ObjReader, of: Prim, n: u128) -> Result<Value, ObjFault>
    ensures exact { (count : ℕ) → n ≡ min count most_values
        → ReadsAs (λ x. x) result (read (numbers of count) reader.old) reader.new }
    ensures goes { GoesOn reader.old.at reader.new.at }
{
    let most = u128::from(reader.left()) + 1;
    let values = read_times(alloc, reader, of, n.min(most) as u64)?;
    Ok(Value::List(values))
}

// A list of so many values for each that was counted.
fn read_counted(
    alloc: Global,
    reader: &mut ObjReader,
    of: Prim,
    times: u32,
    count: i128,
) -> Result<Value, ObjFault>
    ensures exact { ReadsAs (λ x. x) result
        (read (kind_layout (counted_leaf_kind of times (Some count))) reader.old) reader.new }
    ensures goes { GoesOn reader.old.at reader.new.at }
{
    if count < 0 {
        return Err(ObjFault::NoCount {
            place: reader.place(),
        });
    }
    let n = count.unsigned_abs().saturating_mul(u128::from(times));
    read_list(alloc, reader, of, n)
}

fn read_sized(
    alloc: Global,
    reader: &mut ObjReader,
    of: Prim,
    dim: &Dim,
    count: i128,
) -> Result<Value, ObjFault>
    ensures exact { ReadsAs (λ x. x) result
        (read (kind_layout (sized_kind (counter_saying dim.now count) of dim.now)) reader.old)
        reader.new }
    ensures goes { GoesOn reader.old.at reader.new.at }
{
    match dim {
        Dim::One => read_number(reader, of),
        Dim::Fixed(n) => read_list(alloc, reader, of, u128::from(*n)),
        Dim::Counted { times, .. } => read_counted(alloc, reader, of, *times, count),
    }
}

fn read_without_number(alloc: Global, reader: &mut ObjReader, letter: u8) -> Result<Value, ObjFault>
    ensures exact { ReadsAs (λ x. x) result
        (read (kind_layout (without_number letter)) reader.old) reader.new }
    ensures goes { GoesOn reader.old.at reader.new.at }
{
    if letter == b'C' {
        read_text(alloc, reader)
    } else {
        Err(ObjFault::NoCount {
            place: reader.place(),
        })
    }
}

// The value of a leaf, whose counter says so.
fn read_leaf(
    alloc: Global,
    reader: &mut ObjReader,
    leaf: &Leaf,
    count: i128,
) -> Result<Value, ObjFault>
    ensures exact { ReadsAs (λ x. x) result
        (read (kind_layout (leaf_kind (counter_saying leaf.now.dim count) leaf.now)) reader.old)
        reader.new }
    ensures goes { GoesOn reader.old.at reader.new.at }
{
    match letter_kind(leaf.letter) {
        Some(of) => read_sized(alloc, reader, of, &leaf.dim, count),
        None => read_without_number(alloc, reader, leaf.letter),
    }
}

/// The values of leaves, one behind the other.
pub(crate) fn read_leaves(
    alloc: Global,
    reader: &mut ObjReader,
    leaves: &[Leaf],
    counters: &LeafCounters,
    counts: &[Value],
) -> Result<Values, ObjFault>
    requires { counters.now ≡ counters_from leaves.now 0 [] }
    ensures exact { (classes : List Class) → ReadsAs (λ x. x) result
        (read (entry_values classes (Leafy leaves.now) counts.now) reader.old) reader.new }
    ensures goes { GoesOn reader.old.at reader.new.at }
{
    let mut values = Values::new(alloc);
    for (k, leaf) in leaves.iter().enumerate() {
        let given = given_count(counts, k);
        let count = said_count(counters.get(k), given, values.as_slice());
        values.push(read_leaf(alloc, reader, leaf, count)?)?;
    }
    Ok(values)
}
