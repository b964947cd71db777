//! What a leaf's letter and its counter say.
ghost use Rattle.std.specs.Prelude.{◌≡◌, List, [], drop, length};
ghost use Rattle.rio_leaf.specs.declared.leaf.Dim.{Dim as Dimension};
ghost use Rattle.rio_leaf.specs.declared.leaf.Leaf.{Leaf as Leafed};
ghost use Rattle.rio_machine.specs.Rows.{letter_kind};
ghost use Rattle.rio_entry.specs.Counting.{counter_among, places_after};
ghost use Rattle.rio_machine.specs.Entries.{given_count, said_count};
ghost use Rattle.rio_entry.specs.Leaves.{numbers_after};

use rio_format::{Prim, Value};

/// The kind of the single values that a letter stands for.
pub(crate) fn letter_kind(letter: u8) -> Option<Prim>
    ensures { result ≡ letter_kind letter }
{
    match letter {
        b'B' => Some(Prim::I8),
        b'b' => Some(Prim::U8),
        b'S' => Some(Prim::I16),
        b's' => Some(Prim::U16),
        b'I' => Some(Prim::I32),
        b'i' => Some(Prim::U32),
        b'L' => Some(Prim::I64),
        b'l' => Some(Prim::U64),
        b'F' => Some(Prim::F32),
        b'D' => Some(Prim::F64),
        b'O' => Some(Prim::Bool),
        _ => None,
    }
}

/// The count that is given for the leaf at `k`, or 0 where there is none.
pub(crate) fn given_count(counts: &[Value], k: usize) -> i128
    ensures { result ≡ given_count (drop k counts.now) }
{
    match counts.get(k) {
        Some(value) => value.number(),
        None => 0,
    }
}

/// What a leaf is counted by, behind earlier leaves of its branch that have these values: what the leaf says that counts it,
/// and where none of them does, the given count.
pub(crate) fn said_count(counter: Option<usize>, given: i128, values: &[Value]) -> i128
    ensures { (dim : Dimension) (leaves : List Leafed) → length leaves ≡ length values.now
        → counter ≡ counter_among dim (places_after leaves 0 [])
        → result ≡ said_count dim given (numbers_after leaves values.now []) }
{
    match counter {
        Some(i) => given_count(values, i),
        None => given,
    }
}
