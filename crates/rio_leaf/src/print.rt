//! Lists of leaves are written.
ghost use Rattle.std.specs.Prelude.{◌≡◌, ◌∷◌, ◌++◌, OnOk, OnErr};
ghost use Rattle.std.specs.List.{flat_map};
ghost use Rattle.rio_num.specs.Room.{with_more};
ghost use Rattle.rio_leaf.specs.Marks.{between_leaves};
ghost use Rattle.rio_leaf.specs.Spelling.{text_of_dim, text_of_leaf, text_of_leaves};

use crate::{Dim, Leaf, Leaves};
use rio_num::{Bytes, NoMemory};

/// Puts the dimension of a leaf at the end as it is listed: nothing, or a number or a counter in brackets. Where there is
/// no memory, a part of it may have been put.
pub fn put_dim(dim: &Dim, into: &mut Bytes) -> Result<(), NoMemory>
    ensures { OnOk result (into.new.bytes ≡ into.old.bytes ++ text_of_dim dim.now) }
{
    match dim {
        Dim::One => Ok(()),
        Dim::Fixed(count) => {
            into.push(b'[')?;
            into.put_decimal(u64::from(*count))?;
            into.push(b']')
        }
        Dim::Counted { counter, .. } => {
            into.push(b'[')?;
            into.put(counter.as_slice())?;
            into.push(b']')
        }
    }
}

fn put_leaf(leaf: &Leaf, into: &mut Bytes) -> Result<(), NoMemory>
    ensures { OnOk result (into.new.bytes ≡ into.old.bytes ++ text_of_leaf leaf.now) }
{
    into.put(leaf.name.as_slice())?;
    put_dim(&leaf.dim, into)?;
    into.push(b'/')?;
    into.push(leaf.letter)
}

// A colon, and then the leaf, for each of them.
fn put_more_leaves(leaves: &[Leaf], into: &mut Bytes) -> Result<(), NoMemory>
    ensures { OnOk result
        (into.new.bytes
        ≡ into.old.bytes ++ flat_map (λ l. between_leaves ∷ text_of_leaf l) leaves.now) }
{
    for leaf in leaves {
        into.push(b':')?;
        put_leaf(leaf, into)?;
    }
    Ok(())
}

fn put_leaves(leaves: &[Leaf], into: &mut Bytes) -> Result<(), NoMemory>
    ensures { OnOk result (into.new.bytes ≡ into.old.bytes ++ text_of_leaves leaves.now) }
{
    match leaves {
        [] => Ok(()),
        [first, rest @ ..] => {
            put_leaf(first, into)?;
            put_more_leaves(rest, into)
        }
    }
}

/// Puts the text at the end that lists the leaves, as `read_leaves` reads it. How many values a leaf has for each that
/// its counter counts isn't told, and is read as one. Without memory nothing is put.
pub fn print_leaves(leaves: &Leaves, into: &mut Bytes) -> Result<(), NoMemory>
    ensures ok { OnOk result (into.new ≡ with_more into.old (text_of_leaves leaves.now)) }
    ensures err { OnErr result (into.new ≡ into.old) }
{
    let mut text = Bytes::new(into.allocator());
    put_leaves(leaves.as_slice(), &mut text)?;
    into.put(text.as_slice())
}
