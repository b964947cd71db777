//! Which names, dimensions and letters leaves may have.
ghost use Rattle.std.specs.Prelude.{◌≡◌};
ghost use Rattle.rio_leaf.specs.Leaves.{can_count, counts_for, has_counted_leaf, has_counting_leaf, has_leaf, is_counted_dim, is_dim_by, is_leaf_count, is_letter_of, is_one, is_taken};
ghost use Rattle.rio_leaf.specs.Marks.{is_leaf_letter};

use crate::{Dim, Leaf};

fn is_one(dim: &Dim) -> bool
    ensures { result ≡ is_one dim.now }
{
    matches!(dim, Dim::One)
}

/// Whether a counter counts what a leaf of the dimension has.
pub fn is_counted_dim(dim: &Dim) -> bool
    ensures { result ≡ is_counted_dim dim.now }
{
    matches!(dim, Dim::Counted { .. })
}

fn can_count(leaf: &Leaf) -> bool
    ensures { result ≡ can_count leaf.now }
{
    leaf.letter == b'I' && is_one(&leaf.dim)
}

fn is_counted_by(dim: &Dim, name: &[u8]) -> bool
    ensures { result ≡ is_dim_by dim.now name.now }
{
    match dim {
        Dim::Counted { counter, .. } => counter.as_slice() == name,
        _ => false,
    }
}

/// Whether one of the leaves has the name.
pub(crate) fn has_leaf(leaves: &[Leaf], name: &[u8]) -> bool
    ensures { result ≡ has_leaf leaves.now name.now }
{
    leaves.iter().any(|leaf| leaf.name.as_slice() == name)
}

/// Whether one of the leaves that may count has the name.
pub(crate) fn has_counting_leaf(leaves: &[Leaf], name: &[u8]) -> bool
    ensures { result ≡ has_counting_leaf leaves.now name.now }
{
    leaves
        .iter()
        .any(|leaf| leaf.name.as_slice() == name && can_count(leaf))
}

fn has_counted_leaf(leaves: &[Leaf], name: &[u8]) -> bool
    ensures { result ≡ has_counted_leaf leaves.now name.now }
{
    leaves.iter().any(|leaf| is_counted_by(&leaf.dim, name))
}

/// Whether a leaf behind these can't have the name.
pub(crate) fn is_taken(before: &[Leaf], name: &[u8]) -> bool
    ensures { result ≡ is_taken before.now name.now }
{
    has_leaf(before, name) || has_counted_leaf(before, name)
}

/// Whether leaves of the name may count a leaf behind these, whatever branches stand before.
pub(crate) fn counts_for(before: &[Leaf], own: &[u8], name: &[u8]) -> bool
    ensures { result ≡ counts_for before.now own.now name.now }
{
    has_counting_leaf(before, name) || !(own == name || has_leaf(before, name))
}

/// Whether a dimension may be so many values.
pub(crate) fn is_leaf_count(n: u32) -> bool
    ensures { result ≡ is_leaf_count n }
{
    2 <= n && n <= 100_000
}

fn is_leaf_letter(letter: u8) -> bool
    ensures { result ≡ is_leaf_letter letter }
{
    b"BbSsIiLlFDOC".contains(&letter)
}

/// Whether a leaf of the dimension may have the letter.
pub(crate) fn is_letter_of(dim: &Dim, letter: u8) -> bool
    ensures { result ≡ is_letter_of dim.now letter }
{
    is_leaf_letter(letter) && (is_one(dim) || letter != b'C')
}
