//! What the words of a leaf say: its dimension and its letter.
ghost use Rattle.std.specs.Prelude.{◌≡◌, ◌==◌, slice_index, IfOk};
ghost use Rattle.std.specs.Str.Parse.{digits_value};
ghost use Rattle.rio_num.specs.Reading.{some_if};
ghost use Rattle.rio_leaf.specs.Reading.{dim_of, is_dimension, letter_in};

use crate::rules::{counts_for, is_leaf_count, is_letter_of};
use crate::{Dim, Leaf};
use rio_num::{Name, NoMemory, is_name};
use std::alloc::Global;

fn begins_with_zero(word: &[u8]) -> bool
    ensures { result ≡ (slice_index word.now 0 == 48) }
{
    match word {
        [] => false,
        [first, ..] => *first == b'0',
    }
}

// The number that the word is, where a dimension may be it.
fn dimension(word: &[u8]) -> Option<u32>
    ensures { result ≡ some_if (is_dimension word.now) (digits_value 10 word.now) }
{
    let mut n: u32 = 0;
    for byte in word {
        if !byte.is_ascii_digit() || n > 100_000 {
            return None;
        }
        n = n * 10 + u32::from(*byte - b'0');
    }
    if !begins_with_zero(word) && is_leaf_count(n) {
        Some(n)
    } else {
        None
    }
}

/// The dimension that the word says, of a leaf with its own name behind others.
#[tactic(auto, unfolding(crate::specs::Reading::dim_of))]
pub(crate) fn dim_in(
    alloc: Global,
    before: &[Leaf],
    own: &[u8],
    word: &[u8],
) -> Result<Option<Dim>, NoMemory>
    ensures { IfOk result (λ dim. dim ≡ dim_of before.now own.now word.now) }
{
    match dimension(word) {
        Some(count) => Ok(Some(Dim::Fixed(count))),
        None if is_name(word) && counts_for(before, own, word) => Ok(Some(Dim::Counted {
            counter: Name::from_slice(alloc, word)?,
            times: 1,
        })),
        None => Ok(None),
    }
}

/// The letter that the word is, of a leaf with the dimension.
pub(crate) fn letter_in(dim: &Dim, word: &[u8]) -> Option<u8>
    ensures { result ≡ letter_in dim.now word.now }
{
    match word {
        [letter] if is_letter_of(dim, *letter) => Some(*letter),
        _ => None,
    }
}
