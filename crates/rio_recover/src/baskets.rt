//! The baskets that a tree's header names, among the records of a file.
ghost use Rattle.std.specs.Prelude.{◌≡◌, ◌==◌, option_and_then, slice_get};
ghost use Rattle.std.specs.List.{find, list_all, prefix_len};
ghost use Rattle.std.specs.Option.{option_copied};
ghost use Rattle.rio_entry.specs.SavedRows.{has_basket, is_basket_key};
ghost use Rattle.rio_recover.specs.Baskets.{has_baskets, if_at_place, is_before_place};
ghost use Rattle.rio_recover.specs.Keys.{AreInPlace};

use crate::keys::has_class;
use rio_key::KeyHead;
use rio_tree::{BasketAt, TreeHead};

// How many records begin before the place.
fn count_before(heads: &[KeyHead], place: u64) -> usize
    requires { AreInPlace heads.now }
    ensures { result ≡ prefix_len (is_before_place place) heads.now }
{
    heads.partition_point(|head| head.seek < place)
}

// The key at `at`, if its record begins at the place.
fn at_place(heads: &[KeyHead], at: usize, place: u64) -> Option<&KeyHead>
    ensures { option_copied result
        ≡ option_and_then (if_at_place place) (slice_get heads.now at) }
{
    match heads.get(at) {
        Some(head) if head.seek == place => Some(head),
        _ => None,
    }
}

// The key of the record that begins at the place, if one does. The keys are in order of place.
fn head_at(heads: &[KeyHead], place: u64) -> Option<&KeyHead>
    requires { AreInPlace heads.now }
    ensures { option_copied result ≡ find (λ h. h.seek == place) heads.now }
{
    at_place(heads, count_before(heads, place), place)
}

// Whether the record begins at the basket's place, is a basket, and is as long as the header says.
fn is_basket_key(head: &KeyHead, at: &BasketAt) -> bool
    ensures { result ≡ is_basket_key at.now head.now }
{
    head.seek == at.seek && has_class(head, b"TBasket") && head.nbytes.cast_unsigned() == at.bytes
}

// Whether a record begins where the basket is said to be, and is a basket as long as the header says.
fn has_basket(heads: &[KeyHead], at: &BasketAt) -> bool
    requires { AreInPlace heads.now }
    ensures { result ≡ has_basket heads.now at.now }
{
    match head_at(heads, at.seek) {
        Some(head) => is_basket_key(head, at),
        None => false,
    }
}

fn are_baskets_among(heads: &[KeyHead], baskets: &[BasketAt]) -> bool
    requires { AreInPlace heads.now }
    ensures { result ≡ list_all (has_basket heads.now) baskets.now }
{
    baskets.iter().all(|at| has_basket(heads, at))
}

/// Whether each basket that the header names is the record of one, and as long as the header says. The keys are
/// those of the file's records, in order of place.
pub(crate) fn has_baskets(heads: &[KeyHead], head: &TreeHead) -> bool
    requires { AreInPlace heads.now }
    ensures { result ≡ has_baskets heads.now head.now }
{
    head.branches.as_slice().iter().all(|branch| are_baskets_among(
        heads,
        branch.baskets.as_slice(),
    ))
}
