//! Which baskets of a tree have a record, by the keys of the records of a file.
ghost use Rattle.std.specs.Prelude.{◌≡◌, false, slice_get};
ghost use Rattle.std.specs.List.{list_all};
ghost use Rattle.std.specs.Option.{option_map_or};
ghost use Rattle.rio_entry.specs.SavedRows.{AreByPlace, has_basket, has_baskets, is_basket_key};

use rio_key::KeyHead;
use rio_tree::{BasketAt, Branch};

fn is_basket_key(at: &BasketAt, key: &KeyHead) -> bool
    ensures { result ≡ is_basket_key at.now key.now }
{
    key.seek == at.seek
        && key.class.as_slice() == b"TBasket".as_slice()
        && key.nbytes.cast_unsigned() == at.bytes
}

// Whether the key at `k` is that of the basket's record.
fn is_key_at(keys: &[KeyHead], k: usize, at: &BasketAt) -> bool
    ensures { result ≡ option_map_or (is_basket_key at.now) (slice_get keys.now k) false }
{
    match keys.get(k) {
        Some(key) => is_basket_key(at, key),
        None => false,
    }
}

// Whether the basket has a record, by the keys in order of place.
fn has_basket(keys: &[KeyHead], at: &BasketAt) -> bool
    ensures { AreByPlace keys.now → result ≡ has_basket keys.now at.now }
{
    let place = at.seek;
    is_key_at(keys, keys.partition_point(|key| key.seek < place), at)
}

fn has_baskets(keys: &[KeyHead], branch: &Branch) -> bool
    ensures { AreByPlace keys.now → result ≡ has_baskets keys.now branch.now }
{
    for at in branch.baskets.as_slice() {
        if !has_basket(keys, at) {
            return false;
        }
    }
    true
}

/// Whether each basket that these branches name has a record, by the keys of the records of a file, which stand in order of
/// place: one at its place, of a basket, as long as the header says.
pub(crate) fn have_baskets(keys: &[KeyHead], branches: &[Branch]) -> bool
    ensures { AreByPlace keys.now → result ≡ list_all (has_baskets keys.now) branches.now }
{
    for branch in branches {
        if !has_baskets(keys, branch) {
            return false;
        }
    }
    true
}
