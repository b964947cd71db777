//! In which basket of a branch an entry is looked for.
ghost use Rattle.std.specs.Prelude.{◌≡◌, ◌<◌, ◌≤◌, ℕ, Some, nat_le};
ghost use Rattle.std.specs.List.{prefix_len};
ghost use Rattle.rio_tree.specs.Index.{IsIndex, basket_number};
ghost use Rattle.rio_entry.specs.Index.{basket_holding};

use rio_tree::BasketAt;

// How many baskets at the front begin at the entry or before it.
fn begun(baskets: &[BasketAt], entry: u64) -> usize
    ensures { result ≡ prefix_len (λ at. nat_le at.first entry) baskets.now }
{
    for (k, at) in baskets.iter().enumerate() {
        if at.first > entry {
            return k;
        }
    }
    baskets.len()
}

/// The number of the basket in which an entry is looked for, from one on that isn't behind it. One that walks over a branch's
/// entries comes so from basket to basket, without a search over all of them; and the baskets needn't be an index. Where
/// they are, it is the basket that holds the entry.
pub fn basket_from(baskets: &[BasketAt], from: usize, entry: u64) -> usize
    ensures exact { from ≤ basket_number entry baskets.now
        → result ≡ basket_number entry baskets.now }
    ensures holds { (entries : ℕ) → IsIndex baskets.now entries → entry < entries
        → from ≤ basket_number entry baskets.now
        → basket_holding baskets.now entries entry ≡ Some result }
{
    if from < baskets.len() {
        from + begun(&baskets[from + 1..], entry)
    } else {
        from
    }
}
