//! The basket of an entry.
ghost use Rattle.std.specs.Prelude.{◌≡◌, ◌+◌, ◌<◌, ◌≤◌, ◌↔◌, None, length};
ghost use Rattle.rio_tree.specs.Index.{IsIndex};
ghost use Rattle.rio_entry.specs.Index.{basket_holding};
ghost use Rattle.rio_index.specs.Scan.{CanGoOn, baskets_at, first_behind, entry_count, first_entry, has_entry, holds_entry, wanted_by, wanted_from};

use crate::lane::{Held, Lane};
use rio_tree::{BasketAt, Branch, TreeHead};

fn basket_among(baskets: &[BasketAt], entries: u64, entry: u64) -> Option<usize>
    requires { IsIndex baskets.now entries }
    ensures exact { result ≡ basket_holding baskets.now entries entry }
    ensures none { (result ≡ None) ↔ (entries ≤ entry) }
{
    if entry >= entries {
        return None;
    }
    Some(baskets.partition_point(|basket| basket.first <= entry) - 1)
}

/// The number of the basket of the branch that holds the entry. Entries are counted from 0 over the baskets in order, and
/// baskets from 0. None where the branch has no such entry.
pub fn basket_of(branch: &Branch, entry: u64) -> Option<usize>
    requires { IsIndex branch.now.baskets branch.now.entries }
    ensures exact { result ≡ basket_holding branch.now.baskets branch.now.entries entry }
    ensures none { (result ≡ None) ↔ (branch.now.entries ≤ entry) }
{
    basket_among(branch.baskets.as_slice(), branch.entries, entry)
}

// Where the basket ends: with the first entry of the next one, and the last one with the branch.
fn end_of(baskets: &[BasketAt], basket: usize, entries: u64) -> u64
    requires { basket < length baskets.now }
    ensures { result ≡ first_behind baskets.now (basket + 1) entries }
{
    match baskets.get(basket + 1) {
        Some(behind) => behind.first,
        None => entries,
    }
}

/// How many entries the header gives a basket of the branch: up to the first of the next one, and the last one up to the
/// branch's entries. None where the branch has no such basket.
pub fn entry_count(branch: &Branch, basket: usize) -> Option<u64>
    ensures { result ≡ entry_count branch.now basket }
{
    let baskets = branch.baskets.as_slice();
    match baskets.get(basket) {
        Some(own) => Some(end_of(baskets, basket, branch.entries).saturating_sub(own.first)),
        None => None,
    }
}

fn has_entry(entry: u64, held: &Held) -> bool
    ensures { result ≡ has_entry entry held.now }
{
    held.first <= entry && entry - held.first < held.entries.count() as u64
}

fn holds_entry(entry: u64, held: &Option<Held>) -> bool
    ensures { result ≡ holds_entry entry held.now }
{
    match held {
        Some(held) => has_entry(entry, held),
        None => false,
    }
}

// The number of the basket that the branch wants for the entry.
fn wanted_by(entry: u64, branch: &Branch, lane: &Lane) -> Option<usize>
    requires { lane.now.refused ≡ None → IsIndex branch.now.baskets branch.now.entries }
    ensures { result ≡ wanted_by entry branch.now lane.now }
{
    if lane.refused.is_some() || holds_entry(entry, &lane.held) {
        return None;
    }
    basket_of(branch, entry)
}

/// The first branch that wants a basket for the entry, and the number of the basket.
pub(crate) fn first_wanted(head: &TreeHead, lanes: &[Lane], entry: u64) -> Option<(usize, usize)>
    requires { CanGoOn head.now.entries head.now.branches lanes.now }
    ensures { result ≡ wanted_from 0 entry head.now.branches lanes.now }
{
    for (k, branch) in head.branches.as_slice().iter().enumerate() {
        if let Some(basket) = wanted_by(entry, branch, &lanes[k]) {
            return Some((k, basket));
        }
    }
    None
}

/// The number of the first entry of a basket.
pub(crate) fn first_entry(branches: &[Branch], branch: usize, basket: usize) -> u64
    ensures { result ≡ first_entry (baskets_at branches.now branch) basket }
{
    match branches.get(branch) {
        Some(branch) => match branch.baskets.get(basket) {
            Some(basket) => basket.first,
            None => 0,
        },
        None => 0,
    }
}
