//! Where the baskets of a branch stand.
ghost use Rattle.std.specs.Prelude.{◌≡◌, pos};
ghost use Rattle.std.specs.Option.{ok_or};
ghost use Rattle.std.specs.Ordering.{int_eq};
ghost use Rattle.rio_tree.specs.Refusals.{are_in_order, basket_numbered, baskets_from, listed_baskets, natural_in, number_baskets, rise_behind};
ghost use Rattle.rio_tree.specs.Results.{GivesOrRefuses};
ghost use Rattle.rio_tree.specs.Tables.{branch_of};
ghost use Rattle.rio_tree.specs.declared.refusal.BranchRefusal.TheVariants.{BadBasketList as NoList};

use crate::branch_members::BranchSaid;
use crate::unread::Unread;
use crate::{BasketAt, Baskets, BranchRefusal};
use rio_format::Value;
use std::alloc::Global;

fn u32_in(value: &Value) -> Option<u32>
    ensures { result ≡ natural_in 32 value.now }
{
    u32::try_from(value.as_i32()?).ok()
}

fn u64_in(value: &Value) -> Option<u64>
    ensures { result ≡ natural_in 64 value.now }
{
    u64::try_from(value.as_i64()?).ok()
}

// The basket of this number. None where a list is shorter or a number below 0.
#[tactic(auto, unfolding(crate::specs::Refusals::basket_numbered, crate::specs::Refusals::basket_said))]
fn basket_numbered(said: &BranchSaid, k: usize) -> Option<BasketAt>
    ensures { result ≡ basket_numbered (branch_of said.now) k }
{
    let bytes = said.bytes.get(k)?;
    let first = said.firsts.get(k)?;
    let seek = said.seeks.get(k)?;
    let bytes = u32_in(bytes)?;
    let first = u64_in(first)?;
    let seek = u64_in(seek)?;
    Some(BasketAt { bytes, first, seek })
}

// The first baskets, so many.
fn first_baskets(alloc: Global, said: &BranchSaid, n: u32) -> Result<Baskets, Unread>
    ensures { GivesOrRefuses (λ x. x) result
        (ok_or (baskets_from (branch_of said.now) 0 n) NoList) }
{
    let mut baskets = Baskets::new(alloc);
    for k in 0..n {
        match basket_numbered(said, k as usize) {
            Some(basket) => baskets.push(basket)?,
            None => return Err(Unread::Refused(BranchRefusal::BadBasketList)),
        }
    }
    Ok(baskets)
}

fn number_baskets(alloc: Global, said: &BranchSaid) -> Result<Baskets, Unread>
    ensures { GivesOrRefuses (λ x. x) result
        (ok_or (number_baskets (branch_of said.now) said.now.write_basket) NoList) }
{
    match u32::try_from(said.write_basket) {
        Ok(n) => first_baskets(alloc, said, n),
        Err(_) => Err(Unread::Refused(BranchRefusal::BadBasketList)),
    }
}

fn rise_behind(first: u64, baskets: &[BasketAt]) -> bool
    ensures { result ≡ rise_behind first baskets.now }
{
    let mut last = first;
    for basket in baskets {
        if basket.first <= last {
            return false;
        }
        last = basket.first;
    }
    true
}

// Whether there is a basket if there are entries, the first begins at entry 0, and the first entries rise.
fn are_in_order(entries: u64, baskets: &[BasketAt]) -> bool
    ensures { result ≡ are_in_order entries baskets.now }
{
    match baskets.split_first() {
        None => entries == 0,
        Some((first, others)) => first.first == 0 && rise_behind(first.first, others),
    }
}

fn has_entries(said: &BranchSaid, entries: u64) -> bool
    ensures { result ≡ int_eq said.now.entries (pos entries) }
{
    i128::from(said.entries) == i128::from(entries)
}

/// Where the baskets of a branch stand, in a tree of so many entries.
#[tactic(auto, unfolding(crate::specs::Refusals::listed_baskets))]
pub(crate) fn listed_baskets(
    alloc: Global,
    entries: u64,
    said: &BranchSaid,
) -> Result<Baskets, Unread>
    ensures { GivesOrRefuses (λ x. x) result (listed_baskets entries (branch_of said.now)) }
{
    if !has_entries(said, entries) {
        return Err(Unread::Refused(BranchRefusal::EntryCount));
    }
    let baskets = number_baskets(alloc, said)?;
    if !are_in_order(entries, baskets.as_slice()) {
        return Err(Unread::Refused(BranchRefusal::BadBasketList));
    }
    Ok(baskets)
}
