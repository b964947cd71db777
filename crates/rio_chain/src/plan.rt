//! Places for records.
ghost use Rattle.std.specs.Prelude.{◌≡◌, ◌<◌, ◌≤◌, ◌^◌, sum, IfOk};
ghost use Rattle.rio_chain.specs.Plans.{Lays};

use crate::{Chain, PlanFault};
use rio_free::FreeList;
use rio_num::{Lengths, NoMemory, Places};
use std::alloc::Global;

// The sum of the lengths.
fn total(lengths: &[u64]) -> u64
    requires { sum lengths.now < 2 ^ 64 }
    ensures { result ≡ sum lengths.now }
{
    lengths.iter().sum()
}

// The places of these lengths among the gaps and from `end` on, or None where the end would pass the
// limit.
fn places_within(
    alloc: Global,
    gaps: &mut FreeList,
    end: u64,
    lengths: &[u64],
    limit: u64,
) -> Result<Option<Places>, NoMemory>
    requires { end ≤ limit }
    ensures { IfOk result (Lays lengths.now (record { gaps = gaps.old.gaps; end = end }) limit) }
{
    let mut places = Places::new(alloc);
    let mut end = end;
    for n in lengths {
        let place = match gaps.best(*n) {
            Some(place) => {
                gaps.take(place, *n);
                place
            }
            None => {
                if limit - end < *n {
                    return Ok(None);
                }
                end += *n;
                end - *n
            }
        };
        places.push(place)?;
    }
    Ok(Some(places))
}

impl Chain {
    ghost use Rattle.std.specs.Prelude.{◌≡◌, ◌≤◌, ◌<◌, ◌^◌, ◌∷◌, [], sum, MatchOption, IfOk, IfErr, IfSome, OnOk};
    ghost use Rattle.rio_chain.specs.Adjoining.{AreSegments};
    ghost use Rattle.rio_chain.specs.Placing.{end_after, place_of, places_of, space_of};
    ghost use Rattle.rio_chain.specs.Plans.{IsFull};

    /// Where a record of `n` bytes goes: into the first gap as long, else into the first that is longer by
    /// more than three, else to the end. None comes exactly where the end would pass the limit. It takes
    /// no memory.
    pub fn place_for(&self, n: u64, limit: u64) -> Option<u64>
        ensures shape { AreSegments self.now.segments }
        ensures place { IfSome result (λ place. place ≡ place_of self.now.segments n) }
        ensures low { IfSome result (λ place. place ≤ 1999999996) }
        ensures exact { MatchOption result
            (limit < end_after (n ∷ []) (space_of self.now.segments))
            (λ _. end_after (n ∷ []) (space_of self.now.segments) ≤ limit) }
    {
        if self.end > limit {
            return None;
        }
        match self.gaps.best(n) {
            Some(place) => Some(place),
            None if limit - self.end < n => None,
            None => Some(self.end),
        }
    }

    /// Where records of these lengths go, one after the other: each into the first gap as long, else into
    /// the first that is longer by more than three, else to the end. Full comes only where the end would
    /// pass the limit, with the end before and the sum of the lengths.
    pub fn plan(&self, lengths: &Lengths, limit: u64) -> Result<Places, PlanFault>
        requires { sum lengths.now < 2 ^ 64 }
        ensures places { IfOk result
            (λ places. places ≡ places_of lengths.now (space_of self.now.segments)) }
        ensures fits { OnOk result (end_after lengths.now (space_of self.now.segments) ≤ limit) }
        ensures full { IfErr result (IsFull self.now.segments lengths.now limit) }
    {
        let wanted = total(lengths.as_slice());
        let full = PlanFault::Full {
            end: self.end,
            wanted,
        };
        if self.end > limit {
            return Err(full);
        }
        if lengths.is_empty() {
            return Ok(Places::new(lengths.allocator()));
        }
        let mut gaps = self.gaps.copy()?;
        match places_within(
            lengths.allocator(),
            &mut gaps,
            self.end,
            lengths.as_slice(),
            limit,
        )? {
            Some(places) => Ok(places),
            None => Err(full),
        }
    }
}
