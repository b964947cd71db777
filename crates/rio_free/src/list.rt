//! The gaps of a file: chosen, taken and given.
ghost use Rattle.std.specs.Prelude.{◌≡◌, ◌==◌, ◌+◌, ◌<◌, ◌≤◌, ◌^◌, ◌∷◌, nat_lt, take, drop, length, slice_get, vec_len, vec_capacity};
ghost use Rattle.std.specs.List.{All};
ghost use Rattle.rio_free.specs.Gaps.{best_gap, ends_before, gap_end, joined, length_at};

use crate::Gap;
use rio_num::NoMemory;
use std::alloc::Global;
use std::marker::Model;

/// The gaps of a file, sorted by place, those that touch as one, and for how many more there is room.
#[derive(Debug, Drop)]
pub struct FreeList {
    gaps: Vec<Gap>,
    spare: usize,
}

impl Model for FreeList {
    ghost use Rattle.std.specs.Prelude.{◌+◌, ◌≤◌, vec_len, vec_capacity};
    ghost use Rattle.rio_free.specs.Gaps.{AreGaps, FreeGaps};

    ghost Value = { FreeGaps };

    ghost view = { λ l. record { gaps = l.gaps.items; spare = l.spare } };

    ghost invariant = { λ l. record {
      sorted : AreGaps l.gaps.items;
      room : vec_len l.gaps + l.spare ≤ vec_capacity l.gaps;
    } };
}

// The first gap of `n` bytes, else the first that is longer by more than three.
fn best_gap(gaps: &[Gap], n: u64) -> Option<Gap>
    ensures { result ≡ best_gap n gaps.now }
{
    let mut longer: Option<Gap> = None;
    for gap in gaps {
        if gap.length == n {
            return Some(*gap);
        }
        if longer.is_none() && gap.length > n.saturating_add(3) {
            longer = Some(*gap);
        }
    }
    longer
}

// The length of the gap at `at`, where it begins at the place.
fn length_at(gaps: &[Gap], at: usize, place: u64) -> Option<u64>
    ensures { result ≡ length_at place (slice_get gaps.now at) }
{
    match gaps.get(at) {
        Some(gap) if place == gap.place => Some(gap.length),
        _ => None,
    }
}

// The gap as one with that at `at` where they touch, which goes out then.
fn join_next(gaps: &mut Vec<Gap>, at: usize, gap: Gap) -> Gap
    requires within { at ≤ length gaps.old.items }
    requires fits { gap_end gap < 2 ^ 64 }
    requires others_fit { All (λ g. gap_end g < 2 ^ 64) gaps.old.items }
    ensures joins { joined gap (drop at gaps.old.items) ≡ result ∷ drop at gaps.new.items }
    ensures front { take at gaps.new.items ≡ take at gaps.old.items }
    ensures inside { at ≤ length gaps.new.items }
    ensures len { vec_len gaps.new ≤ vec_len gaps.old }
    ensures room { vec_capacity gaps.old ≤ vec_capacity gaps.new }
{
    match length_at(gaps, at, gap.end()) {
        None => gap,
        Some(length) => {
            gaps.remove(at);
            Gap {
                place: gap.place,
                length: gap.length + length,
            }
        }
    }
}

impl FreeList {
    ghost use Rattle.std.specs.Prelude.{◌≡◌, ◌+◌, ◌-◌, ◌<◌, ◌≤◌, ◌^◌, ◌&&◌, ◌||◌, ℕ, [], length, max, not, nat_lt, OnOk, OnErr, IfOk, IfSome};
    ghost use Rattle.std.specs.List.{prefix_len};
    ghost use Rattle.rio_free.specs.Gaps.{AreGaps, HasGapFor, IsApart, best_place, ends_before, gap_of, gap_over, given, is_free, lies_in, taken};

    /// No gaps.
    pub fn new(alloc: Global) -> FreeList
        ensures { result ≡ record { gaps = []; spare = 0 } }
    {
        FreeList {
            gaps: Vec::new(alloc),
            spare: 0,
        }
    }

    /// The gaps in order of place: none is empty, and none touches the next.
    pub fn as_slice(&self) -> &[Gap]
        ensures all { result.now ≡ self.now.gaps }
        ensures sorted { AreGaps self.now.gaps }
    {
        self.gaps.as_slice()
    }

    /// An equal list, with as much room.
    pub fn copy(&self) -> Result<FreeList, NoMemory>
        ensures { IfOk result (λ list. list ≡ self.now) }
    {
        let alloc = *self.gaps.allocator();
        let mut gaps = Vec::with_capacity(alloc, self.gaps.len() + self.spare)?;
        gaps.extend_from_slice(&self.gaps)?;
        Ok(FreeList {
            gaps,
            spare: self.spare,
        })
    }

    /// Where `n` bytes go: the first gap as long, else the first that is longer by more than three.
    /// None comes exactly where there is none.
    pub fn best(&self, n: u64) -> Option<u64>
        ensures exact { result ≡ best_place n self.now.gaps }
        ensures found { IfSome result (λ place. HasGapFor self.now.gaps place n) }
    {
        match best_gap(&self.gaps, n) {
            Some(gap) => Some(gap.place),
            None => None,
        }
    }

    /// Makes room for `n` later gives.
    pub fn reserve(&mut self, n: u64) -> Result<(), NoMemory>
        ensures ok { OnOk result (self.new ≡ record self.old { spare = max self.old.spare n }) }
        ensures err { OnErr result ((self.new ≡ self.old) × (self.old.spare < n)) }
    {
        if self.spare as u64 >= n {
            return Ok(());
        }
        self.gaps.reserve(n as usize)?;
        self.spare = n as usize;
        Ok(())
    }

    // How many gaps begin before the place.
    fn count_before(&self, place: u64) -> usize
        ensures { result ≡ prefix_len (λ g. nat_lt g.place place) self.now.gaps }
    {
        self.gaps.partition_point(|gap| gap.place < place)
    }

    // Whether the gap before the one at `at` ends at the place.
    fn ends_before(&self, at: usize, place: u64) -> bool
        requires { at ≤ length self.now.gaps }
        ensures { result ≡ ends_before self.now.gaps at place }
    {
        at > 0 && self.gaps[at - 1].end() == place
    }

    /// The gap that the byte at `place` lies in.
    pub fn gap_over(&self, place: u64) -> Option<Gap>
        ensures { result ≡ gap_over place self.now.gaps }
    {
        let behind = self.gaps.partition_point(|gap| gap.place <= place);
        if behind == 0 {
            return None;
        }
        let gap = self.gaps[behind - 1];
        if place < gap.end() { Some(gap) } else { None }
    }

    /// Takes `n` bytes at the front of the gap at `place`.
    pub fn take(&mut self, place: u64, n: u64)
        requires { HasGapFor self.old.gaps place n }
        ensures exact { self.new ≡ record self.old { gaps = taken place n self.old.gaps } }
        ensures free { (byte : ℕ) → is_free self.new.gaps byte
            ≡ (is_free self.old.gaps byte && not (lies_in byte (gap_of place n))) }
    {
        let at = self.count_before(place);
        let length = self.gaps[at].length;
        if length == n {
            self.gaps.remove(at);
        } else {
            self.gaps[at] = Gap {
                place: place + n,
                length: length - n,
            };
        }
    }

    /// Adds `n` free bytes at `place` for which there is room; with gaps that they touch they are one.
    pub fn give(&mut self, place: u64, n: u64)
        requires room { 1 ≤ self.old.spare }
        requires some { 1 ≤ n }
        requires fits { place + n < 2 ^ 64 }
        requires apart { IsApart (gap_of place n) self.old.gaps }
        ensures exact { self.new ≡ record {
          gaps = given (gap_of place n) self.old.gaps;
          spare = self.old.spare - 1;
        } }
        ensures free { (byte : ℕ) → is_free self.new.gaps byte
            ≡ (is_free self.old.gaps byte || lies_in byte (gap_of place n)) }
    {
        let at = self.count_before(place);
        let touches = self.ends_before(at, place);
        let gap = join_next(&mut self.gaps, at, Gap { place, length: n });
        self.spare -= 1;
        if touches {
            self.gaps[at - 1].length += gap.length;
        } else {
            let _ = self.gaps.insert(at, gap);
        }
    }
}
