//! The chain that is kept beside a file.
use crate::segment::Span;
use rio_free::FreeList;
use rio_num::NoMemory;
use std::alloc::Global;
use std::marker::Model;

/// The chain of a file: its records and its gaps, with room for later changes. It changes as the file
/// does.
#[derive(Debug, Drop)]
pub struct Chain {
    pub(crate) records: Vec<Span>,
    pub(crate) gaps: FreeList,
    pub(crate) end: u64,
    pub(crate) spare: usize,
    pub(crate) spent: bool,
}

impl Model for Chain {
    ghost use Rattle.std.specs.Prelude.{◌≡◌, ◌+◌, ◌≤◌, vec_len, vec_capacity};
    ghost use Rattle.rio_chain.specs.Adjoining.{AreSegments};
    ghost use Rattle.rio_chain.specs.Chains.{ChainState};
    ghost use Rattle.rio_chain.specs.Merging.{merged, spans_in};
    ghost use Rattle.rio_chain.specs.Placing.{file_end, gaps_in};

    ghost Value = { ChainState };

    ghost view = { λ c. record {
      segments = merged c.records.items c.gaps.gaps;
      spare = c.spare;
      spent = c.spent;
    } };

    ghost invariant = { λ c. record {
      shape : AreSegments (merged c.records.items c.gaps.gaps);
      records_are : c.records.items ≡ spans_in (merged c.records.items c.gaps.gaps);
      gaps_are : c.gaps.gaps ≡ gaps_in (merged c.records.items c.gaps.gaps);
      end_is : c.end ≡ file_end (merged c.records.items c.gaps.gaps);
      low : c.end ≤ 1999999996;
      room : vec_len c.records + c.spare ≤ vec_capacity c.records;
      gap_room : c.spare ≤ c.gaps.spare;
    } };
}

impl Chain {
    ghost use Rattle.std.specs.Prelude.{◌≡◌, ◌+◌, ◌<◌, ◌≤◌, max, length, OnOk, OnErr, IfOk};
    ghost use Rattle.rio_chain.specs.Adjoining.{AreSegments};
    ghost use Rattle.rio_chain.specs.Placing.{file_end, gaps_in, record_count};

    /// END: the place behind the last segment.
    pub fn end(&self) -> u64
        ensures end { result ≡ file_end self.now.segments }
        ensures low { result ≤ 1999999996 }
        ensures shape { AreSegments self.now.segments }
    {
        self.end
    }

    /// How many records there are.
    pub fn live(&self) -> u64
        ensures { result ≡ record_count self.now.segments }
    {
        self.records.len() as u64
    }

    /// The gaps, in order of place.
    pub fn gaps(&self) -> &FreeList
        ensures { result.now.gaps ≡ gaps_in self.now.segments }
    {
        &self.gaps
    }

    /// An equal chain.
    pub fn copy(&self) -> Result<Chain, NoMemory>
        ensures { IfOk result (λ chain. chain ≡ self.now) }
    {
        let alloc = *self.records.allocator();
        let mut records = Vec::with_capacity(alloc, self.records.len() + self.spare)?;
        records.extend_from_slice(&self.records)?;
        Ok(Chain {
            records,
            gaps: self.gaps.copy()?,
            end: self.end,
            spare: self.spare,
            spent: self.spent,
        })
    }

    /// Makes room for `n` later puts or releases.
    pub fn reserve(&mut self, n: u64) -> Result<(), NoMemory>
        ensures ok { OnOk result (self.new ≡ record self.old { spare = max self.old.spare n }) }
        ensures err { OnErr result ((self.new ≡ self.old) × (self.old.spare < n)) }
        ensures shape { AreSegments self.old.segments }
    {
        if self.spare as u64 >= n {
            return Ok(());
        }
        self.gaps.reserve(n)?;
        self.records.reserve(n as usize)?;
        self.spare = n as usize;
        Ok(())
    }
}

impl Chain {
    ghost use Rattle.std.specs.Prelude.{◌≡◌, ◌+◌, ◌-◌, ◌%◌, ◌≤◌, ◌∷◌, ◌++◌, [], length, sum, nat_lt, MatchOption, IfSome, false};
    ghost use Rattle.std.specs.List.{prefix_len};
    ghost use Rattle.rio_free.specs.Gaps.{HasGapFor};
    ghost use Rattle.rio_chain.specs.declared.segment.Segment.TheVariants.{Record};
    ghost use Rattle.rio_chain.specs.Merging.{spans_in};
    ghost use Rattle.rio_chain.specs.Batches.{AreLengths};
    ghost use Rattle.rio_chain.specs.Placing.{HasRest, HasRoomAt, IsFree, IsPlaceFor, file_end, gaps_in, with_segment, with_segments};

    // How many records begin before the place.
    pub(crate) fn count_before(&self, place: u64) -> usize
        ensures { result ≡ prefix_len (λ r. nat_lt r.place place) (spans_in self.now.segments) }
    {
        self.records.partition_point(|record| record.place < place)
    }

    // How many bytes are left behind a record of `n` bytes in the gap at `place`: None at END.
    pub(crate) fn rest_behind(&self, place: u64, n: u64) -> Option<u64>
        requires { IsPlaceFor self.now.segments n place }
        ensures rest { MatchOption result (place ≡ file_end self.now.segments)
            (λ rest. HasRest self.now.segments place n rest) }
        ensures small { IfSome result (λ rest. rest ≤ 1999999996) }
        ensures aligned { place % 4 ≡ 0 }
        ensures low { place ≤ 1999999996 }
    {
        match self.gaps.gap_over(place) {
            Some(gap) => Some(gap.length - n),
            None => None,
        }
    }

    // Puts a record of `n` bytes behind the last segment.
    fn note_end(&mut self, n: u64)
        requires low { file_end self.old.segments + n ≤ 1999999996 }
        requires aligned { n % 4 ≡ 0 }
        requires some { 4 ≤ n }
        requires room { 1 ≤ self.old.spare }
        ensures { self.new ≡ record self.old {
          segments = self.old.segments ++ Record (file_end self.old.segments) n ∷ [];
          spare = self.old.spare - 1;
        } }
    {
        let record = Span {
            place: self.end,
            length: n,
        };
        let _ = self.records.push(record);
        self.end += n;
        self.spare -= 1;
    }

    // Puts a record of `n` bytes at the front of the gap at `place`.
    fn note_gap(&mut self, place: u64, n: u64)
        requires fit { HasGapFor (gaps_in self.old.segments) place n }
        requires aligned { n % 4 ≡ 0 }
        requires some { 4 ≤ n }
        requires room { 1 ≤ self.old.spare }
        ensures { self.new ≡ record self.old {
          segments = with_segment place n self.old.segments;
          spare = self.old.spare - 1;
        } }
    {
        let at = self.count_before(place);
        let _ = self.records.insert(at, Span { place, length: n });
        self.gaps.take(place, n);
        self.spare -= 1;
    }

    // Puts a record of `n` bytes at a place that is free for it.
    fn note_at(&mut self, place: u64, n: u64)
        requires free { IsFree self.old.segments n place }
        requires low { file_end (with_segment place n self.old.segments) ≤ 1999999996 }
        requires aligned { n % 4 ≡ 0 }
        requires some { 4 ≤ n }
        requires room { 1 ≤ self.old.spare }
        ensures { self.new ≡ record self.old {
          segments = with_segment place n self.old.segments;
          spare = self.old.spare - 1;
        } }
    {
        if place == self.end {
            self.note_end(n);
        } else {
            self.note_gap(place, n);
        }
    }

    // Puts records of these lengths, one after the other from `place` on.
    pub(crate) fn note_all(&mut self, place: u64, lengths: &[u64])
        requires lengths { AreLengths lengths.now }
        requires space { HasRoomAt self.old.segments place (sum lengths.now) }
        requires low { file_end (with_segments place lengths.now self.old.segments) ≤ 1999999996 }
        requires room { length lengths.now ≤ self.old.spare }
        ensures { self.new ≡ record self.old {
          segments = with_segments place lengths.now self.old.segments;
          spare = self.old.spare - length lengths.now;
        } }
    {
        let _end = self.end();
        let mut at = place;
        for n in lengths {
            self.note_at(at, *n);
            at += *n;
        }
    }

    /// Changes the chain as `put_record` of `n` bytes at `place` does, with no file.
    pub fn note_put(&mut self, place: u64, n: u64)
        requires fresh { self.old.spent ≡ false }
        requires place { IsPlaceFor self.old.segments n place }
        requires low { file_end (with_segment place n self.old.segments) ≤ 1999999996 }
        requires aligned { n % 4 ≡ 0 }
        requires some { 4 ≤ n }
        requires room { 1 ≤ self.old.spare }
        ensures { self.new ≡ record self.old {
          segments = with_segment place n self.old.segments;
          spare = self.old.spare - 1;
        } }
    {
        self.note_at(place, n);
    }
}
