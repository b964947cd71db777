//! A record of the chain of a file is released.
use crate::Chain;
use crate::behind::put_word;
use rio_host::{Host, HostFault};

impl Chain {
    ghost use Rattle.std.specs.Prelude.{◌≡◌, ◌-◌, ◌%◌, ◌<◌, ◌≤◌, ℕ, List, map, Some, true, false, OnOk, OnErr};
    ghost use Rattle.rio_host.specs.Host.{Elapses, IsDiskCause, IsQuiet, OnlyWrites};
    ghost use Rattle.rio_chain.specs.Adjoining.{AreSegments};
    ghost use Rattle.rio_chain.specs.Becoming.{ChainBecomes};
    ghost use Rattle.rio_chain.specs.Chains.{HasChain, HasRecordSegment, HoldsChain};
    ghost use Rattle.rio_chain.specs.Changes.{IsFreedBy, without_record};
    ghost use Rattle.rio_chain.specs.Releasing.{without_segment};
    ghost use Rattle.rio_chain.specs.Segments.{Link, segment_of};
    ghost use Rattle.rio_chain.specs.Stops.{IsEither};

    // Changes the chain as a release does, and returns the word by which the file changes too: its
    // place, and the word. It is that of the gap that the bytes are in then, or END's.
    fn free(&mut self, place: u64) -> (u64, u32)
        requires fresh { self.old.spent ≡ false }
        requires record { HasRecordSegment self.old.segments place }
        requires later { 100 < place }
        requires room { 1 ≤ self.old.spare }
        ensures chain { self.new ≡ record self.old {
          segments = without_segment place self.old.segments;
          spare = self.old.spare - 1;
        } }
        ensures shape { AreSegments self.old.segments }
        ensures word { (links : List Link) → self.old.segments ≡ map segment_of links
            → IsFreedBy links place result.0 result.1 }
        ensures aligned { result.0 % 4 ≡ 0 }
    {
        let at = self.count_before(place);
        let record = self.records.remove(at);
        self.gaps.give(place, record.length);
        self.spare -= 1;
        match self.gaps.gap_over(place) {
            None => unreachable!(),
            Some(gap) if gap.end() < self.end => (gap.place, ((1 << 32) - gap.length) as u32),
            Some(gap) => {
                self.gaps.take(gap.place, gap.length);
                self.end = gap.place;
                (gap.place, 0)
            }
        }
    }

    /// Changes the chain as `release` of the record at `place` does, with no file.
    pub fn note_release(&mut self, place: u64)
        requires fresh { self.old.spent ≡ false }
        requires record { HasRecordSegment self.old.segments place }
        requires later { 100 < place }
        requires room { 1 ≤ self.old.spare }
        ensures { self.new ≡ record self.old {
          segments = without_segment place self.old.segments;
          spare = self.old.spare - 1;
        } }
    {
        let _ = self.free(place);
    }

    /// Releases the record at `place`, which isn't the first: its bytes are free, and the gaps beside
    /// it are one gap with them; where they reach END, it is lowered. One word does it. A stop at any
    /// moment leaves the segments of before or of after. It takes no memory, and reads nothing of the
    /// file. HostFault comes only where a call on the file failed; the chain is spent then, and the file
    /// has to be walked again.
    pub fn release<H: Host>(&mut self, host: &mut H, place: u64) -> Result<(), HostFault>
        requires fresh { self.old.spent ≡ false }
        requires holds { HoldsChain (H.view host.old) self.old.segments }
        requires quiet { IsQuiet (H.view host.old) }
        requires record { HasRecordSegment self.old.segments place }
        requires later { 100 < place }
        requires room { 1 ≤ self.old.spare }
        ensures any_moment { (file : List ℕ) (links : List Link)
            → (H.view host.old).holds ≡ Some file → HasChain links self.old.segments file
            → Elapses (H.view host.old) (H.view host.new)
            (IsEither (H.view host.old) file links (without_record place links)) }
        ensures holds { OnOk result (ChainBecomes (H.view host.old) (H.view host.new)
            self.old.segments self.new.segments (without_record place)) }
        ensures quiet { OnOk result (IsQuiet (H.view host.new)) }
        ensures chain { OnOk result (self.new ≡ record self.old {
          segments = without_segment place self.old.segments;
          spare = self.old.spare - 1;
        }) }
        ensures spent { OnErr result (self.new.spent ≡ true) }
        ensures writes { OnlyWrites (H.view host.old) (H.view host.new) }
        ensures cause { IsDiskCause (H.view host.old) (H.view host.new) result }
    {
        let (start, word) = self.free(place);
        match put_word(host, start, word) {
            Ok(()) => Ok(()),
            Err(_) => {
                self.spent = true;
                Err(HostFault)
            }
        }
    }
}
