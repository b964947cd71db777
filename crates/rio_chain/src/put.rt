//! Records are put into the chain of a file.
ghost use Rattle.std.specs.Prelude.{◌≡◌, ◌≤◌, ◌<◌, ◌^◌, ◌++◌, IfSome};
ghost use Rattle.rio_chain.specs.Batches.{first_length};
ghost use Rattle.rio_chain.specs.Placing.{word_behind};

use crate::Chain;
use crate::behind::put_behind;
use rio_host::{Host, HostFault};
use rio_num::{Bytes, Lengths};

// Puts the word behind a record at the end of its bytes, which have room for it: that of what is left
// of a gap, or END's.
fn append_word(body: &mut Bytes, rest: Option<u64>)
    requires room { 4 ≤ body.old.spare }
    requires small { IfSome rest (λ rest. rest < 2 ^ 32) }
    ensures { body.new.bytes ≡ body.old.bytes ++ word_behind rest }
{
    match rest {
        None => {
            let _ = body.put_u32(0);
        }
        Some(0) => {}
        Some(rest) => {
            let _ = body.put_u32(((1 << 32) - rest) as u32);
        }
    }
}

fn first_length(lengths: &[u64]) -> u64
    ensures { result ≡ first_length lengths.now }
{
    match lengths {
        [first, ..] => *first,
        [] => 0,
    }
}

impl Chain {
    ghost use Rattle.std.specs.Prelude.{◌≡◌, ◌+◌, ◌-◌, ◌≤◌, ◌<◌, ◌^◌, ℕ, List, Some, length, true, false, OnOk, OnErr};
    ghost use Rattle.rio_host.specs.Host.{Elapses, IsDiskCause, IsQuiet, OnlyWrites};
    ghost use Rattle.rio_chain.specs.Batches.{AreRecords, cut_by};
    ghost use Rattle.rio_chain.specs.Becoming.{ChainBecomes};
    ghost use Rattle.rio_chain.specs.Chains.{HasChain, HoldsChain};
    ghost use Rattle.rio_chain.specs.Changes.{with_record, with_records};
    ghost use Rattle.rio_chain.specs.Placing.{IsPlaceFor, file_end, with_segment, with_segments};
    ghost use Rattle.rio_chain.specs.Segments.{Link, IsRecord};
    ghost use Rattle.rio_chain.specs.Stops.{IsEither};

    // Puts records one after the other from `place` on: all bytes but the first word, and then the word.
    fn put_all<H: Host>(
        &mut self,
        host: &mut H,
        place: u64,
        body: &mut Bytes,
        lengths: &[u64],
    ) -> Result<(), HostFault>
        requires fresh { self.old.spent ≡ false }
        requires holds { HoldsChain (H.view host.old) self.old.segments }
        requires quiet { IsQuiet (H.view host.old) }
        requires whole { AreRecords place lengths.now body.old.bytes }
        requires place { IsPlaceFor self.old.segments (length body.old.bytes) place }
        requires low { file_end (with_segments place lengths.now self.old.segments)
            ≤ 1999999996 }
        requires spare { 4 ≤ body.old.spare }
        requires room { length lengths.now ≤ self.old.spare }
        ensures any_moment { (file : List ℕ) (links : List Link)
            → (H.view host.old).holds ≡ Some file → HasChain links self.old.segments file
            → Elapses (H.view host.old) (H.view host.new) (IsEither (H.view host.old) file links
            (with_records place (cut_by lengths.now body.old.bytes) links)) }
        ensures holds { OnOk result (ChainBecomes (H.view host.old) (H.view host.new)
            self.old.segments self.new.segments
            (with_records place (cut_by lengths.now body.old.bytes))) }
        ensures quiet { OnOk result (IsQuiet (H.view host.new)) }
        ensures chain { OnOk result (self.new ≡ record self.old {
          segments = with_segments place lengths.now self.old.segments;
          spare = self.old.spare - length lengths.now;
        }) }
        ensures spent { OnErr result (self.new.spent ≡ true) }
        ensures writes { OnlyWrites (H.view host.old) (H.view host.new) }
        ensures cause { IsDiskCause (H.view host.old) (H.view host.new) result }
    {
        let n = body.len() as u64;
        let rest = self.rest_behind(place, n);
        append_word(body, rest);
        let first = first_length(lengths);
        match put_behind(host, place, &body.as_slice()[4..], first as u32) {
            Ok(()) => {
                self.note_all(place, lengths);
                Ok(())
            }
            Err(_) => {
                self.spent = true;
                Err(HostFault)
            }
        }
    }

    /// Puts a record at `place`, which is the rule's for its length, or END. The body is the whole
    /// record for this place, with four bytes spare, which are used. A stop at any moment leaves the
    /// segments of before or of after. HostFault comes only where a call on the file failed; the chain
    /// is spent then, and the file has to be walked again.
    pub fn put_record<H: Host>(
        &mut self,
        host: &mut H,
        place: u64,
        body: &mut Bytes,
    ) -> Result<(), HostFault>
        requires fresh { self.old.spent ≡ false }
        requires holds { HoldsChain (H.view host.old) self.old.segments }
        requires quiet { IsQuiet (H.view host.old) }
        requires whole { IsRecord place body.old.bytes }
        requires place { IsPlaceFor self.old.segments (length body.old.bytes) place }
        requires low { file_end (with_segment place (length body.old.bytes) self.old.segments)
            ≤ 1999999996 }
        requires spare { 4 ≤ body.old.spare }
        requires room { 1 ≤ self.old.spare }
        ensures any_moment { (file : List ℕ) (links : List Link)
            → (H.view host.old).holds ≡ Some file → HasChain links self.old.segments file
            → Elapses (H.view host.old) (H.view host.new)
            (IsEither (H.view host.old) file links (with_record place body.old.bytes links)) }
        ensures holds { OnOk result (ChainBecomes (H.view host.old) (H.view host.new)
            self.old.segments self.new.segments (with_record place body.old.bytes)) }
        ensures quiet { OnOk result (IsQuiet (H.view host.new)) }
        ensures chain { OnOk result (self.new ≡ record self.old {
          segments = with_segment place (length body.old.bytes) self.old.segments;
          spare = self.old.spare - 1;
        }) }
        ensures spent { OnErr result (self.new.spent ≡ true) }
        ensures writes { OnlyWrites (H.view host.old) (H.view host.new) }
        ensures cause { IsDiskCause (H.view host.old) (H.view host.new) result }
    {
        let n = body.len() as u64;
        let lengths = [n];
        self.put_all(host, place, body, &lengths)
    }

    /// Puts records of these lengths at `place`, one after the other: it is the rule's for their lengths
    /// together, or END. The bytes are whole records for the places from this one on, at least one, with
    /// four bytes spare, which are used. A stop at any moment leaves the segments of before, or all of the
    /// records. HostFault comes only where a call on the file failed; the chain is spent then, and the file
    /// has to be walked again.
    pub fn put_batch<H: Host>(
        &mut self,
        host: &mut H,
        place: u64,
        records: &mut Bytes,
        lengths: &Lengths,
    ) -> Result<(), HostFault>
        requires fresh { self.old.spent ≡ false }
        requires holds { HoldsChain (H.view host.old) self.old.segments }
        requires quiet { IsQuiet (H.view host.old) }
        requires whole { AreRecords place lengths.now records.old.bytes }
        requires place { IsPlaceFor self.old.segments (length records.old.bytes) place }
        requires low { file_end (with_segments place lengths.now self.old.segments)
            ≤ 1999999996 }
        requires spare { 4 ≤ records.old.spare }
        requires room { length lengths.now ≤ self.old.spare }
        ensures any_moment { (file : List ℕ) (links : List Link)
            → (H.view host.old).holds ≡ Some file → HasChain links self.old.segments file
            → Elapses (H.view host.old) (H.view host.new) (IsEither (H.view host.old) file links
            (with_records place (cut_by lengths.now records.old.bytes) links)) }
        ensures holds { OnOk result (ChainBecomes (H.view host.old) (H.view host.new)
            self.old.segments self.new.segments
            (with_records place (cut_by lengths.now records.old.bytes))) }
        ensures quiet { OnOk result (IsQuiet (H.view host.new)) }
        ensures chain { OnOk result (self.new ≡ record self.old {
          segments = with_segments place lengths.now self.old.segments;
          spare = self.old.spare - length lengths.now;
        }) }
        ensures spent { OnErr result (self.new.spent ≡ true) }
        ensures writes { OnlyWrites (H.view host.old) (H.view host.new) }
        ensures cause { IsDiskCause (H.view host.old) (H.view host.new) result }
    {
        self.put_all(host, place, records, lengths.as_slice())
    }
}
