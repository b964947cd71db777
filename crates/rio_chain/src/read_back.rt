//! A record of the chain is read.
use crate::{Chain, ReadFault};
use rio_host::{Host, bytes_at};
use rio_num::Bytes;

impl Chain {
    ghost use Rattle.std.specs.Prelude.{◌≡◌, ◌≤◌, ℕ, List, length, Some, Contains, false, IfOk};
    ghost use Rattle.rio_host.specs.OnlyReads.{OnlyReads};
    ghost use Rattle.rio_host.specs.Reading.{IsReadCause};
    ghost use Rattle.rio_chain.specs.Chains.{HasChain, HasRecordSegment, HoldsChain};
    ghost use Rattle.rio_chain.specs.Segments.{Link, RecordAt};

    /// The bytes of the record at `place`.
    pub fn read_record<H: Host>(&self, host: &mut H, place: u64) -> Result<Bytes, ReadFault>
        requires fresh { self.now.spent ≡ false }
        requires record { HasRecordSegment self.now.segments place }
        requires holds { HoldsChain (H.view host.old) self.now.segments }
        ensures bytes { IfOk result (λ bytes. (file : List ℕ) (links : List Link)
            → (H.view host.old).holds ≡ Some file → HasChain links self.now.segments file
            → Contains links (RecordAt place bytes.bytes)) }
        ensures short { IfOk result (λ bytes. length bytes.bytes ≤ 1999999996) }
        ensures calls { OnlyReads (H.view host.old) (H.view host.new) }
        ensures cause { IsReadCause (H.view host.old) (H.view host.new) result }
    {
        let alloc = *self.records.allocator();
        let at = self.count_before(place);
        let n = self.records[at].length;
        let bytes = bytes_at(alloc, host, place, n as usize)?;
        Ok(Bytes::from(bytes))
    }
}
