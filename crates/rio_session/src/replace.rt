//! A record is put, and another one released.
ghost use Rattle.std.specs.Prelude.{◌≡◌, ◌≤◌, ◌<◌, ◌∷◌, length, false, IfSome, OnOk, OnErr};
ghost use Rattle.rio_host.specs.Host.{IsDiskCause, IsQuiet, OnlyWrites};
ghost use Rattle.rio_chain.specs.Chains.{HasRecordSegment, HoldsChain};
ghost use Rattle.rio_chain.specs.Changes.{with_record};
ghost use Rattle.rio_chain.specs.Placing.{file_end, place_of, with_segment};
ghost use Rattle.rio_chain.specs.Segments.{IsRecord};
ghost use Rattle.rio_session.specs.Changing.{ChangesInTime, Changing, IsUnderway};
ghost use Rattle.rio_session.specs.Kept.{released_link, released_segment};
ghost use Rattle.rio_session.specs.SessionState.{SessionState};

use rio_chain::Chain;
use rio_host::{Host, HostFault};
use rio_key::KeyHead;
use rio_num::Bytes;

// Puts a record at the place of the rule, and then releases the record of another key, if there is one. HostFault comes
// only where a call on the file failed.
pub(crate) fn put_and_release<H: Host>(
    chain: &mut Chain,
    host: &mut H,
    place: u64,
    body: &mut Bytes,
    before: &Option<KeyHead>,
) -> Result<(), HostFault>
    requires fresh { chain.old.spent ≡ false }
    requires holds { HoldsChain (H.view host.old) chain.old.segments }
    requires quiet { IsQuiet (H.view host.old) }
    requires whole { IsRecord place body.old.bytes }
    requires place { place ≡ place_of chain.old.segments (length body.old.bytes) }
    requires low { file_end (with_segment place (length body.old.bytes) chain.old.segments)
        ≤ 1999999996 }
    requires spare { 4 ≤ body.old.spare }
    requires room { 2 ≤ chain.old.spare }
    requires there { IfSome before.now (λ h. HasRecordSegment chain.old.segments h.seek) }
    requires later { IfSome before.now (λ h. 100 < h.seek) }
    ensures done { OnOk result ((p : Changing) (s : SessionState)
        → s.segments ≡ chain.old.segments
        → p.changes ≡ with_record place body.old.bytes ∷ released_link before.now
        → IsUnderway p (length p.changes) (H.view host.old) (H.view host.new) s
        chain.new.segments) }
    ensures any_moment { (p : Changing) (s : SessionState) → s.segments ≡ chain.old.segments
        → p.changes ≡ with_record place body.old.bytes ∷ released_link before.now
        → ChangesInTime p (H.view host.old) (H.view host.new) s }
    ensures quiet { OnOk result (IsQuiet (H.view host.new)) }
    ensures chain { OnOk result (chain.new.segments ≡ released_segment before.now
        (with_segment place (length body.old.bytes) chain.old.segments)) }
    ensures fresh { OnOk result (chain.new.spent ≡ false) }
    ensures writes { OnlyWrites (H.view host.old) (H.view host.new) }
    ensures cause { IsDiskCause (H.view host.old) (H.view host.new) result }
{
    chain.put_record(host, place, body)?;
    match before {
        Some(head) => chain.release(host, head.seek),
        None => Ok(()),
    }
}
