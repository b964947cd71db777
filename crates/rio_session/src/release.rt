//! Records are released, one after the other.
ghost use Rattle.std.specs.Prelude.{◌≡◌, ◌≤◌, length, map, false, OnOk};
ghost use Rattle.rio_host.specs.Host.{IsDiskCause, IsQuiet, OnlyWrites};
ghost use Rattle.rio_chain.specs.Chains.{HoldsChain};
ghost use Rattle.rio_chain.specs.Changes.{without_record};
ghost use Rattle.rio_recover.specs.Cleaning.{without_segments};
ghost use Rattle.rio_session.specs.Changing.{ChangesInTime, Changing, IsUnderway};
ghost use Rattle.rio_session.specs.Releases.{AreReleasable};
ghost use Rattle.rio_session.specs.SessionState.{SessionState};

use rio_chain::Chain;
use rio_host::{Host, HostFault};

// Releases the records at these places, one after the other. HostFault comes only where a call on the file failed.
pub(crate) fn release_all<H: Host>(
    chain: &mut Chain,
    host: &mut H,
    places: &[u64],
) -> Result<(), HostFault>
    requires fresh { chain.old.spent ≡ false }
    requires holds { HoldsChain (H.view host.old) chain.old.segments }
    requires quiet { IsQuiet (H.view host.old) }
    requires records { AreReleasable chain.old.segments places.now }
    requires room { length places.now ≤ chain.old.spare }
    ensures done { OnOk result ((p : Changing) (s : SessionState)
        → s.segments ≡ chain.old.segments → p.changes ≡ map without_record places.now
        → IsUnderway p (length p.changes) (H.view host.old) (H.view host.new) s
        chain.new.segments) }
    ensures any_moment { (p : Changing) (s : SessionState) → s.segments ≡ chain.old.segments
        → p.changes ≡ map without_record places.now
        → ChangesInTime p (H.view host.old) (H.view host.new) s }
    ensures quiet { OnOk result (IsQuiet (H.view host.new)) }
    ensures chain { OnOk result
        (chain.new.segments ≡ without_segments places.now chain.old.segments) }
    ensures fresh { OnOk result (chain.new.spent ≡ false) }
    ensures writes { OnlyWrites (H.view host.old) (H.view host.new) }
    ensures cause { IsDiskCause (H.view host.old) (H.view host.new) result }
{
    for place in places {
        chain.release(host, *place)?;
    }
    Ok(())
}
