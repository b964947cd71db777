//! Records are put and released, one after the other.
ghost use Rattle.std.specs.Prelude.{◌≡◌, ◌≤◌, ℕ, ◌-◌, List, length, false, Some, OnOk};
ghost use Rattle.rio_host.specs.Host.{Elapses, IsDiskCause, IsQuiet, OnlyWrites};
ghost use Rattle.rio_chain.specs.Becoming.{ChainBecomes};
ghost use Rattle.rio_chain.specs.Chains.{HasChain, HoldsChain};
ghost use Rattle.rio_chain.specs.Segments.{Link};
ghost use Rattle.rio_chain.specs.Stops.{IsEither};
ghost use Rattle.rio_session.specs.Changing.{ChangesInTime, Changing, IsUnderway};
ghost use Rattle.rio_session.specs.SessionState.{SessionState};
ghost use Rattle.rio_session.specs.Steps.{CanRun, CanStep, all_stepped, change_of, changes_of, stepped};

use rio_chain::Chain;
use rio_host::{Host, HostFault};
use rio_num::Bytes;

/// A change of a file's records, with all that is written for it.
#[derive(Drop)]
pub(crate) enum Step {
    /// The record is put at the place.
    Put { place: u64, body: Bytes },
    /// The record at the place is released.
    Release { place: u64 },
}

// Does a step that can be done. HostFault comes only where a call on the file failed.
fn make_change<H: Host>(chain: &mut Chain, host: &mut H, step: Step) -> Result<(), HostFault>
    requires fresh { chain.old.spent ≡ false }
    requires holds { HoldsChain (H.view host.old) chain.old.segments }
    requires quiet { IsQuiet (H.view host.old) }
    requires can { CanStep chain.old.segments step }
    requires room { 1 ≤ chain.old.spare }
    ensures any_moment { (file : List ℕ) (links : List Link)
        → (H.view host.old).holds ≡ Some file → HasChain links chain.old.segments file
        → Elapses (H.view host.old) (H.view host.new)
        (IsEither (H.view host.old) file links (change_of step links)) }
    ensures holds { OnOk result (ChainBecomes (H.view host.old) (H.view host.new)
        chain.old.segments chain.new.segments (change_of step)) }
    ensures quiet { OnOk result (IsQuiet (H.view host.new)) }
    ensures chain { OnOk result (chain.new ≡ record chain.old {
      segments = stepped step chain.old.segments;
      spare = chain.old.spare - 1;
    }) }
    ensures writes { OnlyWrites (H.view host.old) (H.view host.new) }
    ensures cause { IsDiskCause (H.view host.old) (H.view host.new) result }
{
    match step {
        Step::Put { place, body } => {
            let mut record = body;
            chain.put_record(host, place, &mut record)
        }
        Step::Release { place } => chain.release(host, place),
    }
}

/// Does all steps, which can be done one after the other. It takes no memory. HostFault comes only where a call on the file
/// failed.
pub(crate) fn make_changes<H: Host>(
    chain: &mut Chain,
    host: &mut H,
    steps: Vec<Step>,
) -> Result<(), HostFault>
    requires fresh { chain.old.spent ≡ false }
    requires holds { HoldsChain (H.view host.old) chain.old.segments }
    requires quiet { IsQuiet (H.view host.old) }
    requires run { CanRun steps.items chain.old.segments }
    requires room { length steps.items ≤ chain.old.spare }
    ensures done { OnOk result ((p : Changing) (s : SessionState)
        → s.segments ≡ chain.old.segments → p.changes ≡ changes_of steps.items
        → IsUnderway p (length p.changes) (H.view host.old) (H.view host.new) s
        chain.new.segments) }
    ensures any_moment { (p : Changing) (s : SessionState) → s.segments ≡ chain.old.segments
        → p.changes ≡ changes_of steps.items
        → ChangesInTime p (H.view host.old) (H.view host.new) s }
    ensures quiet { OnOk result (IsQuiet (H.view host.new)) }
    ensures chain { OnOk result
        (chain.new.segments ≡ all_stepped steps.items chain.old.segments) }
    ensures fresh { OnOk result (chain.new.spent ≡ false) }
    ensures spare { OnOk result (chain.new.spare ≡ chain.old.spare - length steps.items) }
    ensures writes { OnlyWrites (H.view host.old) (H.view host.new) }
    ensures cause { IsDiskCause (H.view host.old) (H.view host.new) result }
{
    for step in steps {
        make_change(chain, host, step)?;
    }
    Ok(())
}
