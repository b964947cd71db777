//! The garbage of a file is released.
ghost use Rattle.std.specs.Prelude.{◌≡◌, ◌-◌, ◌≤◌, ℕ, List, Some, true, false, length, OnErr, OnOk};
ghost use Rattle.rio_host.specs.Host.{Elapses, IsDiskCause, IsQuiet, OnlyWrites};
ghost use Rattle.rio_chain.specs.Chains.{HasChain, HoldsChain};
ghost use Rattle.rio_chain.specs.Segments.{Link};
ghost use Rattle.rio_machine.specs.State.{State};
ghost use Rattle.rio_state.specs.KeyedRecords.{keyed_records};
ghost use Rattle.rio_state.specs.Reads.{AreRecordsOf};
ghost use Rattle.rio_recover.specs.Cleaning.{AreReleasable, HoldsCleaned, HoldsCleanedIn, IsCleaned, IsCleaning, without_segments};
ghost use Rattle.rio_recover.specs.Recovered.{HasRoomBehind, garbage_of};
ghost use Rattle.rio_recover.specs.Whole.{IsWhole};

use crate::Recovered;
use rio_chain::Chain;
use rio_host::{Host, HostFault};

// Releases the records at these places, one after the other.
fn release_all<H: Host>(host: &mut H, chain: &mut Chain, places: &[u64]) -> Result<(), HostFault>
    requires fresh { chain.old.spent ≡ false }
    requires records { AreReleasable chain.old.segments places.now }
    requires room { length places.now ≤ chain.old.spare }
    requires holds { HoldsChain (H.view host.old) chain.old.segments }
    requires quiet { IsQuiet (H.view host.old) }
    ensures any_moment { (file : List ℕ) (links : List Link) (m : State)
        → (H.view host.old).holds ≡ Some file
        → HasChain links chain.old.segments file
        → places.now ≡ garbage_of (keyed_records links)
        → AreRecordsOf (keyed_records links) m
        → Elapses (H.view host.old) (H.view host.new) (IsCleaning (H.view host.old) file m) }
    ensures cleaned { OnOk result ((file : List ℕ) (links : List Link)
        → (H.view host.old).holds ≡ Some file
        → HasChain links chain.old.segments file
        → places.now ≡ garbage_of (keyed_records links)
        → HoldsCleanedIn (H.view host.new) file links chain.new.segments) }
    ensures holds { OnOk result (HoldsChain (H.view host.new) chain.new.segments) }
    ensures chain { OnOk result (chain.new ≡ record chain.old {
      segments = without_segments places.now chain.old.segments;
      spare = chain.old.spare - length places.now;
    }) }
    ensures quiet { OnOk result (IsQuiet (H.view host.new)) }
    ensures spent { OnErr result (chain.new.spent ≡ true) }
    ensures writes { OnlyWrites (H.view host.old) (H.view host.new) }
    ensures cause { IsDiskCause (H.view host.old) (H.view host.new) result }
{
    for place in places {
        chain.release(host, *place)?;
    }
    Ok(())
}

/// Releases the records that nothing refers to, in order of place. It takes no memory and reads nothing
/// of the file. A crash at any moment leaves a file whose records stand for the same state. HostFault comes
/// only where a call on the file failed; the chain is spent then.
///
/// What was recovered is as [`recover`](crate::recover) returned it, and so is the file, but for the word of
/// END in its header.
pub fn clean<H: Host>(host: &mut H, recovered: &mut Recovered) -> Result<(), HostFault>
    requires fresh { recovered.old.chain.spent ≡ false }
    requires whole { IsWhole recovered.old }
    requires room { HasRoomBehind recovered.old }
    requires holds { HoldsChain (H.view host.old) recovered.old.chain.segments }
    requires quiet { IsQuiet (H.view host.old) }
    ensures any_moment { (file : List ℕ) (links : List Link) (m : State)
        → (H.view host.old).holds ≡ Some file
        → HasChain links recovered.old.chain.segments file
        → recovered.old.garbage ≡ garbage_of (keyed_records links)
        → AreRecordsOf (keyed_records links) m
        → Elapses (H.view host.old) (H.view host.new) (IsCleaning (H.view host.old) file m) }
    ensures cleaned { OnOk result ((file : List ℕ) (links : List Link)
        → (H.view host.old).holds ≡ Some file
        → HasChain links recovered.old.chain.segments file
        → recovered.old.garbage ≡ garbage_of (keyed_records links)
        → HoldsCleaned (H.view host.new) file links recovered.new) }
    ensures holds { OnOk result (HoldsChain (H.view host.new) recovered.new.chain.segments) }
    ensures kept { OnOk result (IsCleaned recovered.old recovered.new) }
    ensures quiet { OnOk result (IsQuiet (H.view host.new)) }
    ensures spent { OnErr result (recovered.new.chain.spent ≡ true) }
    ensures writes { OnlyWrites (H.view host.old) (H.view host.new) }
    ensures cause { IsDiskCause (H.view host.old) (H.view host.new) result }
{
    release_all(host, &mut recovered.chain, recovered.garbage.as_slice())
}
