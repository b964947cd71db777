//! A session is ended.
ghost use Rattle.std.specs.Prelude.{◌≡◌, ◌+◌, ◌≤◌, ℕ, List, false, length, OnOk};
ghost use Rattle.rio_host.specs.Host.{Elapses, IsDiskCause, IsQuiet, Leaves, OnlyWrites};
ghost use Rattle.rio_chain.specs.Chains.{HoldsChain};
ghost use Rattle.rio_machine.specs.State.{State};
ghost use Rattle.rio_state.specs.Reads.{ReadsAsState, ReadsClosed};
ghost use Rattle.rio_step.specs.Runs.{closed_of};
ghost use Rattle.rio_session.specs.Closes.{AreSavesTold, ClosesFile};
ghost use Rattle.rio_session.specs.ClosingPlans.{CanBeWritten};
ghost use Rattle.rio_session.specs.Session.{ClosesAs, StandsFor};
ghost use Rattle.rio_session.specs.SessionState.{SessionState};

use crate::closing::{PlannedClose, plan_close};
use crate::steps::make_changes;
use crate::{Session, SessionFault};
use rio_chain::Chain;
use rio_close::write_close;
use rio_effect::headers_have_records;
use rio_host::{Host, HostFault};

// Writes a close that is planned. It takes no memory. HostFault comes only where a call on the file failed.
fn write_planned<H: Host>(
    host: &mut H,
    chain: &mut Chain,
    planned: PlannedClose,
) -> Result<(), HostFault>
    requires fresh { chain.old.spent ≡ false }
    requires holds { HoldsChain (H.view host.old) chain.old.segments }
    requires quiet { IsQuiet (H.view host.old) }
    requires room { length planned.steps.items + 2 ≤ chain.old.spare }
    requires planned { (s : SessionState)
        × CanBeWritten s chain.old.segments planned.steps.items planned.records }
    ensures any_moment { (s : SessionState) (m : State) (text : List ℕ)
        → CanBeWritten s chain.old.segments planned.steps.items planned.records
        → StandsFor (H.view host.old) s m text
        → Elapses (H.view host.old) (H.view host.new) (ClosesAs m text) }
    ensures closed { OnOk result ((s : SessionState) (m : State) (text : List ℕ)
        → CanBeWritten s chain.old.segments planned.steps.items planned.records
        → StandsFor (H.view host.old) s m text → (image said : List ℕ)
        → Leaves (H.view host.new) image said
        → ReadsAsState image (closed_of m) × ReadsClosed image (closed_of m)) }
    ensures written { OnOk result ((s : SessionState) (m : State) (text : List ℕ)
        → CanBeWritten s chain.old.segments planned.steps.items planned.records
        → StandsFor (H.view host.old) s m text
        → ClosesFile (H.view host.old) (H.view host.new) s) }
    ensures records { OnOk result ((s : SessionState) (m : State) (text : List ℕ)
        → CanBeWritten s chain.old.segments planned.steps.items planned.records
        → (stands : StandsFor (H.view host.old) s m text)
        → AreSavesTold s m stands.state.links) }
    ensures quiet { OnOk result (IsQuiet (H.view host.new)) }
    ensures writes { OnlyWrites (H.view host.old) (H.view host.new) }
    ensures cause { IsDiskCause (H.view host.old) (H.view host.new) result }
{
    headers_have_records();
    make_changes(chain, host, planned.steps)?;
    write_close(host, chain, planned.records)?;
    Ok(())
}

impl Session {
    ghost use Rattle.std.specs.Prelude.{◌≡◌, ℕ, List, false, OnOk, IsErrOf};
    ghost use Rattle.rio_host.specs.Host.{Elapses, IsQuiet, Leaves, OnlyWrites};
    ghost use Rattle.rio_host.specs.OnlyReads.{OnlyReads};
    ghost use Rattle.rio_machine.specs.State.{State};
    ghost use Rattle.rio_state.specs.Reads.{ReadsAsState, ReadsClosed};
    ghost use Rattle.rio_step.specs.Runs.{closed_of};
    ghost use Rattle.rio_session.specs.Causes.{IsCloseCause};
    ghost use Rattle.rio_session.specs.Closes.{AreSavesTold, ClosesFile};
    ghost use Rattle.rio_session.specs.Session.{ClosesAs, IsReady, StandsFor};
    ghost use Rattle.rio_session.specs.declared.fault.SessionFault.{SessionFault as Fault};

    /// Closes the file. The trees with pending rows are saved first, in order of names; all saves are planned, and all memory
    /// allocated, before the first write. NoMemory also comes where a tree that has pending rows is at its last cycle.
    pub fn close<H: Host>(self, host: &mut H) -> Result<(), SessionFault>
        requires fresh { self.failed ≡ false }
        requires ready { IsReady (H.view host.old) self }
        ensures any_moment { (m : State) (text : List ℕ)
            → StandsFor (H.view host.old) self m text
            → Elapses (H.view host.old) (H.view host.new) (ClosesAs m text) }
        ensures closed { OnOk result ((m : State) (text : List ℕ)
            → StandsFor (H.view host.old) self m text → (image said : List ℕ)
            → Leaves (H.view host.new) image said
            → ReadsAsState image (closed_of m) × ReadsClosed image (closed_of m)) }
        ensures written { OnOk result ((m : State) (text : List ℕ)
            → StandsFor (H.view host.old) self m text
            → ClosesFile (H.view host.old) (H.view host.new) self) }
        // The records after the saves follow from those of the file.
        ensures records { OnOk result ((m : State) (text : List ℕ)
            → (stands : StandsFor (H.view host.old) self m text)
            → AreSavesTold self m stands.state.links) }
        ensures quiet { OnOk result (IsQuiet (H.view host.new)) }
        // The file isn't read again.
        ensures writes { OnlyWrites (H.view host.old) (H.view host.new) }
        ensures no_memory { IsErrOf result Fault.NoMemory
            → OnlyReads (H.view host.old) (H.view host.new) }
        ensures cause { IsCloseCause (H.view host.old) (H.view host.new) result }
    {
        let Session {
            alloc,
            mut chain,
            table,
            filled,
            info,
            name,
            nbytes_name,
            datime,
            ..
        } = self;
        let trees = filled.as_slice();
        let own = name.as_slice();
        let last = info.as_ref();
        let planned = plan_close(alloc, &chain, table, trees, last, own, nbytes_name, datime)?;
        chain.reserve(planned.steps.len() as u64 + 2)?;
        write_planned(host, &mut chain, planned)?;
        Ok(())
    }
}
