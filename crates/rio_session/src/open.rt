//! A session is begun.
use crate::made_file::open_made;
use crate::new_file::open_new;
use crate::{OpenFault, Session};
use rio_host::Host;
use rio_recover::is_unborn;
use std::alloc::Global;

impl Session {
    ghost use Rattle.std.specs.Prelude.{◌≡◌, ◌≤◌, ℕ, List, Some, length, true, IfOk, OnOk};
    ghost use Rattle.rio_host.specs.Host.{Any, Becomes, Elapses, IsQuiet};
    ghost use Rattle.rio_host.specs.OnlyReads.{OnlyReads};
    ghost use Rattle.rio_create.specs.NewFile.{IsNewFile};
    ghost use Rattle.rio_chain.specs.Walks.{Told};
    ghost use Rattle.rio_dir.specs.Unborn.{is_unborn};
    ghost use Rattle.rio_machine.specs.State.{State};
    ghost use Rattle.rio_state.specs.Left.{ReadsClosedUnlessOpen};
    ghost use Rattle.rio_state.specs.Reads.{ReadsAsState};
    ghost use Rattle.rio_session.specs.Opening.{BeginsOn, IsBegun, IsNotOpened, IsOpenCause};
    ghost use Rattle.rio_session.specs.Opening.{LeavesFileOrUnclosed, SparesFile, TellsWhyNot};
    ghost use Rattle.rio_session.specs.Session.{IsReady, StandsFor};

    /// Opens a file. One that isn't made yet is made, with this name of at most 200 bytes. Of a made one the
    /// file is read and marked as open, and the records that nothing refers to are released; its name stays.
    /// BadFile is the first rule that its header breaks, and ReadOnly the first reason not to write to it;
    /// each has its place, and then nothing was written.
    pub fn open<H: Host>(
        alloc: Global,
        host: &mut H,
        name: &[u8],
        datime: u32,
    ) -> Result<Session, OpenFault>
        requires short { length name.now ≤ 200 }
        ensures any_moment { (file text : List ℕ) (m : State) → IsQuiet (H.view host.old)
            → (H.view host.old).holds ≡ Some file → (H.view host.old).said ≡ Some text
            → ReadsAsState file m
            → Elapses (H.view host.old) (H.view host.new) (λ image said. ReadsAsState image m
            × (ReadsClosedUnlessOpen file m → ReadsClosedUnlessOpen image m) × (said ≡ text)) }
        ensures unclosed { (file : List ℕ) → IsQuiet (H.view host.old)
            → (H.view host.old).holds ≡ Some file → LeavesFileOrUnclosed file (H.view host.new) }
        ensures stands { IfOk result (λ session. (file text : List ℕ) (m : State)
            → (H.view host.old).holds ≡ Some file → (H.view host.old).said ≡ Some text
            → ReadsAsState file m → StandsFor (H.view host.new) session m text) }
        ensures ready { IfOk result (IsReady (H.view host.new)) }
        ensures begins { IfOk result (λ session. Told (H.view host.old)
            (λ file. BeginsOn name.now datime file (H.view host.new) session)) }
        ensures begun { IfOk result (IsBegun datime) }
        ensures made { OnOk result ((file : List ℕ) → (H.view host.old).holds ≡ Some file
            → is_unborn file ≡ true → (new : List ℕ) × ((H.view host.new).holds ≡ Some new)
            × IsNewFile name.now datime new) }
        ensures why_not { Told (H.view host.old) (λ file. TellsWhyNot file result) }
        ensures spared { Told (H.view host.old)
            (λ file. SparesFile file (H.view host.old) (H.view host.new)) }
        ensures untouched { IsNotOpened result → OnlyReads (H.view host.old) (H.view host.new) }
        ensures told { Becomes Any (H.view host.old).holds (H.view host.new).holds }
        ensures said { (H.view host.new).said ≡ (H.view host.old).said }
        ensures cause { IsOpenCause (H.view host.old) (H.view host.new) result }
    {
        if is_unborn(host)? {
            open_new(alloc, host, name, datime)
        } else {
            open_made(alloc, host, datime)
        }
    }
}
