//! A session on a new file is begun.
ghost use Rattle.std.specs.Prelude.{◌≡◌, ◌≤◌, ℕ, List, Some, length, true, IfOk, OnOk};
ghost use Rattle.rio_host.specs.Host.{Any, Becomes, Elapses, IsQuiet};
ghost use Rattle.rio_host.specs.OnlyReads.{OnlyReads};
ghost use Rattle.rio_create.specs.Creation.{LeavesUnclosed};
ghost use Rattle.rio_create.specs.NewFile.{IsNewFile};
ghost use Rattle.rio_chain.specs.Walks.{Told};
ghost use Rattle.rio_dir.specs.Unborn.{is_unborn};
ghost use Rattle.rio_machine.specs.State.{State};
ghost use Rattle.rio_state.specs.Left.{ReadsClosedUnlessOpen};
ghost use Rattle.rio_state.specs.Reads.{ReadsAsState};
ghost use Rattle.rio_session.specs.Opening.{BeginsOn, IsBegun, IsNotOpened, IsOpenCause};
ghost use Rattle.rio_session.specs.Opening.{TellsWhyNot};
ghost use Rattle.rio_session.specs.Session.{IsReady, StandsFor};

use crate::open_tree::Due;
use crate::open_trees::OpenTrees;
use crate::{OpenFault, Session};
use rio_create::{Created, create};
use rio_dir::KeyTable;
use rio_host::Host;
use rio_num::Name;
use rio_registry::Registry;
use rio_tree_table::TreeTable;
use std::alloc::Global;

// Makes the file, which isn't made yet.
pub(crate) fn open_new<H: Host>(
    alloc: Global,
    host: &mut H,
    name: &[u8],
    datime: u32,
) -> Result<Session, OpenFault>
    requires short { length name.now ≤ 200 }
    requires unborn { Told (H.view host.old) (λ file. is_unborn file ≡ true) }
    ensures any_moment { (file text : List ℕ) (m : State) → IsQuiet (H.view host.old)
        → (H.view host.old).holds ≡ Some file → (H.view host.old).said ≡ Some text
        → ReadsAsState file m
        → Elapses (H.view host.old) (H.view host.new) (λ image said. ReadsAsState image m
        × (ReadsClosedUnlessOpen file m → ReadsClosedUnlessOpen image m) × (said ≡ text)) }
    ensures unclosed { (file : List ℕ) → IsQuiet (H.view host.old)
        → (H.view host.old).holds ≡ Some file → LeavesUnclosed (H.view host.new) }
    ensures stands { IfOk result (λ session. (file text : List ℕ) (m : State)
        → (H.view host.old).holds ≡ Some file → (H.view host.old).said ≡ Some text
        → ReadsAsState file m → StandsFor (H.view host.new) session m text) }
    ensures ready { IfOk result (IsReady (H.view host.new)) }
    ensures begins { IfOk result (λ session. Told (H.view host.old)
        (λ file. BeginsOn name.now datime file (H.view host.new) session)) }
    ensures begun { IfOk result (IsBegun datime) }
    ensures made { OnOk result ((file : List ℕ) → (H.view host.old).holds ≡ Some file
        → (new : List ℕ) × ((H.view host.new).holds ≡ Some new)
        × IsNewFile name.now datime new) }
    ensures why_not { Told (H.view host.old) (λ file. TellsWhyNot file result) }
    ensures untouched { IsNotOpened result → OnlyReads (H.view host.old) (H.view host.new) }
    ensures told { Becomes Any (H.view host.old).holds (H.view host.new).holds }
    ensures said { (H.view host.new).said ≡ (H.view host.old).said }
    ensures cause { IsOpenCause (H.view host.old) (H.view host.new) result }
{
    let own = Name::from_slice(alloc, name)?;
    host.sync()?;
    let Created { chain, nbytes_name } = create(alloc, host, name, datime)?;
    Ok(Session {
        alloc,
        chain,
        registry: Registry::new(alloc),
        table: KeyTable::new(alloc),
        heads_bytes: 0,
        trees: TreeTable::new(alloc),
        filled: OpenTrees::new(alloc),
        due: Due {
            bytes: 0,
            baskets: 0,
        },
        info: None,
        name: own,
        nbytes_name,
        datime,
        opened: 0,
        costs: 0,
        failed: false,
    })
}
