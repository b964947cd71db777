//! A session on a made file is begun.
ghost use Rattle.std.specs.Prelude.{◌≡◌, ◌≤◌, ℕ, List, map, Some, false, IfOk, OnOk};
ghost use Rattle.byteorder.specs.Endian.{big_bytes};
ghost use Rattle.rio_host.specs.Host.{Any, Becomes, Elapses, IsDiskCause, IsLength, IsQuiet, IsWithin, OnlyWrites};
ghost use Rattle.rio_host.specs.OnlyReads.{OnlyReads};
ghost use Rattle.rio_chain.specs.Becoming.{FileBecomes};
ghost use Rattle.rio_chain.specs.Stops.{IsWordOrNot};
ghost use Rattle.rio_chain.specs.Walks.{Told};
ghost use Rattle.rio_close.specs.EndWord.{SaysEnd};
ghost use Rattle.rio_dir.specs.Unborn.{is_unborn};
ghost use Rattle.rio_machine.specs.State.{State};
ghost use Rattle.rio_recover.specs.Recovered.{HasRoomBehind, IsRecovered};
ghost use Rattle.rio_recover.specs.TreeTable.{AreInOrder};
ghost use Rattle.rio_recover.specs.Whole.{IsWhole};
ghost use Rattle.rio_state.specs.Closing.{end_limit};
ghost use Rattle.rio_state.specs.Left.{ReadsClosedUnlessOpen, open_end};
ghost use Rattle.rio_state.specs.Reads.{ReadsAsState};
ghost use Rattle.rio_session.specs.Opening.{BeginsOn, IsBegun, IsNotOpened, IsOpenCause};
ghost use Rattle.rio_session.specs.Opening.{LeavesFileOrUnclosed, SparesFile, TellsWhyNot};
ghost use Rattle.rio_session.specs.Session.{IsReady, StandsFor};
ghost use Rattle.rio_session.specs.SessionState.{filled_tree_of, kept_tree_of};
ghost use Rattle.std.specs.List.{All};
ghost use Rattle.rio_fill.specs.Heads.{CanBeFilled};
ghost use Rattle.rio_tree.specs.HeaderLength.{basket_count};

use crate::bare_head::{bare_head, is_long_tree};
use crate::header::header_bytes;
use crate::open_tree::{Due, OpenTree};
use crate::open_trees::OpenTrees;
use crate::{OpenFault, Session};
use rio_chain::put_word;
use rio_fill::Filler;
use rio_host::{Failed, Host, HostFault};
use rio_num::NoMemory;
use rio_recover::{Recovered, TreeAt, clean, recover, stated_defs};
use rio_tree::written_tree_is_read;
use rio_tree_table::{KeptTree, TreeTable};
use std::alloc::Global;

// Where the header says END.
const END_PLACE: u64 = 12;

// What it says while the file is open.
const OPEN_END: u32 = 2_000_000_000;

// Marks the file as open, once all that was written before is on the disk. A stop at any moment
// leaves the mark whole or not at all, and it is on the disk when the call returns.
fn mark_open<H: Host>(host: &mut H) -> Result<(), Failed>
    requires within { IsWithin (H.view host.old) 12 }
    ensures any_moment { (file : List ℕ) → (H.view host.old).holds ≡ Some file
        → Elapses (H.view host.old) (H.view host.new)
        (IsWordOrNot (H.view host.old) file 12 (big_bytes 4 open_end)) }
    ensures marked { OnOk result (FileBecomes (H.view host.old) (H.view host.new)
        (SaysEnd open_end)) }
    ensures quiet { OnOk result (IsQuiet (H.view host.new)) }
    ensures writes { OnlyWrites (H.view host.old) (H.view host.new) }
    ensures cause { IsDiskCause (H.view host.old) (H.view host.new) result }
{
    host.sync()?;
    put_word(host, END_PLACE, OPEN_END)
}

// What is kept of a tree with this header: no rows are pending.
#[tactic(auto, using(crate::proofs::HeaderOfFill::defs_begun))]
fn kept_tree_of(alloc: Global, tree: &TreeAt) -> Result<KeptTree, NoMemory>
    ensures { IfOk result (λ kept. kept ≡ kept_tree_of (filled_tree_of tree.now)) }
{
    Ok(KeptTree {
        name: tree.name.copy()?,
        branches: stated_defs(alloc, tree.head.branches.as_slice())?,
        saved: tree.head.entries,
        pending: 0,
    })
}

// What is kept of the trees with these headers.
fn kept_trees(alloc: Global, trees: &[TreeAt]) -> Result<TreeTable, NoMemory>
    requires { AreInOrder trees.now }
    ensures { IfOk result
        (λ table. table.trees ≡ map (λ t. kept_tree_of (filled_tree_of t)) trees.now) }
{
    let mut table = TreeTable::new(alloc);
    for tree in trees {
        table.reserve_one()?;
        table.insert(kept_tree_of(alloc, tree)?);
    }
    Ok(table)
}

// The tree with this header, and nothing pending. No file with a longer name of a tree or with more leaves comes here.
fn filled_tree_of(alloc: Global, tree: &TreeAt) -> Result<OpenTree, NoMemory>
    requires fillable { CanBeFilled tree.now.head }
    requires few { basket_count tree.now.head ≤ end_limit }
    ensures { IfOk result (λ filled. filled ≡ filled_tree_of tree.now) }
{
    let defs = stated_defs(alloc, tree.head.branches.as_slice())?;
    if is_long_tree(tree.name.as_slice(), defs.as_slice()) {
        return Err(NoMemory);
    }
    let bare = bare_head(alloc, defs.as_slice())?;
    let header_bytes = header_bytes(alloc, tree.name.as_slice(), &bare)?;
    Ok(OpenTree {
        name: tree.name.copy()?,
        filler: Filler::new(alloc, &tree.head)?,
        header_bytes,
    })
}

// Those with these headers.
fn filled_trees(alloc: Global, trees: &[TreeAt]) -> Result<OpenTrees, NoMemory>
    requires order { AreInOrder trees.now }
    requires fillable { All (λ t. CanBeFilled t.head) trees.now }
    requires few { All (λ t. basket_count t.head ≤ end_limit) trees.now }
    ensures { IfOk result (λ filled. filled.trees ≡ map filled_tree_of trees.now) }
{
    let mut filled = OpenTrees::new(alloc);
    for tree in trees {
        filled.reserve_one()?;
        filled.insert(filled_tree_of(alloc, tree)?);
    }
    Ok(filled)
}

// Begins a session on what was recovered of the file: marks the file as open, and then releases its
// garbage. `opened` is the file's length. HostFault comes only where a call on the file failed.
fn begin<H: Host>(
    alloc: Global,
    host: &mut H,
    mut recovered: Recovered,
    trees: TreeTable,
    filled: OpenTrees,
    opened: u64,
    datime: u32,
) -> Result<Session, HostFault>
    requires made { Told (H.view host.old) (λ file. is_unborn file ≡ false) }
    requires recovered { Told (H.view host.old) (λ file. IsRecovered file recovered) }
    requires fresh { recovered.chain.spent ≡ false }
    requires whole { IsWhole recovered }
    requires room { HasRoomBehind recovered }
    requires filled { filled.trees ≡ map filled_tree_of recovered.trees }
    requires trees { trees.trees ≡ map kept_tree_of filled.trees }
    requires opened { IsLength (H.view host.old) opened }
    ensures any_moment { (file text : List ℕ) (m : State) → IsQuiet (H.view host.old)
        → (H.view host.old).holds ≡ Some file → (H.view host.old).said ≡ Some text
        → ReadsAsState file m
        → Elapses (H.view host.old) (H.view host.new) (λ image said. ReadsAsState image m
        × (ReadsClosedUnlessOpen file m → ReadsClosedUnlessOpen image m) × (said ≡ text)) }
    ensures unclosed { (file : List ℕ) → IsQuiet (H.view host.old)
        → (H.view host.old).holds ≡ Some file → LeavesFileOrUnclosed file (H.view host.new) }
    ensures stands { IfOk result (λ session. (file text : List ℕ) (m : State)
        → (H.view host.old).holds ≡ Some file → (H.view host.old).said ≡ Some text
        → ReadsAsState file m → StandsFor (H.view host.new) session m text) }
    ensures ready { IfOk result (IsReady (H.view host.new)) }
    ensures begins { IfOk result (λ session. (name : List ℕ) → Told (H.view host.old)
        (λ file. BeginsOn name datime file (H.view host.new) session)) }
    ensures begun { IfOk result (IsBegun datime) }
    ensures writes { OnlyWrites (H.view host.old) (H.view host.new) }
    ensures cause { IsDiskCause (H.view host.old) (H.view host.new) result }
{
    written_tree_is_read();
    mark_open(host)?;
    clean(host, &mut recovered)?;
    let Recovered {
        chain,
        registry,
        table,
        info,
        name,
        nbytes_name,
        ..
    } = recovered;
    // It is a chain of segments, whatever the host tells.
    chain.end();
    let heads_bytes = table.heads_length();
    Ok(Session {
        alloc,
        chain,
        registry,
        table,
        heads_bytes,
        trees,
        filled,
        due: Due {
            bytes: 0,
            baskets: 0,
        },
        info,
        name,
        nbytes_name,
        datime,
        opened,
        costs: 0,
        failed: false,
    })
}

// Reads the state of the file, which is made, marks it as open and releases its garbage.
pub(crate) fn open_made<H: Host>(
    alloc: Global,
    host: &mut H,
    datime: u32,
) -> Result<Session, OpenFault>
    requires made { Told (H.view host.old) (λ file. is_unborn file ≡ false) }
    ensures any_moment { (file text : List ℕ) (m : State) → IsQuiet (H.view host.old)
        → (H.view host.old).holds ≡ Some file → (H.view host.old).said ≡ Some text
        → ReadsAsState file m
        → Elapses (H.view host.old) (H.view host.new) (λ image said. ReadsAsState image m
        × (ReadsClosedUnlessOpen file m → ReadsClosedUnlessOpen image m) × (said ≡ text)) }
    ensures unclosed { (file : List ℕ) → IsQuiet (H.view host.old)
        → (H.view host.old).holds ≡ Some file → LeavesFileOrUnclosed file (H.view host.new) }
    ensures stands { IfOk result (λ session. (file text : List ℕ) (m : State)
        → (H.view host.old).holds ≡ Some file → (H.view host.old).said ≡ Some text
        → ReadsAsState file m → StandsFor (H.view host.new) session m text) }
    ensures ready { IfOk result (IsReady (H.view host.new)) }
    ensures begins { IfOk result (λ session. (name : List ℕ) → Told (H.view host.old)
        (λ file. BeginsOn name datime file (H.view host.new) session)) }
    ensures begun { IfOk result (IsBegun datime) }
    ensures why_not { Told (H.view host.old) (λ file. TellsWhyNot file result) }
    ensures spared { Told (H.view host.old)
        (λ file. SparesFile file (H.view host.old) (H.view host.new)) }
    ensures untouched { IsNotOpened result → OnlyReads (H.view host.old) (H.view host.new) }
    ensures told { Becomes Any (H.view host.old).holds (H.view host.new).holds }
    ensures said { (H.view host.new).said ≡ (H.view host.old).said }
    ensures cause { IsOpenCause (H.view host.old) (H.view host.new) result }
{
    let opened = host.length()?;
    let recovered = recover(alloc, host)?;
    let trees = kept_trees(alloc, recovered.trees.as_slice())?;
    let filled = filled_trees(alloc, recovered.trees.as_slice())?;
    Ok(begin(alloc, host, recovered, trees, filled, opened, datime)?)
}
