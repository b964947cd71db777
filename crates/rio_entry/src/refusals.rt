//! Which branches of a tree aren't read, by its header and by the file.
ghost use Rattle.std.specs.Prelude.{◌≡◌, ◌<◌, ℕ, List, Some, IfOk, is_none, length, slice_get, take};
ghost use Rattle.std.specs.List.{list_any};
ghost use Rattle.rio_host.specs.Host.{IsLength};
ghost use Rattle.rio_host.specs.OnlyReads.{OnlyReads};
ghost use Rattle.rio_host.specs.Reading.{IsReadCause};
ghost use Rattle.rio_entry.specs.Refusals.{branch_refusal, refusals_of};
ghost use Rattle.rio_tree.specs.declared.head.Branch.{Branch as Branched};
ghost use Rattle.rio_entry.specs.Lanes.{AreLanes};
ghost use Rattle.rio_entry.specs.Checked.{CountersMade};

use crate::checked::{Made, counters_alone};
use crate::lane::Lane;
use crate::row_reader::{FileTree, read_tree_row, refusal_before};
use crate::stored::{out_of_memory, refusal_of_baskets};
use crate::tree_row::BranchRefusals;
use rio_host::{Host, ReadFault};
use rio_num::NoMemory;
use rio_tree::BranchRefusal;
use std::alloc::Global;

// Why the branch at `k` isn't read, behind those that are refused so, before any entry is looked at.
fn first_refusal<H: Host>(
    alloc: Global,
    host: &mut H,
    tree: &FileTree,
    k: usize,
    refusals: &BranchRefusals,
) -> Result<Option<BranchRefusal>, ReadFault>
    requires length { IsLength (H.view host.old) tree.now.file_length }
    requires within { k < length tree.now.branches.now }
    ensures refusal { IfOk result (λ refusal. (file : List ℕ)
        → (H.view host.old).holds ≡ Some file → (b : Branched)
        → slice_get tree.now.branches.now k ≡ Some b
        → refusal ≡ branch_refusal file tree.now.classes.now 0
        (take k tree.now.branches.now) refusals.now b) }
    ensures calls { OnlyReads (H.view host.old) (H.view host.new) }
    ensures cause { IsReadCause (H.view host.old) (H.view host.new) result }
{
    let branch = &tree.branches[k];
    let told = refusal_before(refusals, branch, branch.refused);
    if told.is_some() {
        return Ok(told);
    }
    let baskets = branch.baskets.as_slice();
    refusal_of_baskets(
        alloc,
        host,
        tree.file_length,
        branch.offsets,
        branch.entries,
        baskets,
    )
}

// Why each branch isn't read, before any entry is looked at.
fn first_refusals<H: Host>(
    alloc: Global,
    host: &mut H,
    tree: &FileTree,
) -> Result<BranchRefusals, ReadFault>
    requires { IsLength (H.view host.old) tree.now.file_length }
    ensures refusals { IfOk result (λ refusals. (file : List ℕ)
        → (H.view host.old).holds ≡ Some file
        → refusals ≡ refusals_of file tree.now.classes.now 0 tree.now.branches.now) }
    ensures count { IfOk result (λ refusals. length refusals ≡ length tree.now.branches.now) }
    ensures calls { OnlyReads (H.view host.old) (H.view host.new) }
    ensures cause { IsReadCause (H.view host.old) (H.view host.new) result }
{
    let mut refusals = BranchRefusals::new(alloc);
    for k in 0..tree.branches.len() {
        let refusal = first_refusal(alloc, host, tree, k, &refusals)?;
        refusals.push(refusal).map_err(out_of_memory)?;
    }
    Ok(refusals)
}

/// Nothing is held of so many branches.
pub fn empty_lanes(alloc: Global, n: usize) -> Result<Vec<Lane>, NoMemory>
    ensures count { IfOk result (λ lanes. length lanes.items ≡ n) }
    ensures empty { IfOk result (λ lanes. (file : List ℕ) (e : ℕ) (branches : List Branched)
        → AreLanes file e branches lanes.items) }
{
    let mut lanes = Vec::new(alloc);
    for _k in 0..n {
        lanes.push(Lane::empty())?;
    }
    Ok(lanes)
}

fn is_any_read(refusals: &BranchRefusals) -> bool
    ensures { result ≡ list_any is_none refusals.now }
{
    let refusals = refusals.as_slice();
    refusals.iter().any(|refusal| refusal.is_none())
}

// Goes through the entries: a branch is no longer read from the first one on that isn't read. At least the numbers of branches
// that count leaves of others are made.
fn check_entries<H: Host>(
    alloc: Global,
    host: &mut H,
    tree: &FileTree,
    entries: u64,
    made: &[Made],
    first: BranchRefusals,
) -> Result<BranchRefusals, ReadFault>
    requires length { IsLength (H.view host.old) tree.now.file_length }
    requires counters { CountersMade made.now tree.now.branches.now }
    requires count { length first ≡ length tree.now.branches.now }
    ensures refusals { IfOk result (λ refusals. (file : List ℕ)
        → (H.view host.old).holds ≡ Some file
        → first ≡ refusals_of file tree.now.classes.now 0 tree.now.branches.now
        → refusals ≡ refusals_of file tree.now.classes.now entries tree.now.branches.now) }
    ensures count { IfOk result (λ refusals. length refusals ≡ length tree.now.branches.now) }
    ensures calls { OnlyReads (H.view host.old) (H.view host.new) }
    ensures cause { IsReadCause (H.view host.old) (H.view host.new) result }
{
    let mut lanes = empty_lanes(alloc, tree.branches.len()).map_err(out_of_memory)?;
    let mut refusals = first;
    for entry in 0..entries {
        if !is_any_read(&refusals) {
            return Ok(refusals);
        }
        let row = read_tree_row(
            alloc,
            host,
            tree,
            entry,
            refusals.as_slice(),
            made,
            &mut lanes,
        )?;
        refusals = row.refusals;
    }
    Ok(refusals)
}

/// Why each branch of a tree with so many entries isn't read.
pub fn find_refusals<H: Host>(
    alloc: Global,
    host: &mut H,
    tree: &FileTree,
    entries: u64,
) -> Result<BranchRefusals, ReadFault>
    requires { IsLength (H.view host.old) tree.now.file_length }
    ensures refusals { IfOk result (λ refusals. (file : List ℕ)
        → (H.view host.old).holds ≡ Some file
        → refusals ≡ refusals_of file tree.now.classes.now entries tree.now.branches.now) }
    ensures count { IfOk result (λ refusals. length refusals ≡ length tree.now.branches.now) }
    ensures calls { OnlyReads (H.view host.old) (H.view host.new) }
    ensures cause { IsReadCause (H.view host.old) (H.view host.new) result }
{
    let first = first_refusals(alloc, host, tree)?;
    let made = counters_alone(alloc, tree.branches).map_err(out_of_memory)?;
    check_entries(alloc, host, tree, entries, made.as_slice(), first)
}
