//! The header of a tree that is made.
ghost use Rattle.std.specs.Prelude.{◌≡◌, IfOk};
ghost use Rattle.std.specs.List.{list_any};
ghost use Rattle.rio_leaf.specs.Leaves.{has_leaf};
ghost use Rattle.rio_leaf.specs.Stated.{leaves_of};
ghost use Rattle.rio_effect.specs.TreeRecords.{new_branch, new_head, version_in_header};
ghost use Rattle.rio_session.specs.Counters.{counts_leaf, is_branch_of_leaf};
ghost use Rattle.rio_tree.specs.WrittenLaws.{branch_of_leaf, counting_branches};

use rio_format::Classes;
use rio_leaf::{BranchDef, Dim, Leaf, Shape, leaves_of};
use rio_num::NoMemory;
use rio_tree::{Baskets, Branch, BranchNumbers, Branches, TreeHead, has_offsets};
use std::alloc::Global;

// The version that the header gives the class of a branch: the newest.
fn version_of(classes: &Classes, shape: &Shape) -> i32
    ensures { result ≡ version_in_header classes.now shape.now }
{
    match shape {
        Shape::Leaves(_) => 0,
        Shape::Class(name) => match classes.newest(name.as_slice()) {
            Some(class) => class.version,
            None => 0,
        },
    }
}

// Whether a branch has a leaf of the name.
fn has_leaf(branch: &BranchDef, name: &[u8]) -> bool
    ensures { result ≡ has_leaf (leaves_of branch.now.shape) name.now }
{
    leaves_of(&branch.shape)
        .iter()
        .any(|leaf| leaf.name.as_slice() == name)
}

// The number of the first branch that has a leaf of the name.
fn branch_of_leaf(branches: &[BranchDef], name: &[u8]) -> Option<usize>
    ensures { result ≡ branch_of_leaf branches.now name.now }
{
    branches.iter().position(|branch| has_leaf(branch, name))
}

// Whether the branch at `k` is the first that has a leaf of the name.
fn is_first_with(before: &[BranchDef], k: usize, name: &[u8]) -> bool
    ensures { result ≡ is_branch_of_leaf before.now k name.now }
{
    match branch_of_leaf(before, name) {
        Some(first) => first == k,
        None => false,
    }
}

// Whether the branch at `k` has the counter of the leaf.
fn counts_leaf(before: &[BranchDef], k: usize, leaf: &Leaf) -> bool
    ensures { result ≡ counts_leaf before.now k leaf.now }
{
    match &leaf.dim {
        Dim::Counted { counter, .. } => is_first_with(before, k, counter.as_slice()),
        _ => false,
    }
}

// Whether it has that of one of these.
fn counts_one(before: &[BranchDef], k: usize, leaves: &[Leaf]) -> bool
    ensures { result ≡ list_any (counts_leaf before.now k) leaves.now }
{
    leaves.iter().any(|leaf| counts_leaf(before, k, leaf))
}

// The numbers of the branches before whose leaves count these.
fn counting_branches(
    alloc: Global,
    before: &[BranchDef],
    leaves: &[Leaf],
) -> Result<BranchNumbers, NoMemory>
    ensures { IfOk result (λ numbers. numbers ≡ counting_branches before.now leaves.now) }
{
    let mut numbers = BranchNumbers::new(alloc);
    for k in 0..before.len() {
        if counts_one(before, k, leaves) {
            numbers.push(k)?;
        }
    }
    Ok(numbers)
}

// A branch behind others, without entries and baskets.
fn new_branch(
    alloc: Global,
    classes: &Classes,
    before: &[BranchDef],
    def: &BranchDef,
) -> Result<Branch, NoMemory>
    ensures { IfOk result (λ made. made ≡ new_branch classes.now before.now def.now) }
{
    Ok(Branch {
        def: def.copy()?,
        class_version: version_of(classes, &def.shape),
        entries: 0,
        offsets: has_offsets(&def.shape),
        baskets: Baskets::new(alloc),
        counted_by: counting_branches(alloc, before, leaves_of(&def.shape))?,
        refused: None,
    })
}

/// The header of a tree of these branches, without rows.
pub(crate) fn new_head(
    alloc: Global,
    classes: &Classes,
    branches: &[BranchDef],
) -> Result<TreeHead, NoMemory>
    ensures { IfOk result (λ head. head ≡ new_head classes.now branches.now) }
{
    let mut made = Branches::new(alloc);
    for (k, def) in branches.iter().enumerate() {
        let branch = new_branch(alloc, classes, &branches[..k], def)?;
        made.push(branch)?;
    }
    Ok(TreeHead {
        entries: 0,
        branches: made,
    })
}
