//! The header of a tree as far as its length goes, and which trees have a short one.
ghost use Rattle.std.specs.Prelude.{◌≡◌, ◌||◌, IfOk, length, nat_lt};
ghost use Rattle.std.specs.List.{list_any};
ghost use Rattle.rio_machine.specs.Limits.{has_many_leaves};
ghost use Rattle.rio_tree.specs.HeaderLength.{bare_branch, bare_head};

use rio_judge::any_has_many_leaves;
use rio_leaf::BranchDef;
use rio_num::NoMemory;
use rio_tree::{Baskets, Branch, BranchNumbers, Branches, TreeHead, has_offsets};
use std::alloc::Global;

// How long a tree's name may be.
const NAME_LIMIT: usize = 100;

// A branch without entries and baskets.
fn bare_branch(alloc: Global, def: &BranchDef) -> Result<Branch, NoMemory>
    ensures { IfOk result (λ branch. branch ≡ bare_branch def.now) }
{
    Ok(Branch {
        def: def.copy()?,
        class_version: 0,
        entries: 0,
        offsets: has_offsets(&def.shape),
        baskets: Baskets::new(alloc),
        counted_by: BranchNumbers::new(alloc),
        refused: None,
    })
}

/// The header of a tree of these branches without entries and baskets. Each header of the tree is as long, but for its baskets.
pub(crate) fn bare_head(alloc: Global, branches: &[BranchDef]) -> Result<TreeHead, NoMemory>
    ensures { IfOk result (λ head. head ≡ bare_head branches.now) }
{
    let mut bare = Branches::new(alloc);
    for def in branches {
        bare.push(bare_branch(alloc, def)?)?;
    }
    Ok(TreeHead {
        entries: 0,
        branches: bare,
    })
}

/// Whether the name of a tree is longer, or a branch of it has more leaves, than a file may have.
pub(crate) fn is_long_tree(name: &[u8], branches: &[BranchDef]) -> bool
    ensures { result ≡ (nat_lt 100 (length name.now)
        || list_any (λ b. has_many_leaves b.shape) branches.now) }
{
    name.len() > NAME_LIMIT || any_has_many_leaves(branches)
}
