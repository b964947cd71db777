//! Which leaf counts which, found once for a tree.
ghost use Rattle.std.specs.Prelude.{◌≡◌, map, IfOk};
ghost use Rattle.rio_entry.specs.Counting.{counters_within};

use crate::LeafCounters;
use rio_num::NoMemory;
use rio_tree::Branch;
use std::alloc::Global;
use std::marker::Model;

fn counters_of(alloc: Global, branches: &[Branch]) -> Result<Vec<LeafCounters>, NoMemory>
    ensures { IfOk result
        (λ counters. counters.items ≡ map (λ b. counters_within b.def.shape) branches.now) }
{
    let mut counters = Vec::new(alloc);
    for branch in branches {
        counters.push(LeafCounters::new(alloc, &branch.def.shape)?)?;
    }
    Ok(counters)
}

/// Of each branch of a tree which leaf counts which.
#[derive(Drop)]
pub struct TreeCounters {
    branches: Vec<LeafCounters>,
}

impl Model for TreeCounters {
    ghost use Rattle.std.specs.Prelude.{ℕ, List, Option};

    ghost Value = { List (List (Option ℕ)) };

    ghost view = { λ counters. counters.branches.items };
}

impl TreeCounters {
    ghost use Rattle.std.specs.Prelude.{◌≡◌, ◌<◌, length, Some, IfOk, slice_get};
    ghost use Rattle.rio_entry.specs.TreeCounters.{tree_counters};

    pub fn new(alloc: Global, branches: &[Branch]) -> Result<TreeCounters, NoMemory>
        ensures { IfOk result (λ counters. counters ≡ tree_counters branches.now) }
    {
        Ok(TreeCounters {
            branches: counters_of(alloc, branches)?,
        })
    }

    /// Those of the branch at `k`.
    pub fn at(&self, k: usize) -> &LeafCounters
        requires { k < length self.now }
        ensures { slice_get self.now k ≡ Some result.now }
    {
        &self.branches[k]
    }
}
