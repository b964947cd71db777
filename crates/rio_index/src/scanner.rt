//! A scan of a tree.
ghost use Rattle.std.specs.Prelude.{◌≡◌, ◌<◌, length, map, slice_set, IfOk, Some};
ghost use Rattle.rio_index.specs.Scan.{empty_lane, lane_at};

use crate::lane::{Held, Lane};
use crate::next::{check_next, is_memory, read_next};
use crate::search::{entry_count, first_entry, first_wanted};
use rio_entry::{EntryFault, TreeCounters};
use rio_format::{Classes, Values};
use rio_key::StoredBasket;
use rio_num::NoMemory;
use rio_tree::{Branch, BranchRefusal, TreeHead};
use std::alloc::Global;
use std::marker::Model;

// What a scan has of each branch at first.
fn empty_lanes(alloc: Global, branches: &[Branch]) -> Result<Vec<Lane>, NoMemory>
    ensures { IfOk result (λ lanes. lanes.items ≡ map empty_lane branches.now) }
{
    let mut lanes = Vec::new(alloc);
    for branch in branches {
        lanes.push(Lane {
            refused: branch.refused,
            held: None,
        })?;
    }
    Ok(lanes)
}

// The basket is held, and no other of the branch.
fn hold(lanes: &mut [Lane], branch: usize, held: Held)
    requires { branch < length lanes.old }
    ensures { lanes.new
        ≡ slice_set lanes.old branch (record (lane_at lanes.old branch) { held = Some held }) }
{
    lanes[branch].held = Some(held);
}

/// A scan of a tree, row after row. It holds one basket of each branch, tells which basket it wants, and reads rows of the
/// baskets that it is given. Contracts see the header, the refusal and the basket of each branch, and the next row's
/// number.
#[derive(Drop)]
pub struct Scanner {
    alloc: Global,
    head: TreeHead,
    counters: TreeCounters,
    lanes: Vec<Lane>,
    next: u64,
}

impl Model for Scanner {
    ghost use Rattle.std.specs.Prelude.{◌≡◌};
    ghost use Rattle.rio_entry.specs.TreeCounters.{tree_counters};
    ghost use Rattle.rio_index.specs.Scan.{CanGoOn, RowScan};

    ghost Value = { RowScan };

    ghost view = { λ s. record { head = s.head; lanes = s.lanes.items; next = s.next } };

    ghost invariant = { λ s. record {
      going : CanGoOn s.head.entries s.head.branches s.lanes.items;
      counted : s.counters ≡ tree_counters s.head.branches;
    } };
}

impl Scanner {
    ghost use Rattle.std.specs.Prelude.{◌≡◌, ◌<◌, length, map, None, IfOk};
    ghost use Rattle.rio_index.specs.Given.{GivesRow};
    ghost use Rattle.rio_index.specs.Scan.{CanGoOn, CanScan, HasNext, IsWanted, behind_next, count_in_basket, from_start, holding, next_broken, refusing, scan_begun, wanted, wanting};

    /// A scan that stands at row 0 and holds nothing.
    pub fn new(alloc: Global, head: TreeHead) -> Result<Scanner, NoMemory>
        requires { CanScan head.entries head.branches }
        ensures { IfOk result (λ s. s ≡ scan_begun head) }
    {
        let counters = TreeCounters::new(alloc, head.branches.as_slice())?;
        let lanes = empty_lanes(alloc, head.branches.as_slice())?;
        Ok(Scanner {
            alloc,
            head,
            counters,
            lanes,
            next: 0,
        })
    }

    /// The header of the tree.
    pub fn head(&self) -> &TreeHead
        ensures same { result.now ≡ self.now.head }
        ensures sound { CanGoOn self.now.head.entries self.now.head.branches self.now.lanes }
    {
        &self.head
    }

    /// The number of the next row.
    pub fn next(&self) -> u64
        ensures { result ≡ self.now.next }
    {
        self.next
    }

    /// What the scan has of each branch.
    pub fn lanes(&self) -> &[Lane]
        ensures { result.now ≡ self.now.lanes }
    {
        self.lanes.as_slice()
    }

    /// The first branch that wants a basket for the next row, with the number of the basket: the first one that is read and
    /// whose entry stands in a basket that isn't held. None where the row can be read, and past the last row.
    pub fn wants(&self) -> Option<(usize, usize)>
        ensures { result ≡ wanted self.now }
    {
        first_wanted(&self.head, self.lanes.as_slice(), self.next)
    }

    /// How many entries the header gives a basket of the branch; None where there is no such basket.
    pub fn entry_count(&self, branch: usize, basket: usize) -> Option<u64>
        ensures { result ≡ count_in_basket self.now branch basket }
    {
        entry_count(self.head.branches.get(branch)?, basket)
    }

    /// The scan holds this basket of the branch from now on, and no other of the branch.
    pub fn give(&mut self, branch: usize, basket: usize, entries: StoredBasket)
        requires { IsWanted self.old branch basket (length entries) }
        ensures holds { self.new ≡ holding self.old branch basket entries }
        ensures fewer { wanting self.new < wanting self.old }
    {
        let first = first_entry(self.head.branches.as_slice(), branch, basket);
        hold(self.lanes.as_mut_slice(), branch, Held { first, entries });
    }

    /// The next row, or the fault of the first branch whose entry breaks; the scan then stands at the row behind. None past
    /// the last row. Where memory runs out the scan stays where it was.
    pub fn row(&mut self, classes: &Classes) -> Result<Option<Values>, EntryFault>
        requires { wanted self.old ≡ None }
        ensures { GivesRow classes.now result self.old self.new }
    {
        if self.next >= self.head.entries {
            return Ok(None);
        }
        let row = read_next(
            self.alloc,
            classes,
            self.next,
            self.head.branches.as_slice(),
            &self.counters,
            self.lanes.as_slice(),
        );
        if !is_memory(&row) {
            self.next += 1;
        }
        Ok(Some(row?))
    }

    /// The number of the first branch whose entry breaks in the next row; None where the row is read.
    pub fn check(&self, classes: &Classes) -> Result<Option<usize>, NoMemory>
        requires { wanted self.now ≡ None }
        ensures { IfOk result (λ found. found ≡ next_broken classes.now self.now) }
    {
        check_next(
            self.alloc,
            classes,
            self.next,
            self.head.branches.as_slice(),
            &self.counters,
            self.lanes.as_slice(),
        )
    }

    /// Passes over the next row.
    pub fn skip(&mut self)
        requires { HasNext self.old }
        ensures { self.new ≡ behind_next self.old }
    {
        prove!(self.next < self.head.entries);
        self.next += 1;
    }

    /// The branch isn't read from now on, and nothing of it is held. Branches that are counted by its leaves are read as
    /// before: the caller refuses them.
    pub fn refuse(&mut self, branch: usize, why: BranchRefusal)
        requires { branch < length self.old.head.branches }
        ensures { self.new ≡ refusing self.old branch why }
    {
        self.lanes[branch] = Lane {
            refused: Some(why),
            held: None,
        };
    }

    /// The scan stands at row 0 again. What it holds and refuses stays.
    pub fn rewind(&mut self)
        ensures { self.new ≡ from_start self.old }
    {
        self.next = 0;
    }
}
