//! A tree that is being filled.
ghost use Rattle.std.specs.Prelude.{◌≡◌, Some, IfOk, IsTrue, OnOk, is_some, map, slice_get};
ghost use Rattle.std.specs.List.{All};
ghost use Rattle.std.specs.Option.{option_copied};
ghost use Rattle.rio_tree.specs.Header.{has_offsets};
ghost use Rattle.rio_fill.specs.Fill.{branch_fill_of, branch_put, branches_added, changed_at, has_room_at};
ghost use Rattle.rio_fill.specs.Heads.{places_wanted, saved_branches};
ghost use Rattle.rio_fill.specs.Room.{branches_reserved, entry_given, may_add, without_room};

use crate::branch::OpenBranch;
use crate::flags::{Flags, full_flags, open_flags};
use crate::prepared::{Prepared, prepare_row};
use rio_entry::EntryFault;
use rio_format::{Classes, Values};
use rio_key::Basket;
use rio_leaf::BranchDef;
use rio_num::NoMemory;
use rio_tree::{BasketAt, Baskets, Branch, Branches, TreeHead};
use std::alloc::Global;
use std::marker::Model;

fn open_branches(alloc: Global, branches: &[Branch]) -> Result<Vec<OpenBranch>, NoMemory>
    requires { All (λ b. b.offsets ≡ has_offsets b.def.shape) branches.now }
    ensures { IfOk result (λ opened. opened.items ≡ map branch_fill_of branches.now) }
{
    let mut opened = Vec::new(alloc);
    for branch in branches {
        opened.push(OpenBranch::new(alloc, branch)?)?;
    }
    Ok(opened)
}

// The entry of the row at `k`, where there is a row.
fn entry_given<'a>(row: Option<&'a Prepared>, k: usize) -> Option<&'a [u8]>
    ensures { option_copied result ≡ entry_given (option_copied row.entry) k }
{
    match row {
        Some(entries) => entries.entry(k),
        None => None,
    }
}

fn reserve_each(branches: &mut [OpenBranch], row: Option<&Prepared>) -> Result<(), NoMemory>
    ensures ok { OnOk result
        (branches.new ≡ branches_reserved branches.old (option_copied row.entry)) }
    ensures err { map without_room branches.new ≡ map without_room branches.old }
{
    for k in 0..branches.len() {
        branches[k].reserve(entry_given(row, k))?;
    }
    Ok(())
}

fn put_at(branches: &mut [OpenBranch], k: usize, at: BasketAt)
    requires { IsTrue (has_room_at branches.old k) }
    ensures { branches.new ≡ changed_at (branch_put at) branches.old k }
{
    branches[k].put(at);
}

// The entry of the row at `k`, which there is.
fn entry_at(row: &Prepared, k: usize) -> &[u8]
    requires { IsTrue (is_some (slice_get row.now k)) }
    ensures { slice_get row.now k ≡ Some result.now }
{
    match row.entry(k) {
        Some(entry) => entry,
        None => unreachable!(),
    }
}

fn add_each(branches: &mut [OpenBranch], row: &Prepared)
    requires { IsTrue (may_add branches.old row.now) }
    ensures { branches.new ≡ branches_added branches.old row.now }
{
    for k in 0..branches.len() {
        branches[k].add(entry_at(row, k));
    }
}

// How many places a save needs for the branch.
fn places_wanted(branch: &OpenBranch) -> usize
    ensures { result ≡ places_wanted branch.now }
{
    if branch.count() == 0 { 0 } else { 1 }
}

fn saved_branches(
    alloc: Global,
    entries: u64,
    branches: &[OpenBranch],
    ats: &[BasketAt],
) -> Result<Branches, NoMemory>
    ensures { IfOk result (λ saved. saved ≡ saved_branches entries branches.now ats.now) }
{
    let mut saved = Branches::new(alloc);
    let mut rest = ats;
    for branch in branches {
        let (own, others) = rest.split_at(places_wanted(branch).min(rest.len()));
        saved.push(branch.saved(entries, own)?)?;
        rest = others;
    }
    Ok(saved)
}

/// What is pending of a tree: rows that came since it was saved, in baskets that were written and in one open basket for
/// each branch.
#[derive(Drop)]
pub struct Filler {
    alloc: Global,
    // How many entries the last header has.
    saved: u64,
    pending: u64,
    branches: Vec<OpenBranch>,
}

impl Model for Filler {
    ghost use Rattle.std.specs.Prelude.{◌+◌, ◌<◌, ◌^◌};
    ghost use Rattle.rio_fill.specs.Fill.{TreeFill, defs_of};
    ghost use Rattle.rio_fill.specs.Heads.{AreFillable};

    ghost Value = { TreeFill };

    ghost view = { λ f. record {
      saved = f.saved;
      pending = f.pending;
      branches = f.branches.items;
    } };

    ghost invariant = { λ f. record {
      defs : AreFillable (defs_of f.branches.items);
      small : f.saved + f.pending < 2 ^ 64;
    } };
}

// How many rows the header has.
fn rows_saved(head: &TreeHead) -> u64
    ensures { result ≡ head.now.entries }
{
    head.entries
}

impl Filler {
    ghost use Rattle.std.specs.Prelude.{◌≡◌, ◌+◌, ◌-◌, ◌<◌, ◌^◌, IfOk, IsTrue, OnOk, length, slice_get};
    ghost use Rattle.std.specs.Option.{option_copied, option_map};
    ghost use Rattle.rio_num.specs.Answers.{GivesUnless};
    ghost use Rattle.rio_machine.specs.declared.entry_fault.EntryFault.TheVariants.{NoMemory as OutOfMemory};
    ghost use Rattle.rio_fill.specs.Fill.{all_saved, basket_of, basket_put, count_before, defs_of, entry_count, fill_of, full_flags, may_put, nothing_is_open, open_flags, row_added};
    ghost use Rattle.rio_fill.specs.Heads.{CanBeFilled, are_places, saved_head};
    ghost use Rattle.rio_fill.specs.Prepare.{are_sized, row_prepared};
    ghost use Rattle.rio_fill.specs.Room.{SameButRoom, may_add, reserved};

    /// A tree as it was saved, with nothing pending.
    pub fn new(alloc: Global, head: &TreeHead) -> Result<Filler, NoMemory>
        requires { CanBeFilled head.now }
        ensures { IfOk result (λ filler. filler ≡ fill_of head.now) }
    {
        let branches = open_branches(alloc, head.branches.as_slice())?;
        Ok(Filler {
            alloc,
            saved: rows_saved(head),
            pending: 0,
            branches,
        })
    }

    /// How many branches there are.
    pub fn width(&self) -> usize
        ensures { result ≡ length self.now.branches }
    {
        self.branches.len()
    }

    /// How many rows the last header has.
    pub fn saved_rows(&self) -> u64
        ensures { result ≡ self.now.saved }
    {
        self.saved
    }

    /// How many rows are pending.
    pub fn pending(&self) -> u64
        ensures { result ≡ self.now.pending }
    {
        self.pending
    }

    /// The open basket of a branch, counted from 0; None where there is no such branch.
    pub fn basket(&self, branch: usize) -> Option<&Basket>
        ensures { option_copied result ≡ option_map basket_of (slice_get self.now.branches branch) }
    {
        match self.branches.get(branch) {
            Some(branch) => Some(branch.basket()),
            None => None,
        }
    }

    /// The name and shape of a branch, counted from 0; None where there is no such branch.
    pub fn def(&self, branch: usize) -> Option<&BranchDef>
        ensures { option_copied result
            ≡ option_map (λ b. b.def) (slice_get self.now.branches branch) }
    {
        match self.branches.get(branch) {
            Some(branch) => Some(branch.def()),
            None => None,
        }
    }

    /// Where the baskets of a branch stand that were written, those of the last save first.
    pub fn baskets(&self, branch: usize) -> Option<&[BasketAt]>
        ensures { option_copied result
            ≡ option_map (λ b. b.baskets) (slice_get self.now.branches branch) }
    {
        match self.branches.get(branch) {
            Some(branch) => Some(branch.baskets()),
            None => None,
        }
    }

    /// The number of the first entry of a branch's open basket: how many entries stand before it.
    pub fn first(&self, branch: usize) -> Option<u64>
        ensures { result
            ≡ option_map (count_before (entry_count self.now)) (slice_get self.now.branches branch) }
    {
        let entries = self.saved + self.pending;
        match self.branches.get(branch) {
            Some(branch) => Some(entries.saturating_sub(branch.count() as u64)),
            None => None,
        }
    }

    /// The bytes of a row, one entry for each branch. BadRow where the row doesn't fit the branches, and else TooLarge where
    /// an entry has more than 16,777,216 bytes. Nothing is pending that wasn't before.
    pub fn prepare(&self, classes: &Classes, row: &Values) -> Result<Prepared, EntryFault>
        ensures exact { GivesUnless OutOfMemory (λ entries. entries) result
            (row_prepared classes.now (defs_of self.now.branches) row.now) }
        // In a branch whose entries don't vary in length they have its length.
        ensures sized { IfOk result (λ entries.
            IsTrue (are_sized (defs_of self.now.branches) entries)) }
    {
        prepare_row(
            self.alloc,
            classes,
            self.branches.as_slice(),
            row.as_slice(),
        )
    }

    /// Of which branches the open basket is written before the row is added: it isn't empty, and with the row's entry it
    /// would have more than 32,000 bytes or 8,192 entries.
    pub fn full(&self, prepared: &Prepared) -> Flags
        ensures { result ≡ full_flags self.now.branches prepared.now }
    {
        full_flags(self.branches.as_slice(), prepared)
    }

    /// Of which branches the open basket has entries.
    pub fn open_flags(&self) -> Flags
        ensures { result ≡ open_flags self.now.branches }
    {
        open_flags(self.branches.as_slice())
    }

    /// Makes room for one more written basket of each branch, and for the row where one is given, once the baskets are
    /// written that [`Filler::full`] names. Where memory runs out, all but the room is as it was.
    pub fn reserve(&mut self, prepared: Option<&Prepared>) -> Result<(), NoMemory>
        ensures ok { OnOk result (self.new ≡ reserved self.old (option_copied prepared.entry)) }
        ensures same { SameButRoom self.old self.new }
    {
        reserve_each(self.branches.as_mut_slice(), prepared)
    }

    /// The open basket of the branch stands there from now on, and the branch has an empty one. The basket isn't empty, there
    /// is room, and `at.first` is the number of the branch's entries before it.
    pub fn written(&mut self, branch: usize, at: BasketAt)
        requires { IsTrue (may_put self.old branch at) }
        ensures { self.new ≡ basket_put self.old branch at }
    {
        put_at(self.branches.as_mut_slice(), branch, at);
    }

    /// The row is pending from now on. Each open basket takes its entry, and there is room.
    pub fn add(&mut self, prepared: Prepared)
        requires few { entry_count self.old < 2 ^ 63 - 1 }
        requires room { IsTrue (may_add self.old.branches prepared) }
        ensures { self.new ≡ row_added self.old prepared }
    {
        add_each(self.branches.as_mut_slice(), &prepared);
        self.pending += 1;
    }

    /// The header of a save, where the open baskets that aren't empty stand at these places, in order of branches.
    pub fn save_head(&self, ats: &Baskets) -> Result<TreeHead, NoMemory>
        requires { IsTrue (are_places (entry_count self.now) self.now.branches ats.now) }
        ensures { IfOk result (λ head. head ≡ saved_head self.now ats.now) }
    {
        let entries = self.saved + self.pending;
        let branches = saved_branches(
            self.alloc,
            entries,
            self.branches.as_slice(),
            ats.as_slice(),
        )?;
        Ok(TreeHead { entries, branches })
    }

    /// The tree was saved with all that was pending. No open basket has entries.
    pub fn saved(&mut self)
        requires { IsTrue (nothing_is_open self.old) }
        ensures { self.new ≡ all_saved self.old }
    {
        self.saved += self.pending;
        self.pending = 0;
    }
}
