//! The trees of a session, in order of names.
ghost use Rattle.std.specs.Prelude.{◌≡◌, ◌+◌, ◌*◌, ◌-◌, ◌^◌, ◌<◌, false, length, map, min, slice_get, Some, IsTrue, OnOk};
ghost use Rattle.std.specs.Option.{option_copied, option_map_or};
ghost use Rattle.rio_fill.specs.Fill.{basket_put, defs_of, entry_count};
ghost use Rattle.rio_fill.specs.Room.{reserved};
ghost use Rattle.rio_session.specs.Fills.{FilledTree, bare_tree, changed_tree, is_tree_of};
ghost use Rattle.rio_session.specs.Measures.{flags_for};
ghost use Rattle.rio_session.specs.Noted.{CanBeFilledThen, CanBeSavedThen, IsPlaceNext, can_be_noted, filled_then, flagged, if_matching, is_before_name, noted, saved_then};
ghost use Rattle.rio_tree.specs.HeaderLength.{header_size};
ghost use Rattle.rio_tree.specs.declared.basket_at.BasketAt.{BasketAt};

use crate::open_tree::OpenTree;
use rio_fill::{Filler, Flags, Prepared, is_flagged};
use rio_num::NoMemory;
use rio_tree::Baskets;
use std::alloc::Global;
use std::cmp::Ordering;
use std::marker::Model;

/// The trees of a session, in order of names, and for how many more there is room.
#[derive(Drop)]
pub(crate) struct OpenTrees {
    trees: Vec<OpenTree>,
    spare: usize,
}

impl Model for OpenTrees {
    ghost use Rattle.std.specs.Prelude.{◌+◌, ◌≤◌, vec_len, vec_capacity};
    ghost use Rattle.rio_session.specs.Fills.{AreNamesOrdered, FilledRoom};

    ghost Value = { FilledRoom };

    ghost view = { λ t. record { trees = t.trees.items; spare = t.spare } };

    ghost invariant = { λ t. record {
      ordered : AreNamesOrdered t.trees.items;
      room : vec_len t.trees + t.spare ≤ vec_capacity t.trees;
    } };
}

// Whether the name of a tree comes before a name.
fn is_before(tree: &OpenTree, name: &[u8]) -> bool
    ensures { result ≡ is_before_name name.now tree.now }
{
    matches!(tree.name.as_slice().cmp(name), Ordering::Less)
}

// Whether the tree at `at` has the name.
fn is_named_at(trees: &[OpenTree], at: usize, name: &[u8]) -> bool
    ensures { result ≡ option_map_or (is_tree_of name.now) (slice_get trees.now at) false }
{
    match trees.get(at) {
        Some(tree) => tree.name.as_slice() == name,
        None => false,
    }
}

// The tree at `at`, if it has the name.
fn named_at<'a>(trees: &'a [OpenTree], at: usize, name: &[u8]) -> Option<&'a OpenTree>
    ensures { option_copied result
        ≡ if_matching (is_tree_of name.now) (slice_get trees.now at) }
{
    match trees.get(at) {
        Some(tree) if tree.name.as_slice() == name => Some(tree),
        _ => None,
    }
}

// The open basket of the branch at `k` stands from now on at the place that is next.
fn note_one(filler: &mut Filler, k: usize, ats: &Baskets, next: usize)
    requires { IsPlaceNext filler.old k ats.now next }
    ensures { (at : BasketAt) → slice_get ats.now next ≡ Some at
        → filler.new ≡ basket_put filler.old k at }
{
    match ats.get(next) {
        Some(at) => filler.written(k, *at),
        None => unreachable!(),
    }
}

// The open baskets of the flagged branches stand at these places from now on.
fn note_written(filler: &mut Filler, flags: Flags, ats: &Baskets)
    requires { IsTrue (can_be_noted (entry_count filler.old) ats.now
        (flagged filler.old.branches (flags_for filler.old.branches flags))) }
    ensures { filler.new ≡ noted ats.now flags filler.old }
{
    let mut next = 0;
    for k in 0..filler.width() {
        if is_flagged(flags, k) {
            note_one(filler, k, ats, next);
            next += 1;
        }
    }
}

// The same, and then the row is pending.
fn fill_tree(tree: &mut OpenTree, flags: Flags, ats: &Baskets, row: Prepared)
    requires { CanBeFilledThen ats.now flags row tree.old.fill }
    ensures { tree.new
        ≡ record tree.old { fill = filled_then ats.now flags row tree.old.fill } }
{
    note_written(&mut tree.filler, flags, ats);
    tree.filler.add(row);
}

// The open baskets stand at these places from now on, and all rows are saved.
fn save_tree(tree: &mut OpenTree, flags: Flags, ats: &Baskets)
    requires { CanBeSavedThen ats.now flags tree.old.fill }
    ensures { tree.new ≡ record tree.old { fill = saved_then ats.now flags tree.old.fill } }
{
    note_written(&mut tree.filler, flags, ats);
    tree.filler.saved();
}

// Makes room for one more written basket of each branch, and for the row where one is given.
fn reserve_in(tree: &mut OpenTree, row: Option<&Prepared>) -> Result<(), NoMemory>
    ensures ok { OnOk result (tree.new
        ≡ record tree.old { fill = reserved tree.old.fill (option_copied row.entry) }) }
    ensures same { bare_tree tree.new ≡ bare_tree tree.old }
{
    tree.filler.reserve(row)
}

// Fills the tree at `at`.
fn fill_at(trees: &mut [OpenTree], at: usize, flags: Flags, ats: &Baskets, row: Prepared)
    requires there { at < length trees.old }
    requires can { (t : FilledTree) → slice_get trees.old at ≡ Some t
        → CanBeFilledThen ats.now flags row t.fill }
    ensures { trees.new ≡ changed_tree at (filled_then ats.now flags row) trees.old }
{
    fill_tree(&mut trees[at], flags, ats, row);
}

// Saves it.
fn save_at(trees: &mut [OpenTree], at: usize, flags: Flags, ats: &Baskets)
    requires there { at < length trees.old }
    requires can { (t : FilledTree) → slice_get trees.old at ≡ Some t
        → CanBeSavedThen ats.now flags t.fill }
    ensures { trees.new ≡ changed_tree at (saved_then ats.now flags) trees.old }
{
    save_tree(&mut trees[at], flags, ats);
}

// Makes room in it.
fn reserve_at(trees: &mut [OpenTree], at: usize, row: Option<&Prepared>) -> Result<(), NoMemory>
    requires { at < length trees.old }
    ensures ok { OnOk result (trees.new
        ≡ changed_tree at (λ t. reserved t (option_copied row.entry)) trees.old) }
    ensures same { map bare_tree trees.new ≡ map bare_tree trees.old }
{
    reserve_in(&mut trees[at], row)
}

// What a save of the tree with so many rows may cost of the file's room, as far as 64 bits hold it.
fn save_cost(tree: &OpenTree, rows: u64) -> u64
    ensures { result ≡ min (240 + header_size tree.now.name (defs_of tree.now.fill.branches)
        + 20 * length tree.now.fill.branches * rows) (2 ^ 64 - 1) }
{
    tree.stays_bounded();
    let baskets = (20 * tree.width() as u64).saturating_mul(rows);
    baskets.saturating_add(240 + tree.header_bytes)
}

impl OpenTrees {
    ghost use Rattle.std.specs.Prelude.{◌≡◌, ◌+◌, ◌-◌, ◌*◌, ◌^◌, ◌<◌, ◌≤◌, [], length, max, min, Some, None, OnOk, OnErr, IfSome, map, slice_get};
    ghost use Rattle.std.specs.List.{find, prefix_len};
    ghost use Rattle.std.specs.Option.{option_copied};
    ghost use Rattle.rio_fill.specs.Fill.{defs_of};
    ghost use Rattle.rio_fill.specs.Room.{reserved};
    ghost use Rattle.rio_tree.specs.HeaderLength.{header_size};
    ghost use Rattle.rio_session.specs.Fills.{AreNamesOrdered, FilledTree, bare_tree, changed_tree, is_tree_of, with_filled, without_filled};
    ghost use Rattle.rio_session.specs.Noted.{CanBeFilledThen, CanBeSavedThen, IsTreeAt, filled_then, is_before_name, saved_then};

    /// No trees.
    pub(crate) fn new(alloc: Global) -> OpenTrees
        ensures { result ≡ record { trees = []; spare = 0 } }
    {
        OpenTrees {
            trees: Vec::new(alloc),
            spare: 0,
        }
    }

    /// The trees in order of names.
    pub(crate) fn as_slice(&self) -> &[OpenTree]
        ensures all { result.now ≡ self.now.trees }
        ensures ordered { AreNamesOrdered self.now.trees }
    {
        self.trees.as_slice()
    }

    // How many trees have a name before this one.
    fn count_before(&self, name: &[u8]) -> usize
        ensures { result ≡ prefix_len (is_before_name name.now) self.now.trees }
    {
        self.trees.partition_point(|tree| is_before(tree, name))
    }

    /// The number of the tree of the name, counted from 0. None comes exactly where there is none.
    pub(crate) fn position(&self, name: &[u8]) -> Option<usize>
        ensures none { result ≡ None → find (is_tree_of name.now) self.now.trees ≡ None }
        ensures at { IfSome result (λ at. find (is_tree_of name.now) self.now.trees
            ≡ slice_get self.now.trees at) }
    {
        let at = self.count_before(name);
        if is_named_at(&self.trees, at, name) {
            Some(at)
        } else {
            None
        }
    }

    /// The tree of the name. None comes exactly where there is none.
    pub(crate) fn find(&self, name: &[u8]) -> Option<&OpenTree>
        ensures { option_copied result ≡ find (is_tree_of name.now) self.now.trees }
    {
        let at = self.count_before(name);
        named_at(&self.trees, at, name)
    }

    /// Makes room for one more tree.
    pub(crate) fn reserve_one(&mut self) -> Result<(), NoMemory>
        ensures ok { OnOk result (self.new ≡ record self.old { spare = max self.old.spare 1 }) }
        ensures err { OnErr result ((self.new ≡ self.old) × (self.old.spare < 1)) }
    {
        if self.spare >= 1 {
            return Ok(());
        }
        self.trees.reserve(1)?;
        self.spare = 1;
        Ok(())
    }

    // How many trees have a name before that of this one.
    fn count_before_tree(&self, tree: &OpenTree) -> usize
        ensures { result ≡ prefix_len (is_before_name tree.now.name) self.now.trees }
    {
        self.count_before(tree.name.as_slice())
    }

    /// Puts a tree in its place, for which there is room. Its name is new.
    pub(crate) fn insert(&mut self, tree: OpenTree)
        requires room { 1 ≤ self.old.spare }
        requires unique { find (is_tree_of tree.name) self.old.trees ≡ None }
        ensures { self.new ≡ record {
          trees = with_filled tree self.old.trees;
          spare = self.old.spare - 1;
        } }
    {
        let at = self.count_before_tree(&tree);
        let _ = self.trees.insert(at, tree);
        self.spare -= 1;
    }

    /// Takes a tree out. None comes exactly where there is none of the name.
    pub(crate) fn remove(&mut self, name: &[u8]) -> Option<OpenTree>
        ensures tree { result ≡ find (is_tree_of name.now) self.old.trees }
        ensures rest { self.new ≡ record self.old {
          trees = without_filled name.now self.old.trees;
        } }
    {
        let at = self.count_before(name);
        if is_named_at(&self.trees, at, name) {
            Some(self.trees.remove(at))
        } else {
            None
        }
    }

    /// Makes room for one more written basket of each branch of the tree, and for the row where one is given.
    pub(crate) fn reserve(&mut self, at: usize, row: Option<&Prepared>) -> Result<(), NoMemory>
        ensures ok { OnOk result (self.new ≡ record self.old {
          trees = changed_tree at (λ t. reserved t (option_copied row.entry)) self.old.trees;
        }) }
        ensures same { map bare_tree self.new.trees ≡ map bare_tree self.old.trees }
        ensures spare { self.new.spare ≡ self.old.spare }
    {
        if at >= self.trees.len() {
            return Ok(());
        }
        reserve_at(self.trees.as_mut_slice(), at, row)
    }

    /// The open baskets of the flagged branches of the tree stand at these places from now on, and then the row is pending.
    pub(crate) fn fill(&mut self, at: usize, flags: Flags, ats: &Baskets, row: Prepared)
        requires { IsTreeAt self.old.trees at (CanBeFilledThen ats.now flags row) }
        ensures { self.new ≡ record self.old {
          trees = changed_tree at (filled_then ats.now flags row) self.old.trees;
        } }
    {
        fill_at(self.trees.as_mut_slice(), at, flags, ats, row);
    }

    /// The open baskets of the flagged branches of the tree stand at these places from now on, and all its rows are saved.
    pub(crate) fn save(&mut self, at: usize, flags: Flags, ats: &Baskets)
        requires { IsTreeAt self.old.trees at (CanBeSavedThen ats.now flags) }
        ensures { self.new ≡ record self.old {
          trees = changed_tree at (saved_then ats.now flags) self.old.trees;
        } }
    {
        save_at(self.trees.as_mut_slice(), at, flags, ats);
    }

    /// How many rows of the tree are saved, and how many are pending.
    pub(crate) fn rows(&self, at: usize) -> (u64, u64)
        ensures ordered { AreNamesOrdered self.now.trees }
        ensures exact { (t : FilledTree) → slice_get self.now.trees at ≡ Some t
            → (result.0 ≡ t.fill.saved) × (result.1 ≡ t.fill.pending) }
    {
        match self.trees.get(at) {
            Some(tree) => tree.rows(),
            None => (0, 0),
        }
    }

    /// What a save of the tree with so many rows may cost of the file's room.
    pub(crate) fn save_cost(&self, at: usize, rows: u64) -> u64
        ensures { (t : FilledTree) → slice_get self.now.trees at ≡ Some t
            → result ≡ min (240 + header_size t.name (defs_of t.fill.branches)
            + 20 * length t.fill.branches * rows) (2 ^ 64 - 1) }
    {
        match self.trees.get(at) {
            Some(tree) => save_cost(tree, rows),
            None => 0,
        }
    }
}
