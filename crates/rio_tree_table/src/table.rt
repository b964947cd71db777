//! The trees of a file, in order of names.
ghost use Rattle.std.specs.Prelude.{◌≡◌, ◌<◌, false, length, slice_get, slice_index_or, slice_set};
ghost use Rattle.std.specs.Option.{option_copied, option_map_or};
ghost use Rattle.rio_tree_table.specs.Table.{if_matching, is_before, is_of_name, renumbered};

use rio_leaf::BranchDefs;
use rio_num::{Name, NoMemory};
use std::alloc::Global;
use std::cmp::Ordering;
use std::marker::Model;

/// A tree, as it is kept beside its file.
#[derive(Drop)]
pub struct KeptTree {
    pub name: Name,
    pub branches: BranchDefs,
    /// How many rows its header has.
    pub saved: u64,
    /// How many rows came since.
    pub pending: u64,
}

/// The trees of a file: a map from name, in order of names, and for how many more there is room.
#[derive(Drop)]
pub struct TreeTable {
    trees: Vec<KeptTree>,
    spare: usize,
}

impl Model for TreeTable {
    ghost use Rattle.std.specs.Prelude.{◌+◌, ◌≤◌, vec_len, vec_capacity};
    ghost use Rattle.rio_tree_table.specs.Table.{AreOrdered, TableRoom};

    ghost Value = { TableRoom };

    ghost view = { λ t. record { trees = t.trees.items; spare = t.spare } };

    ghost invariant = { λ t. record {
      ordered : AreOrdered t.trees.items;
      room : vec_len t.trees + t.spare ≤ vec_capacity t.trees;
    } };
}

// Whether the name of a tree comes before a name.
fn is_before(tree: &KeptTree, name: &[u8]) -> bool
    ensures { result ≡ is_before name.now tree.now }
{
    matches!(tree.name.as_slice().cmp(name), Ordering::Less)
}

// Whether the tree at `at` has the name.
fn is_named_at(trees: &[KeptTree], at: usize, name: &[u8]) -> bool
    ensures { result ≡ option_map_or (is_of_name name.now) (slice_get trees.now at) false }
{
    match trees.get(at) {
        Some(tree) => tree.name.as_slice() == name,
        None => false,
    }
}

// The tree at `at`, if it has the name.
fn named_at<'a>(trees: &'a [KeptTree], at: usize, name: &[u8]) -> Option<&'a KeptTree>
    ensures { option_copied result
        ≡ if_matching (is_of_name name.now) (slice_get trees.now at) }
{
    match trees.get(at) {
        Some(tree) if tree.name.as_slice() == name => Some(tree),
        _ => None,
    }
}

// The tree at `at` has these numbers of rows from now on.
fn set_rows_at(trees: &mut [KeptTree], at: usize, saved: u64, pending: u64)
    requires { at < length trees.old }
    ensures { (t : KeptTree) → trees.new
        ≡ slice_set trees.old at (renumbered saved pending (slice_index_or trees.old at t)) }
{
    let tree = &mut trees[at];
    tree.saved = saved;
    tree.pending = pending;
}

impl TreeTable {
    ghost use Rattle.std.specs.Prelude.{◌≡◌, ◌-◌, ◌<◌, ◌≤◌, [], length, max, None, OnOk, OnErr};
    ghost use Rattle.std.specs.List.{prefix_len};
    ghost use Rattle.std.specs.Option.{option_copied};
    ghost use Rattle.rio_tree_table.specs.Table.{AreOrdered, is_before, tree_of, with_rows, with_tree, without_tree};

    /// No trees.
    pub fn new(alloc: Global) -> TreeTable
        ensures { result ≡ record { trees = []; spare = 0 } }
    {
        TreeTable {
            trees: Vec::new(alloc),
            spare: 0,
        }
    }

    /// How many trees there are.
    pub fn count(&self) -> usize
        ensures { result ≡ length self.now.trees }
    {
        self.trees.len()
    }

    /// The trees in order of names.
    pub fn as_slice(&self) -> &[KeptTree]
        ensures all { result.now ≡ self.now.trees }
        ensures ordered { AreOrdered self.now.trees }
    {
        self.trees.as_slice()
    }

    // How many trees have a name before this one.
    fn count_before(&self, name: &[u8]) -> usize
        ensures { result ≡ prefix_len (is_before name.now) self.now.trees }
    {
        self.trees.partition_point(|tree| is_before(tree, name))
    }

    /// The tree of the name. None comes exactly where there is none.
    pub fn find(&self, name: &[u8]) -> Option<&KeptTree>
        ensures { option_copied result ≡ tree_of name.now self.now.trees }
    {
        let at = self.count_before(name);
        named_at(&self.trees, at, name)
    }

    /// Makes room for one more tree.
    pub fn reserve_one(&mut self) -> Result<(), NoMemory>
        ensures ok { OnOk result (self.new ≡ record self.old { spare = max self.old.spare 1 }) }
        ensures err { OnErr result ((self.new ≡ self.old) × (self.old.spare < 1)) }
    {
        if self.spare >= 1 {
            return Ok(());
        }
        self.trees.reserve(1)?;
        self.spare = 1;
        Ok(())
    }

    /// Puts a tree in its place, for which there is room. Its name is new.
    pub fn insert(&mut self, tree: KeptTree)
        requires room { 1 ≤ self.old.spare }
        requires unique { tree_of tree.name self.old.trees ≡ None }
        ensures { self.new ≡ record {
          trees = with_tree tree self.old.trees;
          spare = self.old.spare - 1;
        } }
    {
        let at = self.count_before(tree.name.as_slice());
        let _ = self.trees.insert(at, tree);
        self.spare -= 1;
    }

    /// Takes a tree out. None comes exactly where there is none of the name.
    pub fn remove(&mut self, name: &[u8]) -> Option<KeptTree>
        ensures tree { result ≡ tree_of name.now self.old.trees }
        ensures rest { self.new ≡ record self.old {
          trees = without_tree name.now self.old.trees;
        } }
    {
        let at = self.count_before(name);
        if is_named_at(&self.trees, at, name) {
            Some(self.trees.remove(at))
        } else {
            None
        }
    }

    /// Sets how many rows the tree of the name has. Nothing changes where there is none of the name.
    pub fn set_rows(&mut self, name: &[u8], saved: u64, pending: u64)
        ensures { self.new ≡ record self.old {
          trees = with_rows name.now saved pending self.old.trees;
        } }
    {
        let at = self.count_before(name);
        if is_named_at(&self.trees, at, name) {
            set_rows_at(&mut self.trees, at, saved, pending);
        }
    }
}
