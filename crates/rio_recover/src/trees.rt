//! The trees of a file by their names.
ghost use Rattle.std.specs.Prelude.{◌≡◌, false, option_and_then, slice_get};
ghost use Rattle.std.specs.Option.{option_copied, option_map_or};
ghost use Rattle.rio_recover.specs.TreeTable.{has_name, if_of_name, is_tree_before};

use rio_num::{Name, NoMemory};
use rio_tree::TreeHead;
use std::alloc::Global;
use std::cmp::Ordering;
use std::marker::Model;

/// A tree of a file: its name, and what its header says.
#[derive(Drop)]
pub struct TreeAt {
    pub name: Name,
    pub head: TreeHead,
}

/// The trees of a file, in order of names. No two have the same name.
#[derive(Drop)]
pub struct Trees {
    trees: Vec<TreeAt>,
}

impl Model for Trees {
    ghost use Rattle.std.specs.Prelude.{List};
    ghost use Rattle.rio_recover.specs.TreeTable.{AreInOrder};
    ghost use Rattle.rio_recover.specs.declared.trees.TreeAt.{TreeAt as Tree};

    ghost Value = { List Tree };

    ghost view = { λ t. t.trees.items };

    ghost invariant = { λ t. AreInOrder t.trees.items };
}

// Whether the tree's name comes before this one.
fn is_before(tree: &TreeAt, name: &[u8]) -> bool
    ensures { result ≡ is_tree_before name.now tree.now }
{
    matches!(tree.name.as_slice().cmp(name), Ordering::Less)
}

// The tree at `at`, if it has the name.
fn at_name<'a>(trees: &'a [TreeAt], at: usize, name: &[u8]) -> Option<&'a TreeAt>
    ensures { option_copied result
        ≡ option_and_then (if_of_name name.now) (slice_get trees.now at) }
{
    match trees.get(at) {
        Some(tree) if tree.name.as_slice() == name => Some(tree),
        _ => None,
    }
}

// Whether the tree at `at` has the name.
fn is_name_at(trees: &[TreeAt], at: usize, name: &[u8]) -> bool
    ensures { result ≡ option_map_or (has_name name.now) (slice_get trees.now at) false }
{
    match trees.get(at) {
        Some(tree) => tree.name.as_slice() == name,
        None => false,
    }
}

impl Trees {
    ghost use Rattle.std.specs.Prelude.{[], is_none, if◌then◌else◌, IfOk};
    ghost use Rattle.std.specs.List.{find, prefix_len};
    ghost use Rattle.std.specs.Option.{option_copied};
    ghost use Rattle.rio_recover.specs.TreeTable.{AreInOrder, has_name, is_tree_before, with_tree, without_tree};

    /// No trees.
    pub fn new(alloc: Global) -> Trees
        ensures { result ≡ [] }
    {
        Trees {
            trees: Vec::new(alloc),
        }
    }

    /// The trees in order of names.
    pub fn as_slice(&self) -> &[TreeAt]
        ensures all { result.now ≡ self.now }
        ensures ordered { AreInOrder self.now }
    {
        self.trees.as_slice()
    }

    /// The trees in order of names, taken out.
    pub fn into_vec(self) -> Vec<TreeAt>
        ensures { result.items ≡ self }
    {
        self.trees
    }

    // How many trees have a name before this one.
    fn count_before(&self, name: &[u8]) -> usize
        ensures { result ≡ prefix_len (is_tree_before name.now) self.now }
    {
        self.trees.partition_point(|tree| is_before(tree, name))
    }

    /// The tree of the name. None comes exactly where there is none.
    pub fn find(&self, name: &[u8]) -> Option<&TreeAt>
        ensures { option_copied result ≡ find (has_name name.now) self.now }
    {
        at_name(&self.trees, self.count_before(name), name)
    }

    /// Puts a tree in its place, unless one of its name is there, and tells whether it was put.
    pub(crate) fn put(&mut self, tree: TreeAt) -> Result<bool, NoMemory>
        ensures new { IfOk result (λ new. new ≡ is_none (find (has_name tree.name) self.old)) }
        ensures trees { IfOk result
            (λ new. self.new ≡ if new then with_tree tree self.old else self.old) }
    {
        let at = self.count_before(tree.name.as_slice());
        if at_name(&self.trees, at, tree.name.as_slice()).is_some() {
            return Ok(false);
        }
        self.trees.insert(at, tree)?;
        Ok(true)
    }

    /// Takes a tree out. None comes exactly where there is none of the name.
    pub fn remove(&mut self, name: &[u8]) -> Option<TreeAt>
        ensures tree { result ≡ find (has_name name.now) self.old }
        ensures rest { self.new ≡ without_tree name.now self.old }
    {
        let at = self.count_before(name);
        if is_name_at(&self.trees, at, name) {
            Some(self.trees.remove(at))
        } else {
            None
        }
    }
}
