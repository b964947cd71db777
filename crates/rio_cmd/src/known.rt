//! The branches of a tree as they are read, with their names kept beside them.
ghost use Rattle.std.specs.Prelude.{◌≡◌, ℕ, List, [], ◌∷◌, ◌++◌, ◌==◌, ◌&&◌, ◌||◌, OnOk};
ghost use Rattle.std.specs.Str.{bytes_eq};
ghost use Rattle.rio_num.specs.Word.{is_among};
ghost use Rattle.rio_leaf.specs.Leaves.{is_one};
ghost use Rattle.rio_leaf.specs.Marks.{letter_of_counters};
ghost use Rattle.rio_cmd.specs.Known.{branch_of};

use rio_leaf::{BranchDef, BranchDefs, Dim, Leaf, Leaves, Shape};
use rio_num::{Name, Names, NoMemory};
use std::alloc::Global;
use std::marker::Model;

/// A leaf that is read, before it stands in its branch.
#[derive(Drop)]
pub(crate) struct NewLeaf<'a> {
    pub(crate) name: &'a [u8],
    pub(crate) letter: u8,
    pub(crate) dim: Dim,
}

// Whether others may be counted by a leaf of the letter and the dimension.
fn may_count(letter: u8, dim: &Dim) -> bool
    ensures { result ≡ ((letter == letter_of_counters) && is_one dim.now) }
{
    letter == b'I' && matches!(dim, Dim::One)
}

// Puts a branch at the end, and its name among the names.
fn put_branch<'a>(
    alloc: Global,
    branches: &mut BranchDefs,
    names: &mut Names<'a>,
    name: &'a [u8],
    shape: Shape,
) -> Result<(), NoMemory>
    ensures branch { OnOk result
        (branches.new ≡ branches.old ++ branch_of name.now shape ∷ []) }
    ensures name { OnOk result ((other : List ℕ) → is_among names.new other
        ≡ (bytes_eq name.now other || is_among names.old other)) }
{
    names.note(name)?;
    branches.push(BranchDef {
        name: Name::from_slice(alloc, name)?,
        shape,
    })
}

/// The branches that were read, and the leaves of the branch that is being read.
#[derive(Drop)]
pub(crate) struct KnownTree<'a> {
    branches: BranchDefs,
    own: Leaves,
    branch_names: Names<'a>,
    leaf_names: Names<'a>,
    counters: Names<'a>,
}

impl<'a> Model for KnownTree<'a> {
    ghost use Rattle.rio_cmd.specs.Known.{KnowsTree, TreeSoFar};

    ghost Value = { TreeSoFar };

    ghost view = { λ tree. record { branches = tree.branches; own = tree.own } };

    ghost invariant = { λ tree.
        KnowsTree tree.branches tree.own tree.branch_names tree.leaf_names tree.counters };
}

impl<'a> KnownTree<'a> {
    ghost use Rattle.std.specs.Prelude.{◌≡◌, [], IfOk};
    ghost use Rattle.rio_leaf.specs.Leaves.{has_counting_leaf, has_leaf};
    ghost use Rattle.rio_leaf.specs.Stated.{has_branch};
    ghost use Rattle.rio_cmd.specs.Known.{branch_of, leaf_of, leaves_so_far, with_branch, with_leaf};

    /// A tree without branches.
    pub(crate) fn new(alloc: Global) -> KnownTree<'a>
        ensures branches { result.branches ≡ [] }
        ensures own { result.own ≡ [] }
    {
        KnownTree {
            branches: BranchDefs::new(alloc),
            own: Leaves::new(alloc),
            branch_names: Names::new(alloc),
            leaf_names: Names::new(alloc),
            counters: Names::new(alloc),
        }
    }

    /// Whether one of the branches has the name.
    pub(crate) fn has_branch(&self, name: &[u8]) -> bool
        ensures { result ≡ has_branch self.now.branches name.now }
    {
        self.branch_names.has(name)
    }

    /// Whether one of the leaves has the name.
    pub(crate) fn has_leaf(&self, name: &[u8]) -> bool
        ensures { result ≡ has_leaf (leaves_so_far self.now) name.now }
    {
        self.leaf_names.has(name)
    }

    /// Whether one of the leaves that may count has the name.
    pub(crate) fn has_counting_leaf(&self, name: &[u8]) -> bool
        ensures { result ≡ has_counting_leaf (leaves_so_far self.now) name.now }
    {
        self.counters.has(name)
    }

    /// The tree with one more leaf in the branch that is being read.
    pub(crate) fn with_leaf(
        self,
        alloc: Global,
        leaf: NewLeaf<'a>,
    ) -> Result<KnownTree<'a>, NoMemory>
        ensures { IfOk result (λ more. more
            ≡ with_leaf self.entry
            (leaf_of leaf.entry.name.now leaf.entry.letter leaf.entry.dim)) }
    {
        let KnownTree {
            branches,
            mut own,
            branch_names,
            mut leaf_names,
            mut counters,
        } = self;
        let NewLeaf { name, letter, dim } = leaf;
        if may_count(letter, &dim) {
            counters.note(name)?;
        }
        leaf_names.note(name)?;
        own.push(Leaf {
            name: Name::from_slice(alloc, name)?,
            letter,
            dim,
        })?;
        Ok(KnownTree {
            branches,
            own,
            branch_names,
            leaf_names,
            counters,
        })
    }

    /// The tree with one more branch, of the leaves that were read for it.
    pub(crate) fn with_leaves(
        self,
        alloc: Global,
        name: &'a [u8],
    ) -> Result<KnownTree<'a>, NoMemory>
        ensures { IfOk result (λ more. more
            ≡ with_branch self.entry.branches
            (branch_of name.now (Shape.Leaves self.entry.own))) }
    {
        let KnownTree {
            mut branches,
            own,
            mut branch_names,
            leaf_names,
            counters,
        } = self;
        let shape = Shape::Leaves(own);
        put_branch(alloc, &mut branches, &mut branch_names, name, shape)?;
        Ok(KnownTree {
            branches,
            own: Leaves::new(alloc),
            branch_names,
            leaf_names,
            counters,
        })
    }

    /// The tree with one more branch, of objects of the class.
    pub(crate) fn with_class(
        self,
        alloc: Global,
        name: &'a [u8],
        class: Name,
    ) -> Result<KnownTree<'a>, NoMemory>
        requires { self.own ≡ [] }
        ensures { IfOk result (λ more. more
            ≡ with_branch self.entry.branches
            (branch_of name.now (Shape.Class class))) }
    {
        let KnownTree {
            mut branches,
            own,
            mut branch_names,
            leaf_names,
            counters,
        } = self;
        let shape = Shape::Class(class);
        put_branch(alloc, &mut branches, &mut branch_names, name, shape)?;
        Ok(KnownTree {
            branches,
            own,
            branch_names,
            leaf_names,
            counters,
        })
    }

    /// The branches alone.
    pub(crate) fn into_branches(self) -> BranchDefs
        ensures { result ≡ self.entry.branches }
    {
        let KnownTree { branches, .. } = self;
        branches
    }
}
