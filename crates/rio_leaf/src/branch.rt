//! The branches of a tree.
ghost use Rattle.std.specs.Prelude.{◌≡◌, IfOk};

use crate::Leaves;
use rio_num::{Items, Name, NoMemory};
use std::alloc::Global;
use std::marker::Model;

/// What a branch holds at each entry.
#[derive(PartialEq, Drop)]
pub enum Shape {
    /// The values of its leaves, one behind the other.
    Leaves(Leaves),
    /// An object of the class.
    Class(Name),
}

/// A branch of a tree.
#[derive(PartialEq, Drop)]
pub struct BranchDef {
    pub name: Name,
    pub shape: Shape,
}

impl Shape {
    /// An equal shape.
    pub fn copy(&self) -> Result<Shape, NoMemory>
        ensures { IfOk result (λ shape. shape ≡ self.now) }
    {
        match self {
            Shape::Leaves(leaves) => Ok(Shape::Leaves(copy_leaves(leaves)?)),
            Shape::Class(class) => Ok(Shape::Class(class.copy()?)),
        }
    }
}

impl BranchDef {
    /// An equal branch.
    pub fn copy(&self) -> Result<BranchDef, NoMemory>
        ensures { IfOk result (λ branch. branch ≡ self.now) }
    {
        Ok(BranchDef {
            name: self.name.copy()?,
            shape: self.shape.copy()?,
        })
    }
}

fn copy_leaves(leaves: &Leaves) -> Result<Leaves, NoMemory>
    ensures { IfOk result (λ copies. copies ≡ leaves.now) }
{
    let mut copies = Leaves::new(leaves.allocator());
    for leaf in leaves.as_slice() {
        copies.push(leaf.copy()?)?;
    }
    Ok(copies)
}

/// The branches of a tree, in order.
#[derive(Drop)]
pub struct BranchDefs {
    items: Items<BranchDef>,
}

impl Model for BranchDefs {
    ghost use Rattle.std.specs.Prelude.{List};
    ghost use Rattle.rio_leaf.specs.declared.branch.BranchDef.{BranchDef as Branch};

    ghost Value = { List Branch };

    ghost view = { λ branches. branches.items };
}

impl BranchDefs {
    ghost use Rattle.std.specs.Prelude.{[], ◌∷◌, ◌++◌, ◌↔◌, length, slice_get, IsTrue, OnOk, OnErr};
    ghost use Rattle.std.specs.Option.{option_copied};

    /// No branches.
    pub fn new(alloc: Global) -> BranchDefs
        ensures { result ≡ [] }
    {
        BranchDefs {
            items: Items::new(alloc),
        }
    }

    /// Puts a branch at the end. Where there is no memory for it, it is dropped.
    pub fn push(&mut self, branch: BranchDef) -> Result<(), NoMemory>
        ensures ok { OnOk result (self.new ≡ self.old ++ branch ∷ []) }
        ensures err { OnErr result (self.new ≡ self.old) }
    {
        self.items.push(branch)
    }

    pub fn len(&self) -> usize
        ensures { result ≡ length self.now }
    {
        self.items.len()
    }

    pub fn is_empty(&self) -> bool
        ensures { IsTrue result ↔ (self.now ≡ []) }
    {
        self.items.is_empty()
    }

    /// The branch at `k`, counted from 0.
    pub fn get(&self, k: usize) -> Option<&BranchDef>
        ensures { option_copied result ≡ slice_get self.now k }
    {
        self.items.get(k)
    }

    pub fn as_slice(&self) -> &[BranchDef]
        ensures { result.now ≡ self.now }
    {
        self.items.as_slice()
    }

    /// Where the list takes its memory from.
    pub fn allocator(&self) -> Global {
        self.items.allocator()
    }

    /// Equal branches.
    pub fn copy(&self) -> Result<BranchDefs, NoMemory>
        ensures { IfOk result (λ branches. branches ≡ self.now) }
    {
        Ok(BranchDefs {
            items: copy_branches(&self.items)?,
        })
    }
}

fn copy_branches(branches: &Items<BranchDef>) -> Result<Items<BranchDef>, NoMemory>
    ensures { IfOk result (λ copies. copies ≡ branches.now) }
{
    let mut copies = Items::new(branches.allocator());
    for branch in branches.as_slice() {
        copies.push(branch.copy()?)?;
    }
    Ok(copies)
}

impl PartialEq for BranchDefs {
    ghost use Rattle.std.specs.Prelude.{◌↔◌, IsTrue};
    ghost use Rattle.std.specs.Cmp.Lexicographic.{lists_per, pointwise};
    ghost use Rattle.rio_leaf.specs.contracts.branch.BranchDefPartialEq.TheImpl.{eq-value as branch_equal};
    ghost use Rattle.rio_leaf.specs.contracts.branch.BranchDefPartialEq.TheImpl.Laws.{laws-law as branch_laws};

    ghost eq = { λ a b. pointwise branch_equal.it a b };

    ghost laws = { lists_per branch_laws };

    #[tactic(auto, using(crate::proofs::EqualLaws::branches_decide))]
    fn eq(&self, other: &BranchDefs) -> bool
        ensures pairs { result ≡ pointwise branch_equal.it self.now other.now }
        ensures same { IsTrue result ↔ (self.now ≡ other.now) }
    {
        self.as_slice() == other.as_slice()
    }
}
