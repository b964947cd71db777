//! Which branches a tree may be declared with.
ghost use Rattle.std.specs.Prelude.{◌≡◌, ◌++◌};
ghost use Rattle.rio_leaf.specs.Leaves.{has_counting_leaf, has_leaf, is_dim};
ghost use Rattle.rio_leaf.specs.Stated.{all_leaves, are_stated_branches, are_stated_leaves, has_branch, is_stated_branch, is_stated_leaf, is_stated_shape, leaves_of};

use crate::rules::{has_counting_leaf, has_leaf, is_leaf_count, is_letter_of};
use crate::{BranchDef, BranchDefs, Dim, Leaf, Shape};
use rio_num::is_name;

/// The leaves of a branch; a class branch has none.
pub fn leaves_of(shape: &Shape) -> &[Leaf]
    ensures { result.now ≡ leaves_of shape.now }
{
    match shape {
        Shape::Leaves(leaves) => leaves.as_slice(),
        Shape::Class(_) => &[],
    }
}

fn has_branch(branches: &[BranchDef], name: &[u8]) -> bool
    ensures { result ≡ has_branch branches.now name.now }
{
    branches.iter().any(|branch| branch.name.as_slice() == name)
}

// Whether a leaf of these branches, or one of these leaves, has the name.
fn is_leaf_name(branches: &[BranchDef], before: &[Leaf], name: &[u8]) -> bool
    ensures { result ≡ has_leaf (all_leaves branches.now ++ before.now) name.now }
{
    for branch in branches {
        if has_leaf(leaves_of(&branch.shape), name) {
            return true;
        }
    }
    has_leaf(before, name)
}

// Whether one that may count has it.
fn is_counter_name(branches: &[BranchDef], before: &[Leaf], name: &[u8]) -> bool
    ensures { result ≡ has_counting_leaf (all_leaves branches.now ++ before.now) name.now }
{
    for branch in branches {
        if has_counting_leaf(leaves_of(&branch.shape), name) {
            return true;
        }
    }
    has_counting_leaf(before, name)
}

fn dim_is_stated(branches: &[BranchDef], before: &[Leaf], dim: &Dim) -> bool
    ensures { result
        ≡ is_dim (has_counting_leaf (all_leaves branches.now ++ before.now)) dim.now }
{
    match dim {
        Dim::One => true,
        Dim::Fixed(count) => is_leaf_count(*count),
        Dim::Counted { counter, times } => {
            let name = counter.as_slice();
            is_name(name) && is_counter_name(branches, before, name) && *times == 1
        }
    }
}

// A leaf behind the leaves of these branches, and behind these leaves of its own branch.
fn leaf_is_stated(branches: &[BranchDef], before: &[Leaf], leaf: &Leaf) -> bool
    ensures { result ≡ is_stated_leaf (all_leaves branches.now ++ before.now) leaf.now }
{
    let name = leaf.name.as_slice();
    is_name(name)
        && !is_leaf_name(branches, before, name)
        && dim_is_stated(branches, before, &leaf.dim)
        && is_letter_of(&leaf.dim, leaf.letter)
}

fn leaves_are_stated(branches: &[BranchDef], leaves: &[Leaf]) -> bool
    ensures { result ≡ are_stated_leaves (all_leaves branches.now) leaves.now }
{
    for k in 0..leaves.len() {
        if !leaf_is_stated(branches, &leaves[..k], &leaves[k]) {
            return false;
        }
    }
    true
}

fn shape_is_stated(branches: &[BranchDef], shape: &Shape) -> bool
    ensures { result ≡ is_stated_shape (all_leaves branches.now) shape.now }
{
    match shape {
        Shape::Leaves(leaves) => {
            !leaves.is_empty() && leaves_are_stated(branches, leaves.as_slice())
        }
        Shape::Class(class) => is_name(class.as_slice()),
    }
}

// A branch behind these.
fn branch_is_stated(before: &[BranchDef], branch: &BranchDef) -> bool
    ensures { result ≡ is_stated_branch before.now branch.now }
{
    let name = branch.name.as_slice();
    is_name(name) && !has_branch(before, name) && shape_is_stated(before, &branch.shape)
}

/// Whether a line of the script can declare a tree with these branches: there is one or more, no two branches have one
/// name and no two leaves, a list has 2 to 100,000 values or is counted by a leaf before it of letter `I` that is no
/// list, and a text is no list. So it takes time that grows with the square of the number of leaves.
pub fn are_stated(branches: &BranchDefs) -> bool
    ensures { result ≡ are_stated_branches branches.now }
{
    let all = branches.as_slice();
    for k in 0..all.len() {
        if !branch_is_stated(&all[..k], &all[k]) {
            return false;
        }
    }
    !all.is_empty()
}
