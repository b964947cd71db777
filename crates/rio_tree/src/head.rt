//! What the header of a tree says.
use crate::{Baskets, BranchRefusal};
use rio_leaf::BranchDef;
use rio_num::Items;

/// What a tree's header says of a branch.
#[derive(Drop)]
pub struct Branch {
    /// Its name, and its leaves or its class.
    pub def: BranchDef,
    /// The version of its class that was the newest when the tree was made; 0 where the header has none.
    pub class_version: i32,
    /// How many entries it has.
    pub entries: u64,
    /// Whether its baskets have offsets.
    pub offsets: bool,
    /// Where its baskets stand, in order.
    pub baskets: Baskets,
    /// The numbers of the earlier branches whose leaves count leaves of this one, rising.
    pub counted_by: BranchNumbers,
    /// Why it can't be read, as far as the header tells.
    pub refused: Option<BranchRefusal>,
}

/// Numbers of branches of a tree, which are counted from 0.
pub type BranchNumbers = Items<usize>;

/// The branches of a tree, in order.
pub type Branches = Items<Branch>;

/// The header of a tree: how many entries it has, and its branches.
#[derive(Drop)]
pub struct TreeHead {
    pub entries: u64,
    pub branches: Branches,
}
