//! What a scan has of one branch.
use rio_key::StoredBasket;
use rio_tree::BranchRefusal;

/// A basket that is held: the number of its first entry, counted over the branch from 0, and its entries.
#[derive(Drop)]
pub struct Held {
    pub first: u64,
    pub entries: StoredBasket,
}

/// What a scan has of a branch: why it isn't read, and the basket that is held.
#[derive(Drop)]
pub struct Lane {
    pub refused: Option<BranchRefusal>,
    pub held: Option<Held>,
}
