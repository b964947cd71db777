//! Where a basket stands.
use rio_num::Items;

/// A basket of a branch: the length of its record, its first entry, counted over the branch from 0, and the place of the
/// record.
#[derive(Clone, Copy, PartialEq, Eq)]
pub struct BasketAt {
    pub bytes: u32,
    pub first: u64,
    pub seek: u64,
}

/// The baskets of a branch, in order.
pub type Baskets = Items<BasketAt>;
