//! What is too much or too many.

/// The greatest cycle that a command gives; that of a tree which is filled or saved is less.
pub const CYCLE_LIMIT: u32 = 32_767;

/// The most objects and trees of a file.
pub const ITEM_LIMIT: usize = 100_000;

/// The most puts of a batch.
pub const BATCH_LIMIT: usize = 1_000;

/// The most values of a list.
pub const LIST_LIMIT: u64 = 100_000;

/// The most branches of a tree.
pub const BRANCH_LIMIT: usize = 64;

/// The most leaves of a branch.
pub const LEAF_LIMIT: usize = 64;
