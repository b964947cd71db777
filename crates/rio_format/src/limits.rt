//! What is too deep or too long.

/// The most levels of objects within one another in a value.
pub const DEPTH_LIMIT: u32 = 256;

/// The most bytes of an object's data, of an entry and of a class list.
pub const LENGTH_LIMIT: u64 = 16_777_216;
