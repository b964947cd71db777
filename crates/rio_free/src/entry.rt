//! The entries of a free record.

/// An entry of a free record: a range of free bytes, as ROOT's TFree.
#[derive(Clone, Copy, Debug, PartialEq, Eq)]
pub struct FreeEntry {
    /// The place of the first free byte.
    pub first: u64,
    /// The place of the last free byte.
    pub last: u64,
}
