//! What the key of a new record says.
use rio_num::Name;

/// What the key of a new record says besides its lengths.
#[derive(Debug, Drop)]
pub struct KeyWords {
    /// The place of the record, in bytes from the file's beginning.
    pub place: u64,
    /// The place of the directory that the record is in.
    pub directory: u64,
    /// The time of the writing, as a TDatime packs it.
    pub datime: u32,
    pub cycle: u16,
    pub class: Name,
    pub name: Name,
    pub title: Name,
}
