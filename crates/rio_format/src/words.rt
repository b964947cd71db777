//! Headers of objects, and the first words of pointers.
use rio_num::Name;

/// The header of an object: the place of its count word, where the bytes that it counts end, and the
/// version, with the checksum that stands behind version 0.
#[derive(Clone, Copy, Debug, PartialEq, Eq)]
pub struct Header {
    pub place: u64,
    pub end: u64,
    pub version: i32,
    pub sum: Option<u32>,
}

/// The first word of a pointer, and what belongs to it.
#[derive(Debug, Drop)]
pub enum PointerWord {
    /// There is no object.
    Null,
    /// An object of the class follows. The word at `place` counts bytes up to `end`.
    New {
        label: u32,
        place: u64,
        end: u64,
        class: Name,
    },
    /// The earlier object of this label.
    Back {
        label: u32,
    },
}
