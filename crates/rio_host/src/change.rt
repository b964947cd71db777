//! A write, as a call asked for it, and what a stop leaves of it while it is in flight.
ghost use Rattle.std.specs.Prelude.{◌≡◌, IfOk};

use rio_num::{Bytes, Items, NoMemory};
use std::alloc::Global;

/// A write, as a call asked for it.
#[derive(Debug, Drop)]
pub enum Change {
    /// Bytes, of which a stop before the next sync may leave any part, with any other bytes in their range.
    Range { place: u64, bytes: Items<u8> },
    /// A word of four bytes, of which a stop leaves all or nothing.
    Whole { place: u64, word: u32 },
}

impl Change {
    /// The same change.
    pub fn copy(&self, alloc: Global) -> Result<Change, NoMemory>
        ensures { IfOk result (λ change. change ≡ self.now) }
    {
        Ok(match self {
            Change::Range { place, bytes } => Change::Range {
                place: *place,
                bytes: Items::from_slice(alloc, bytes.as_slice())?,
            },
            Change::Whole { place, word } => Change::Whole {
                place: *place,
                word: *word,
            },
        })
    }
}

/// What a stop leaves of one write in flight. Of a word only All leaves something.
#[derive(Clone, Copy, Debug, PartialEq, Eq)]
pub enum Remains {
    /// Nothing of it.
    Nothing,
    /// All of it.
    All,
    /// So many of its first bytes.
    Front(u64),
    /// This byte in its whole range.
    Filled(u8),
}

/// What a stop leaves.
#[derive(Debug, Drop)]
pub struct Left {
    /// The file.
    pub image: Bytes,
    /// The text that was said.
    pub said: Bytes,
}
