//! Why there is no entry.
use rio_format::ObjFault;
use rio_num::NoMemory;
use thiserror::Error;

/// Why a row has no entry in a branch, or why bytes are none.
#[derive(Clone, Copy, Debug, PartialEq, Eq, Error)]
pub enum EntryFault {
    /// The values don't fit the branch.
    #[error("the values don't fit the branch")]
    BadRow,
    /// The entry would have more than 16,777,216 bytes.
    #[error("the entry is too long")]
    TooLarge,
    /// The first part that breaks stands at `place`, counted from the entry's first byte.
    #[error("the entry breaks at {place}")]
    BadEntry { place: u64 },
    #[error("no memory")]
    NoMemory,
}

impl From<NoMemory> for EntryFault {
    ghost use Rattle.std.specs.Prelude.{◌≡◌};
    ghost use Rattle.rio_machine.specs.declared.entry_fault.EntryFault.TheVariants.{NoMemory as OutOfMemory};

    ghost from_gives = { λ _ e. e ≡ OutOfMemory };

    fn from(_e: NoMemory) -> EntryFault {
        EntryFault::NoMemory
    }
}

impl From<ObjFault> for EntryFault {
    ghost use Rattle.std.specs.Prelude.{◌≡◌};
    ghost use Rattle.rio_machine.specs.Entries.{entry_fault};

    ghost from_gives = { λ fault e. e ≡ entry_fault fault };

    fn from(fault: ObjFault) -> EntryFault {
        match fault {
            ObjFault::Short { place, .. } => EntryFault::BadEntry { place },
            ObjFault::BadCount { place } => EntryFault::BadEntry { place },
            ObjFault::UnknownClassWord { place, .. } => EntryFault::BadEntry { place },
            ObjFault::UnknownRef { place, .. } => EntryFault::BadEntry { place },
            ObjFault::NoCount { place } => EntryFault::BadEntry { place },
            ObjFault::BadFlag { place } => EntryFault::BadEntry { place },
            ObjFault::CountMismatch { place, .. } => EntryFault::BadEntry { place },
            ObjFault::TooDeep { place } => EntryFault::BadEntry { place },
            ObjFault::NoMemory => EntryFault::NoMemory,
        }
    }
}
