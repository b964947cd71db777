//! Why bytes are no key, or no list of heads.
use rio_num::{NoMemory, Short};
use thiserror::Error;

/// Why bytes are no key: the first fault.
#[derive(Clone, Copy, Debug, PartialEq, Eq, Error)]
pub enum KeyFault {
    /// Fewer than `wanted` bytes are left at `place`, where a field begins.
    #[error("fewer than {wanted} bytes are left at {place}")]
    Short { place: u64, wanted: u64 },
    /// The record is shorter than its key.
    #[error("the record at {place} is shorter than its key")]
    BadLength { place: u64 },
    /// The key ends before its title does.
    #[error("the key at {place} ends before its title")]
    BadKeyLen { place: u64 },
    #[error("no memory")]
    NoMemory,
}

impl From<Short> for KeyFault {
    ghost use Rattle.std.specs.Prelude.{◌≡◌};
    ghost use Rattle.rio_key.specs.declared.fault.KeyFault.TheVariants.{Short as Shortage};

    ghost from_gives = { λ s e. e ≡ Shortage s.place s.wanted };

    fn from(short: Short) -> KeyFault {
        KeyFault::Short {
            place: short.place,
            wanted: short.wanted,
        }
    }
}

impl From<NoMemory> for KeyFault {
    ghost use Rattle.std.specs.Prelude.{◌≡◌};
    ghost use Rattle.rio_key.specs.declared.fault.KeyFault.TheVariants.{NoMemory as OutOfMemory};

    ghost from_gives = { λ _ e. e ≡ OutOfMemory };

    fn from(_e: NoMemory) -> KeyFault {
        KeyFault::NoMemory
    }
}

/// Why bytes are no list of key heads: the place of the head that is unreadable, or None where it is
/// the count, and the fault there. Where the fault is NoMemory there is no place.
#[derive(Clone, Copy, Debug, PartialEq, Eq)]
pub struct ListFault {
    pub head: Option<u64>,
    pub fault: KeyFault,
}

impl From<NoMemory> for ListFault {
    ghost use Rattle.std.specs.Prelude.{◌≡◌};
    ghost use Rattle.rio_key.specs.KeyList.{list_memory};

    ghost from_gives = { λ _ e. e ≡ list_memory };

    fn from(_e: NoMemory) -> ListFault {
        ListFault {
            head: None,
            fault: KeyFault::NoMemory,
        }
    }
}
