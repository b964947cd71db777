//! Why bytes are no basket.
ghost use Rattle.std.specs.Prelude.{◌≡◌, ◌++◌, OnOk};
ghost use Rattle.rio_key.specs.BasketTexts.{basket_fault_text};

use rio_num::{Bytes, NoMemory};
use thiserror::Error;

/// Why bytes are no basket: the first fault. Places count from the first byte of the basket's key.
#[derive(Clone, Copy, Debug, PartialEq, Eq, Error)]
pub enum BasketFault {
    /// There is no whole key with a basket's head, or less than its record, at place 0; or at the place of fLast: a
    /// number of the head is negative, the entries don't end within the record, or they can't all have one length.
    #[error("the entries don't end as the number at {place} says")]
    BadLast { place: u64 },
    /// The number of offsets, or the offset, at this place isn't whole or can't stand.
    #[error("the offset at {place} can't stand there")]
    BadOffsets { place: u64 },
    #[error("the entries are compressed")]
    Compressed,
    #[error("no memory")]
    NoMemory,
}

impl BasketFault {
    /// Puts its kind at the end, and its place if it has one.
    pub fn put_text(self, into: &mut Bytes) -> Result<(), NoMemory>
        ensures { OnOk result (into.new.bytes ≡ into.old.bytes ++ basket_fault_text self) }
    {
        match self {
            BasketFault::BadLast { place } => into.put_with_number(b"BadLast", place),
            BasketFault::BadOffsets { place } => into.put_with_number(b"BadOffsets", place),
            BasketFault::Compressed => into.put(b"Compressed"),
            BasketFault::NoMemory => into.put(b"NoMemory"),
        }
    }
}

impl From<NoMemory> for BasketFault {
    ghost use Rattle.std.specs.Prelude.{◌≡◌};
    ghost use Rattle.rio_key.specs.declared.basket_fault.BasketFault.TheVariants.{NoMemory as OutOfMemory};

    ghost from_gives = { λ _ e. e ≡ OutOfMemory };

    fn from(_e: NoMemory) -> BasketFault {
        BasketFault::NoMemory
    }
}
