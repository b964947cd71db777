//! Why bytes are no free record.
use rio_num::{NoMemory, Short};
use thiserror::Error;

/// Why bytes are no free record's data: the first fault.
#[derive(Clone, Copy, Debug, PartialEq, Eq, Error)]
pub enum FreeFault {
    /// Fewer than `wanted` bytes are left at `place`, where a field of an entry begins.
    #[error("fewer than {wanted} bytes are left at {place}")]
    Short { place: u64, wanted: u64 },
    /// The entry at `place` doesn't begin above the last byte of the one before it, or it ends before it begins.
    #[error("the free range at {place} isn't in order")]
    BadOrder { place: u64 },
    #[error("no memory")]
    NoMemory,
}

impl From<Short> for FreeFault {
    ghost use Rattle.std.specs.Prelude.{◌≡◌};
    ghost use Rattle.rio_free.specs.declared.fault.FreeFault.TheVariants.{Short as Shortage};

    ghost from_gives = { λ s e. e ≡ Shortage s.place s.wanted };

    fn from(short: Short) -> FreeFault {
        FreeFault::Short {
            place: short.place,
            wanted: short.wanted,
        }
    }
}

impl From<NoMemory> for FreeFault {
    ghost use Rattle.std.specs.Prelude.{◌≡◌};
    ghost use Rattle.rio_free.specs.declared.fault.FreeFault.TheVariants.{NoMemory as OutOfMemory};

    ghost from_gives = { λ _ e. e ≡ OutOfMemory };

    fn from(_e: NoMemory) -> FreeFault {
        FreeFault::NoMemory
    }
}
