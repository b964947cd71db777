//! Why bytes spell no object.
use rio_num::{NoMemory, Short};
use thiserror::Error;

/// Why bytes spell no object: the first fault, with its place. As a text it says what is wrong, and not where.
#[derive(Clone, Copy, Debug, PartialEq, Eq, Error)]
pub enum ObjFault {
    #[error("the data end too early")]
    Short { place: u64, wanted: u64 },
    #[error("a count is negative or past the end of the data")]
    BadCount { place: u64 },
    #[error("a class word names no earlier class")]
    UnknownClassWord { place: u64, word: u32 },
    #[error("a reference is to no earlier object")]
    UnknownRef { place: u64, word: u32 },
    #[error("there is no byte count")]
    NoCount { place: u64 },
    #[error("the byte before a counted list is neither 0 nor 1")]
    BadFlag { place: u64 },
    #[error("the byte count isn't that of the bytes used")]
    CountMismatch { place: u64, said: u32, used: u32 },
    #[error("an object is too deep")]
    TooDeep { place: u64 },
    #[error("no memory")]
    NoMemory,
}

impl From<Short> for ObjFault {
    ghost use Rattle.std.specs.Prelude.{◌≡◌};
    ghost use Rattle.rio_format.specs.declared.fault.ObjFault.TheVariants.{Short as NotWhole};

    ghost from_gives = { λ short fault. fault ≡ NotWhole short.place short.wanted };

    fn from(short: Short) -> ObjFault {
        ObjFault::Short {
            place: short.place,
            wanted: short.wanted,
        }
    }
}

impl From<NoMemory> for ObjFault {
    ghost use Rattle.std.specs.Prelude.{◌≡◌};
    ghost use Rattle.rio_format.specs.declared.fault.ObjFault.TheVariants.{NoMemory as OutOfMemory};

    ghost from_gives = { λ _ fault. fault ≡ OutOfMemory };

    fn from(_e: NoMemory) -> ObjFault {
        ObjFault::NoMemory
    }
}
