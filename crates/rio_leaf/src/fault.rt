//! Why a text lists no leaves.
use rio_num::NoMemory;
use thiserror::Error;

/// Why a text lists no leaves.
#[derive(Clone, Copy, Debug, PartialEq, Eq, Error)]
pub enum LeafFault {
    /// The first token that can't stand where it does begins at `place`, or the text ends there too early.
    #[error("a token at {place} can't stand there")]
    BadLeaf { place: u32 },
    #[error("no memory")]
    NoMemory,
}

impl From<NoMemory> for LeafFault {
    ghost use Rattle.std.specs.Prelude.{◌≡◌};
    ghost use Rattle.rio_leaf.specs.declared.fault.LeafFault.TheVariants.{NoMemory as OutOfMemory};

    ghost from_gives = { λ _ e. e ≡ OutOfMemory };

    fn from(_e: NoMemory) -> LeafFault {
        LeafFault::NoMemory
    }
}
