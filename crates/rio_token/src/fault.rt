//! Why a text is not read.
use rio_num::NoMemory;
use thiserror::Error;

/// Why a text isn't read.
#[derive(Clone, Copy, Debug, PartialEq, Eq, Error)]
pub enum TextFault {
    /// The token at `place`, counted in bytes from the beginning of the text, can't stand there. Where the
    /// text ends too early, it is the text's length.
    #[error("the text at {place} can't stand there")]
    BadText { place: u32 },
    #[error("no memory")]
    NoMemory,
}

impl From<NoMemory> for TextFault {
    ghost use Rattle.std.specs.Prelude.{◌≡◌};
    ghost use Rattle.rio_token.specs.declared.fault.TextFault.TheVariants.{NoMemory as OutOfMemory};

    ghost from_gives = { λ _ fault. fault ≡ OutOfMemory };

    fn from(_e: NoMemory) -> TextFault {
        TextFault::NoMemory
    }
}
