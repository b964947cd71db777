//! Why an object can't be had as its class has it in another version.
use rio_num::{Name, NoMemory};
use thiserror::Error;

/// Why an object can't be had as its class has it in another version.
#[derive(Debug, Drop, Error)]
pub enum MapFault {
    /// This base or member can't be had: what is there doesn't convert to it, or nothing is there and it has no zero.
    #[error("a base or member has changed its kind")]
    KindChanged { member: Name },
    #[error("the class has no such version")]
    NoVersion,
    #[error("no memory")]
    NoMemory,
}

impl From<NoMemory> for MapFault {
    ghost use Rattle.std.specs.Prelude.{◌≡◌};
    ghost use Rattle.rio_model.specs.declared.map_fault.MapFault.TheVariants.{NoMemory as OutOfMemory};

    ghost from_gives = { λ _ fault. fault ≡ OutOfMemory };

    fn from(_e: NoMemory) -> MapFault {
        MapFault::NoMemory
    }
}
