//! The fault that a declaration is refused for.
ghost use Rattle.rio_model.specs.Declaring.{HoldingIsReaching};

use rio_num::NoMemory;
use thiserror::Error;

/// The most classes that are declared, each version counting as one.
pub const CLASS_LIMIT: usize = 4_096;

/// Why a class can't be declared: the first rule that it breaks.
#[derive(Clone, Copy, Debug, PartialEq, Eq, Error)]
pub enum DeclareFault {
    #[error("a base or a member is of a class that isn't declared")]
    NoSuchClass,
    #[error("the class is declared in this version")]
    SameVersion,
    #[error("the class would hold itself")]
    HoldsItself,
    #[error("too many classes are declared")]
    TooMany,
    #[error("no memory")]
    NoMemory,
}

impl From<NoMemory> for DeclareFault {
    ghost use Rattle.std.specs.Prelude.{◌≡◌};
    ghost use Rattle.rio_model.specs.declared.declare.DeclareFault.TheVariants.{NoMemory as OutOfMemory};

    ghost from_gives = { λ _ fault. fault ≡ OutOfMemory };

    fn from(_e: NoMemory) -> DeclareFault {
        DeclareFault::NoMemory
    }
}

/// A class is found to hold itself exactly where it reaches its own name through bases and members by value.
pub fn holding_is_reaching()
    ensures { HoldingIsReaching }
{}
