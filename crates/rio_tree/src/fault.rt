//! Why a value is no tree header.
use rio_num::{Name, NoMemory};
use thiserror::Error;

/// Why a value is no tree header.
#[derive(Debug, Drop, Error)]
pub enum TreeFault {
    /// The first needed member that the tree lacks.
    #[error("a tree lacks a member")]
    MissingMember { member: Name },
    #[error("no memory")]
    NoMemory,
}

impl From<NoMemory> for TreeFault {
    ghost use Rattle.std.specs.Prelude.{◌≡◌};
    ghost use Rattle.rio_tree.specs.declared.fault.TreeFault.TheVariants.{NoMemory as OutOfMemory};

    ghost from_gives = { λ _ e. e ≡ OutOfMemory };

    fn from(_e: NoMemory) -> TreeFault {
        TreeFault::NoMemory
    }
}
