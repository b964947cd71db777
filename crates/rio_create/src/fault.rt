//! Why a file could not be made.
use rio_host::Failed;
use rio_num::NoMemory;
use thiserror::Error;

/// Why a file could not be made.
#[derive(Clone, Copy, Debug, PartialEq, Eq, Error)]
pub enum CreateFault {
    #[error("no memory")]
    NoMemory,
    /// A call on the file failed.
    #[error("disk fault")]
    HostFault,
}

impl From<NoMemory> for CreateFault {
    ghost use Rattle.std.specs.Prelude.{◌≡◌};
    ghost use Rattle.rio_create.specs.declared.fault.CreateFault.TheVariants.{NoMemory as OutOfMemory};

    ghost from_gives = { λ _ e. e ≡ OutOfMemory };

    fn from(_e: NoMemory) -> CreateFault {
        CreateFault::NoMemory
    }
}

impl From<Failed> for CreateFault {
    ghost use Rattle.std.specs.Prelude.{◌≡◌};
    ghost use Rattle.rio_create.specs.declared.fault.CreateFault.TheVariants.{HostFault};

    ghost from_gives = { λ _ e. e ≡ HostFault };

    fn from(_e: Failed) -> CreateFault {
        CreateFault::HostFault
    }
}
