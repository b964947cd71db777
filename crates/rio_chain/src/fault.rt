//! Why a file's segments could not be told.
use rio_host::{Failed, ReadFault};
use rio_num::NoMemory;
use std::alloc::AllocError;
use thiserror::Error;

/// Why a file's segments could not be told.
#[derive(Clone, Copy, Debug, PartialEq, Eq, Error)]
pub enum WalkFault {
    /// The chain breaks at this place, in bytes from the file's beginning.
    #[error("the chain breaks at {place}")]
    NoChain { place: u64 },
    #[error("no memory")]
    NoMemory,
    /// A call on the file failed.
    #[error("disk fault")]
    HostFault,
}

impl From<Failed> for WalkFault {
    ghost use Rattle.std.specs.Prelude.{◌≡◌};
    ghost use Rattle.rio_chain.specs.declared.fault.WalkFault.TheVariants.{HostFault};

    ghost from_gives = { λ _ e. e ≡ HostFault };

    fn from(_e: Failed) -> WalkFault {
        WalkFault::HostFault
    }
}

impl From<ReadFault> for WalkFault {
    ghost use Rattle.std.specs.Prelude.{◌≡◌};
    ghost use Rattle.rio_chain.specs.Walks.{fault_of_read};

    ghost from_gives = { λ f e. e ≡ fault_of_read f };

    fn from(fault: ReadFault) -> WalkFault {
        match fault {
            ReadFault::NoMemory => WalkFault::NoMemory,
            ReadFault::HostFault => WalkFault::HostFault,
        }
    }
}

impl From<NoMemory> for WalkFault {
    ghost use Rattle.std.specs.Prelude.{◌≡◌};
    ghost use Rattle.rio_chain.specs.declared.fault.WalkFault.TheVariants.{NoMemory as OutOfMemory};

    ghost from_gives = { λ _ e. e ≡ OutOfMemory };

    fn from(_e: NoMemory) -> WalkFault {
        WalkFault::NoMemory
    }
}

impl From<AllocError> for WalkFault {
    ghost use Rattle.std.specs.Prelude.{◌≡◌};
    ghost use Rattle.rio_chain.specs.declared.fault.WalkFault.TheVariants.{NoMemory as OutOfMemory};

    ghost from_gives = { λ _ e. e ≡ OutOfMemory };

    fn from(_e: AllocError) -> WalkFault {
        WalkFault::NoMemory
    }
}

/// Why records could not be placed.
#[derive(Clone, Copy, Debug, PartialEq, Eq, Error)]
pub enum PlanFault {
    /// The end of the file is `end`, and would pass the limit with `wanted` bytes more of records.
    #[error("full at {end}: {wanted} bytes wanted")]
    Full { end: u64, wanted: u64 },
    #[error("no memory")]
    NoMemory,
}

impl From<NoMemory> for PlanFault {
    ghost use Rattle.std.specs.Prelude.{◌≡◌};
    ghost use Rattle.rio_chain.specs.declared.fault.PlanFault.TheVariants.{NoMemory as OutOfMemory};

    ghost from_gives = { λ _ e. e ≡ OutOfMemory };

    fn from(_e: NoMemory) -> PlanFault {
        PlanFault::NoMemory
    }
}
