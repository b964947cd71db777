//! Why a file is not recovered.
use rio_chain::WalkFault;
use rio_head::{FileFault, HeadFault, Reason};
use rio_host::{Failed, ReadFault};
use rio_num::NoMemory;
use thiserror::Error;

/// Why a file is not recovered.
#[derive(Clone, Copy, Debug, PartialEq, Eq, Error)]
pub enum RecoverFault {
    /// The header breaks a rule at this place.
    #[error("bad file at {place}: {kind:?}")]
    BadFile { place: u64, kind: FileFault },
    /// Nothing is written to the file: the first reason, and its place.
    #[error("read only at {place}: {reason:?}")]
    ReadOnly { place: u64, reason: Reason },
    #[error("no memory")]
    NoMemory,
    /// A call on the file failed.
    #[error("disk fault")]
    HostFault,
}

impl From<HeadFault> for RecoverFault {
    ghost use Rattle.std.specs.Prelude.{◌≡◌};
    ghost use Rattle.rio_recover.specs.declared.fault.RecoverFault.TheVariants.{BadFile};

    ghost from_gives = { λ f e. e ≡ BadFile f.place f.kind };

    fn from(fault: HeadFault) -> RecoverFault {
        RecoverFault::BadFile {
            place: fault.place,
            kind: fault.kind,
        }
    }
}

impl From<WalkFault> for RecoverFault {
    ghost use Rattle.std.specs.Prelude.{◌≡◌};
    ghost use Rattle.rio_recover.specs.Causes.{fault_of_walk};

    ghost from_gives = { λ f e. e ≡ fault_of_walk f };

    fn from(fault: WalkFault) -> RecoverFault {
        match fault {
            WalkFault::NoChain { place } => RecoverFault::ReadOnly {
                place,
                reason: Reason::NoChain,
            },
            WalkFault::NoMemory => RecoverFault::NoMemory,
            WalkFault::HostFault => RecoverFault::HostFault,
        }
    }
}

impl From<ReadFault> for RecoverFault {
    ghost use Rattle.std.specs.Prelude.{◌≡◌};
    ghost use Rattle.rio_recover.specs.Causes.{fault_of_read};

    ghost from_gives = { λ f e. e ≡ fault_of_read f };

    fn from(fault: ReadFault) -> RecoverFault {
        match fault {
            ReadFault::NoMemory => RecoverFault::NoMemory,
            ReadFault::HostFault => RecoverFault::HostFault,
        }
    }
}

impl From<Failed> for RecoverFault {
    ghost use Rattle.std.specs.Prelude.{◌≡◌};
    ghost use Rattle.rio_recover.specs.declared.fault.RecoverFault.TheVariants.{HostFault};

    ghost from_gives = { λ _ e. e ≡ HostFault };

    fn from(_e: Failed) -> RecoverFault {
        RecoverFault::HostFault
    }
}

impl From<NoMemory> for RecoverFault {
    ghost use Rattle.std.specs.Prelude.{◌≡◌};
    ghost use Rattle.rio_recover.specs.declared.fault.RecoverFault.TheVariants.{NoMemory as OutOfMemory};

    ghost from_gives = { λ _ e. e ≡ OutOfMemory };

    fn from(_e: NoMemory) -> RecoverFault {
        RecoverFault::NoMemory
    }
}
