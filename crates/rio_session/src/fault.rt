//! Why a session could not go on.
use rio_create::CreateFault;
use rio_head::{FileFault, Reason};
use rio_host::{Failed, HostFault};
use rio_num::NoMemory;
use rio_recover::RecoverFault;
use thiserror::Error;

/// Why a file could not be opened.
#[derive(Clone, Copy, Debug, PartialEq, Eq, Error)]
pub enum OpenFault {
    /// The file breaks the rule of this kind at this place, in bytes from its beginning.
    #[error("bad file at {place}: {kind:?}")]
    BadFile { place: u64, kind: FileFault },
    /// Nothing is written to the file, for this reason at this place.
    #[error("read only at {place}: {reason:?}")]
    ReadOnly { place: u64, reason: Reason },
    #[error("no memory")]
    NoMemory,
    /// A call on the file failed.
    #[error("disk fault")]
    HostFault,
}

/// Why a command could not be done, or the file not be closed.
#[derive(Clone, Copy, Debug, PartialEq, Eq, Error)]
pub enum SessionFault {
    /// A call on the file failed.
    #[error("disk fault")]
    HostFault,
    /// What was to be said could not be said.
    #[error("output fault")]
    SayFault,
    #[error("no memory")]
    NoMemory,
}

impl From<NoMemory> for OpenFault {
    ghost use Rattle.std.specs.Prelude.{◌≡◌};
    ghost use Rattle.rio_session.specs.declared.fault.OpenFault.TheVariants.{NoMemory as OutOfMemory};

    ghost from_gives = { λ _ e. e ≡ OutOfMemory };

    fn from(_e: NoMemory) -> OpenFault {
        OpenFault::NoMemory
    }
}

impl From<HostFault> for OpenFault {
    ghost use Rattle.std.specs.Prelude.{◌≡◌};
    ghost use Rattle.rio_session.specs.declared.fault.OpenFault.TheVariants.{HostFault as DiskFault};

    ghost from_gives = { λ _ e. e ≡ DiskFault };

    fn from(_e: HostFault) -> OpenFault {
        OpenFault::HostFault
    }
}

impl From<Failed> for OpenFault {
    ghost use Rattle.std.specs.Prelude.{◌≡◌};
    ghost use Rattle.rio_session.specs.declared.fault.OpenFault.TheVariants.{HostFault as DiskFault};

    ghost from_gives = { λ _ e. e ≡ DiskFault };

    fn from(_e: Failed) -> OpenFault {
        OpenFault::HostFault
    }
}

impl From<CreateFault> for OpenFault {
    ghost use Rattle.std.specs.Prelude.{◌≡◌};
    ghost use Rattle.rio_session.specs.Opening.{fault_of_making};

    ghost from_gives = { λ f e. e ≡ fault_of_making f };

    fn from(fault: CreateFault) -> OpenFault {
        match fault {
            CreateFault::NoMemory => OpenFault::NoMemory,
            CreateFault::HostFault => OpenFault::HostFault,
        }
    }
}

impl From<RecoverFault> for OpenFault {
    ghost use Rattle.std.specs.Prelude.{◌≡◌};
    ghost use Rattle.rio_session.specs.Opening.{fault_of_recovery};

    ghost from_gives = { λ f e. e ≡ fault_of_recovery f };

    fn from(fault: RecoverFault) -> OpenFault {
        match fault {
            RecoverFault::BadFile { place, kind } => OpenFault::BadFile { place, kind },
            RecoverFault::ReadOnly { place, reason } => OpenFault::ReadOnly { place, reason },
            RecoverFault::NoMemory => OpenFault::NoMemory,
            RecoverFault::HostFault => OpenFault::HostFault,
        }
    }
}

impl From<NoMemory> for SessionFault {
    ghost use Rattle.std.specs.Prelude.{◌≡◌};
    ghost use Rattle.rio_session.specs.declared.fault.SessionFault.TheVariants.{NoMemory as OutOfMemory};

    ghost from_gives = { λ _ e. e ≡ OutOfMemory };

    fn from(_e: NoMemory) -> SessionFault {
        SessionFault::NoMemory
    }
}

impl From<HostFault> for SessionFault {
    ghost use Rattle.std.specs.Prelude.{◌≡◌};
    ghost use Rattle.rio_session.specs.declared.fault.SessionFault.TheVariants.{HostFault as DiskFault};

    ghost from_gives = { λ _ e. e ≡ DiskFault };

    fn from(_e: HostFault) -> SessionFault {
        SessionFault::HostFault
    }
}
