//! Why a file's contents could not be told.
use rio_head::{FileFault, HeadFault};
use rio_host::{Failed, ReadFault};
use rio_num::NoMemory;
use std::alloc::AllocError;
use thiserror::Error;

/// Why a file's contents could not be told.
#[derive(Clone, Copy, Debug, PartialEq, Eq, Error)]
pub enum ReportFault {
    /// The file breaks the rule of this kind at this place, in bytes from its beginning.
    #[error("bad file at {place}: {kind:?}")]
    BadFile { place: u64, kind: FileFault },
    #[error("no memory")]
    NoMemory,
    /// A call on the file failed.
    #[error("disk fault")]
    HostFault,
    /// What was to be said could not be said.
    #[error("output fault")]
    SayFault,
}

impl From<AllocError> for ReportFault {
    ghost use Rattle.std.specs.Prelude.{◌≡◌};
    ghost use Rattle.rio_close.specs.declared.fault.ReportFault.TheVariants.{NoMemory as OutOfMemory};

    ghost from_gives = { λ _ e. e ≡ OutOfMemory };

    fn from(_e: AllocError) -> ReportFault {
        ReportFault::NoMemory
    }
}

impl From<ReadFault> for ReportFault {
    ghost use Rattle.std.specs.Prelude.{◌≡◌};
    ghost use Rattle.rio_close.specs.Causes.{fault_of_read};

    ghost from_gives = { λ f e. e ≡ fault_of_read f };

    fn from(fault: ReadFault) -> ReportFault {
        match fault {
            ReadFault::NoMemory => ReportFault::NoMemory,
            ReadFault::HostFault => ReportFault::HostFault,
        }
    }
}

impl From<NoMemory> for ReportFault {
    ghost use Rattle.std.specs.Prelude.{◌≡◌};
    ghost use Rattle.rio_close.specs.declared.fault.ReportFault.TheVariants.{NoMemory as OutOfMemory};

    ghost from_gives = { λ _ e. e ≡ OutOfMemory };

    fn from(_e: NoMemory) -> ReportFault {
        ReportFault::NoMemory
    }
}

// A call on the file failed; where a text can't be said, SayFault is written out.
impl From<Failed> for ReportFault {
    ghost use Rattle.std.specs.Prelude.{◌≡◌};
    ghost use Rattle.rio_close.specs.declared.fault.ReportFault.TheVariants.{HostFault};

    ghost from_gives = { λ _ e. e ≡ HostFault };

    fn from(_e: Failed) -> ReportFault {
        ReportFault::HostFault
    }
}

impl From<HeadFault> for ReportFault {
    ghost use Rattle.std.specs.Prelude.{◌≡◌};
    ghost use Rattle.rio_close.specs.declared.fault.ReportFault.TheVariants.{BadFile};

    ghost from_gives = { λ f e. e ≡ BadFile f.place f.kind };

    fn from(fault: HeadFault) -> ReportFault {
        ReportFault::BadFile {
            place: fault.place,
            kind: fault.kind,
        }
    }
}
