//! The kinds of file faults, and the fault of a header or directory.
use rio_num::Short;
use thiserror::Error;

/// Why a file is not read, in the order of testing.
#[derive(Clone, Copy, Debug, PartialEq, Eq, Error)]
pub enum FileFault {
    /// The first four bytes aren't `root`.
    #[error("the file doesn't begin with `root`")]
    NotRoot,
    /// A field of the header isn't whole.
    #[error("a field of the header isn't whole")]
    Short,
    /// The first record isn't said to be at 100.
    #[error("the first record isn't at 100")]
    BadBegin,
    /// The places aren't said to be as long as the header's form has them.
    #[error("the places have another length than the header's")]
    BadUnits,
    /// The file's end is said to be past the file's length.
    #[error("the file wasn't closed")]
    NotClosed,
    /// The record of the directory isn't whole in the file.
    #[error("the record of the directory isn't whole")]
    BadDir,
    /// The key list's key, its count or one of its heads is unreadable.
    #[error("the key list is unreadable")]
    BadKeyList,
    /// The record of the class list is compressed.
    #[error("the class list is compressed")]
    Compressed,
    /// The record of the class list has no reading.
    #[error("the class list has no reading")]
    BadInfo,
}

impl FileFault {
    ghost use Rattle.std.specs.Prelude.{◌≡◌};
    ghost use Rattle.rio_head.specs.FaultName.{fault_name};

    /// The variant's name.
    pub fn name(&self) -> &'static str
        ensures { result.now ≡ fault_name self.now }
    {
        match self {
            FileFault::NotRoot => "NotRoot",
            FileFault::Short => "Short",
            FileFault::BadBegin => "BadBegin",
            FileFault::BadUnits => "BadUnits",
            FileFault::NotClosed => "NotClosed",
            FileFault::BadDir => "BadDir",
            FileFault::BadKeyList => "BadKeyList",
            FileFault::Compressed => "Compressed",
            FileFault::BadInfo => "BadInfo",
        }
    }
}

/// The first fault of a header, and the place of the field that it is in.
#[derive(Clone, Copy, Debug, PartialEq, Eq, Error)]
#[error("at {place}: {kind}")]
pub struct HeadFault {
    pub place: u64,
    pub kind: FileFault,
}

impl From<Short> for HeadFault {
    ghost use Rattle.std.specs.Prelude.{◌≡◌};
    ghost use Rattle.rio_head.specs.declared.fault.FileFault.TheVariants.{Short as NotWhole};

    ghost from_gives = { λ s e. e ≡ record { place = s.place; kind = NotWhole } };

    fn from(short: Short) -> HeadFault {
        HeadFault {
            place: short.place,
            kind: FileFault::Short,
        }
    }
}
