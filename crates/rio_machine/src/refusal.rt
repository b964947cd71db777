//! Why a command is refused.
ghost use Rattle.std.specs.Prelude.{◌≡◌};
ghost use Rattle.rio_machine.specs.RefusalText.{refusal_name, refusal_number};

use rio_num::Name;

/// Why a command is refused. A refused command changes nothing. Where several hold, the first of them in this order is
/// told. They are numbered from 1.
#[derive(Debug, Drop)]
pub enum Refusal {
    /// The line is no command. Lines are counted from 1, and places in them from 0.
    BadLine { line: u32, place: u32 },
    /// The name is left to the classes and lists that come with the format.
    BadName,
    /// Nothing has the name.
    NoSuchName,
    /// What has the name has another cycle.
    NoSuchCycle,
    /// The name is a tree's, and an object is wanted.
    NameIsTree,
    /// The name is an object's, and a tree is wanted.
    NotATree,
    /// Something has the name already.
    NameInUse,
    /// A class that is named isn't declared, or not in the version that is named, or it may not stand there.
    NoSuchClass,
    /// The class is declared in this version.
    SameVersion,
    /// The class would hold itself.
    HoldsItself,
    /// The value is no object, or it doesn't fit its class.
    DoesNotFit,
    /// The row doesn't fit the branches of the tree.
    BadRow,
    /// This base or member can't be had as the asked version has it.
    KindChanged { member: Name },
    /// The class has no such version.
    NoVersion,
    /// There is no further cycle.
    CycleLimit,
    /// The bytes of an object, of the class list or of one branch's entry would be more than 16,777,216.
    TooLarge,
    /// The value has more than 256 levels of objects.
    TooDeep,
    /// A list, the items, the classes, the branches or the leaves would be too many.
    TooMany,
    /// There is no room: the chain of records ends at `end`, and the command's records have `wanted` bytes.
    Full { end: u64, wanted: u64 },
}

impl Refusal {
    /// The number by which it is told.
    pub fn number(&self) -> u8
        ensures { result ≡ refusal_number self.now }
    {
        match self {
            Refusal::BadLine { .. } => 1,
            Refusal::BadName => 2,
            Refusal::NoSuchName => 3,
            Refusal::NoSuchCycle => 4,
            Refusal::NameIsTree => 5,
            Refusal::NotATree => 6,
            Refusal::NameInUse => 7,
            Refusal::NoSuchClass => 8,
            Refusal::SameVersion => 9,
            Refusal::HoldsItself => 10,
            Refusal::DoesNotFit => 11,
            Refusal::BadRow => 12,
            Refusal::KindChanged { .. } => 13,
            Refusal::NoVersion => 14,
            Refusal::CycleLimit => 15,
            Refusal::TooLarge => 16,
            Refusal::TooDeep => 17,
            Refusal::TooMany => 18,
            Refusal::Full { .. } => 19,
        }
    }

    /// The name by which it is told.
    pub fn name(&self) -> &'static [u8]
        ensures { result.now ≡ refusal_name self.now }
    {
        match self {
            Refusal::BadLine { .. } => b"BadLine",
            Refusal::BadName => b"BadName",
            Refusal::NoSuchName => b"NoSuchName",
            Refusal::NoSuchCycle => b"NoSuchCycle",
            Refusal::NameIsTree => b"NameIsTree",
            Refusal::NotATree => b"NotATree",
            Refusal::NameInUse => b"NameInUse",
            Refusal::NoSuchClass => b"NoSuchClass",
            Refusal::SameVersion => b"SameVersion",
            Refusal::HoldsItself => b"HoldsItself",
            Refusal::DoesNotFit => b"DoesNotFit",
            Refusal::BadRow => b"BadRow",
            Refusal::KindChanged { .. } => b"KindChanged",
            Refusal::NoVersion => b"NoVersion",
            Refusal::CycleLimit => b"CycleLimit",
            Refusal::TooLarge => b"TooLarge",
            Refusal::TooDeep => b"TooDeep",
            Refusal::TooMany => b"TooMany",
            Refusal::Full { .. } => b"Full",
        }
    }
}
