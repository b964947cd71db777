//! The reasons against writing to a file.
use thiserror::Error;

/// Why a file that breaks no rule is read only, in the order of testing.
#[derive(Clone, Copy, Debug, PartialEq, Eq, Error)]
pub enum Reason {
    /// The file is to be made and is there already.
    #[error("the file isn't new")]
    NotNew,
    /// The header has the large form.
    #[error("the header has the large form")]
    LargeForm,
    /// A segment breaks the chain of records and gaps.
    #[error("the chain of records breaks")]
    NoChain,
    /// A key is in another directory than the file's first.
    #[error("a key is in another directory")]
    OtherDirectory,
    /// The classes have no reading.
    #[error("the classes have no reading")]
    BadInfo,
    /// A key's name is no item of the script language.
    #[error("a key's name is no item")]
    BadName,
    /// A key's title isn't empty.
    #[error("a key has a title")]
    BadKey,
    /// An object has no reading, doesn't fit, can't be put or is above a limit.
    #[error("an object can't stand for a value")]
    BadObject,
    /// A tree breaks the rule of trees.
    #[error("a tree can't stand for rows")]
    BadTree,
    /// A key has name and cycle of an earlier one.
    #[error("two keys have the same name and cycle")]
    DoubleKey,
    /// A name is that of both a tree and an object.
    #[error("a tree and an object have the same name")]
    MixedName,
    /// There are more than 100,000 items.
    #[error("there are more than 100,000 items")]
    TooMany,
    /// There is no room for what a close writes.
    #[error("there is no room for closing")]
    NoRoom,
}

impl Reason {
    ghost use Rattle.std.specs.Prelude.{◌≡◌};
    ghost use Rattle.rio_head.specs.ReasonName.{name_of_reason};

    /// The variant's name.
    pub fn name(&self) -> &'static str
        ensures { result.now ≡ name_of_reason self.now }
    {
        match self {
            Reason::NotNew => "NotNew",
            Reason::LargeForm => "LargeForm",
            Reason::NoChain => "NoChain",
            Reason::OtherDirectory => "OtherDirectory",
            Reason::BadInfo => "BadInfo",
            Reason::BadName => "BadName",
            Reason::BadKey => "BadKey",
            Reason::BadObject => "BadObject",
            Reason::BadTree => "BadTree",
            Reason::DoubleKey => "DoubleKey",
            Reason::MixedName => "MixedName",
            Reason::TooMany => "TooMany",
            Reason::NoRoom => "NoRoom",
        }
    }
}
