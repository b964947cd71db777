//! Why a branch isn't read to its end.
use crate::BranchRefusal;
use rio_num::NoMemory;

/// Why a branch isn't read to its end.
#[derive(Clone, Copy)]
pub(crate) enum Unread {
    Refused(BranchRefusal),
    NoMemory,
}

impl From<NoMemory> for Unread {
    ghost use Rattle.std.specs.Prelude.{◌≡◌};
    ghost use Rattle.rio_tree.specs.declared.unread.Unread.TheVariants.{NoMemory as OutOfMemory};

    ghost from_gives = { λ _ e. e ≡ OutOfMemory };

    fn from(_e: NoMemory) -> Unread {
        Unread::NoMemory
    }
}

impl From<BranchRefusal> for Unread {
    ghost use Rattle.std.specs.Prelude.{◌≡◌};
    ghost use Rattle.rio_tree.specs.declared.unread.Unread.TheVariants.{Refused as IsRefused};

    ghost from_gives = { λ why e. e ≡ IsRefused why };

    fn from(why: BranchRefusal) -> Unread {
        Unread::Refused(why)
    }
}
