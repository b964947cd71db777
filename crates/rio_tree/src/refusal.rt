//! Why a branch can't be read.
ghost use Rattle.std.specs.Prelude.{◌≡◌};
ghost use Rattle.rio_tree.specs.Texts.{branch_refusal_name};

/// Why a branch can't be read, in the order of testing: the first one that holds.
#[derive(Clone, Copy, Debug, PartialEq, Eq)]
pub enum BranchRefusal {
    /// The class is neither TBranch nor TBranchElement 110, or a needed member is lacking.
    BranchClass,
    /// It has branches of its own.
    SubBranches,
    /// A basket is kept in the header.
    EmbeddedBasket,
    /// A leaf has a class that isn't read, or lacks a needed member.
    LeafClass,
    /// The counter of a leaf is no earlier leaf that can count, of this branch or of one that is read, or another leaf of
    /// its name stands between the two.
    NoCounter,
    /// It has another number of entries than the tree.
    EntryCount,
    /// The list of its baskets is too short, has a number below 0, or doesn't begin at entry 0 and rise.
    BadBasketList,
    /// A basket is compressed.
    Compressed,
    /// A basket can't be read, or has another number of entries than the list says.
    BadBasket,
    /// An entry can't be read.
    BadEntry,
}

impl BranchRefusal {
    /// The name that is printed of it.
    pub fn name(self) -> &'static [u8]
        ensures { result.now ≡ branch_refusal_name self }
    {
        match self {
            BranchRefusal::BranchClass => b"BranchClass",
            BranchRefusal::SubBranches => b"SubBranches",
            BranchRefusal::EmbeddedBasket => b"EmbeddedBasket",
            BranchRefusal::LeafClass => b"LeafClass",
            BranchRefusal::NoCounter => b"NoCounter",
            BranchRefusal::EntryCount => b"EntryCount",
            BranchRefusal::BadBasketList => b"BadBasketList",
            BranchRefusal::Compressed => b"Compressed",
            BranchRefusal::BadBasket => b"BadBasket",
            BranchRefusal::BadEntry => b"BadEntry",
        }
    }
}
