//! What a leaf holds at each entry.
ghost use Rattle.std.specs.Prelude.{◌≡◌, IfOk};

use rio_num::{Items, Name, NoMemory};

/// How many values a leaf has at an entry.
#[derive(PartialEq, Drop)]
pub enum Dim {
    /// One value, which is no list.
    One,
    /// A list of so many values.
    Fixed(u32),
    /// A list: `times` values for each that the counter counts. The counter is the nearest earlier leaf of this name,
    /// in the same branch or in an earlier one.
    Counted { counter: Name, times: u32 },
}

/// A leaf of a branch. The letter tells what its values are: `B`, `S`, `I` and `L` signed integers of 1, 2, 4 and 8
/// bytes, the small letters the same without a sign, `F` and `D` floating-point numbers of 4 and 8 bytes, `O` truth
/// values and `C` texts (TLeafB to TLeafC in ROOT).
#[derive(PartialEq, Drop)]
pub struct Leaf {
    pub name: Name,
    pub letter: u8,
    pub dim: Dim,
}

/// The leaves of a branch, in order.
pub type Leaves = Items<Leaf>;

impl Dim {
    /// An equal dimension.
    pub fn copy(&self) -> Result<Dim, NoMemory>
        ensures { IfOk result (λ dim. dim ≡ self.now) }
    {
        match self {
            Dim::One => Ok(Dim::One),
            Dim::Fixed(count) => Ok(Dim::Fixed(*count)),
            Dim::Counted { counter, times } => Ok(Dim::Counted {
                counter: counter.copy()?,
                times: *times,
            }),
        }
    }
}

impl Leaf {
    /// An equal leaf.
    pub fn copy(&self) -> Result<Leaf, NoMemory>
        ensures { IfOk result (λ leaf. leaf ≡ self.now) }
    {
        Ok(Leaf {
            name: self.name.copy()?,
            letter: self.letter,
            dim: self.dim.copy()?,
        })
    }
}
