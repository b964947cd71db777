//! A range of free bytes.

/// A gap between the records of a file: a range of free bytes, as ROOT's TFree.
#[derive(Clone, Copy, Debug, PartialEq, Eq)]
pub struct Gap {
    /// The place of its first byte.
    pub place: u64,
    /// How many bytes it has.
    pub length: u64,
}

impl Gap {
    ghost use Rattle.std.specs.Prelude.{◌≡◌, ◌<◌, ◌^◌};
    ghost use Rattle.rio_free.specs.Gaps.{gap_end};

    /// The place of the first byte behind it.
    pub fn end(&self) -> u64
        requires { gap_end self.now < 2 ^ 64 }
        ensures { result ≡ gap_end self.now }
    {
        self.place + self.length
    }
}
