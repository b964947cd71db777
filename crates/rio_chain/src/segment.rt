//! The segments of a chain.
ghost use Rattle.std.specs.Prelude.{◌≡◌, ◌+◌, ◌<◌, ◌^◌};
ghost use Rattle.rio_chain.specs.Adjoining.{segment_length, segment_place};

use rio_num::Items;

/// A part of a file between place 100 and its END.
#[derive(Clone, Copy, Debug, PartialEq, Eq)]
pub enum Segment {
    /// A record: a key and its data. `place` is that of its first byte.
    Record { place: u64, length: u64 },
    /// Free bytes.
    Gap { place: u64, length: u64 },
}

impl Segment {
    /// The place of its first byte.
    pub fn place(&self) -> u64
        ensures { result ≡ segment_place self.now }
    {
        match self {
            Segment::Record { place, .. } | Segment::Gap { place, .. } => *place,
        }
    }

    /// How many bytes it has.
    pub fn length(&self) -> u64
        ensures { result ≡ segment_length self.now }
    {
        match self {
            Segment::Record { length, .. } | Segment::Gap { length, .. } => *length,
        }
    }

    /// The place behind it.
    pub(crate) fn end(self) -> u64
        requires { segment_place self + segment_length self < 2 ^ 64 }
        ensures { result ≡ segment_place self + segment_length self }
    {
        match self {
            Segment::Record { place, length } | Segment::Gap { place, length } => place + length,
        }
    }
}

/// The segments of a file, one behind the other.
pub type Segments = Items<Segment>;

/// Where a record stands, and how many bytes it has.
#[derive(Clone, Copy, Debug, PartialEq, Eq)]
pub(crate) struct Span {
    pub(crate) place: u64,
    pub(crate) length: u64,
}
