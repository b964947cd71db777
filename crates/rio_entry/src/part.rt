//! What a row is read of.
ghost use Rattle.std.specs.Prelude.{◌≡◌, ◌<◌, ◌^◌, length};
ghost use Rattle.rio_entry.specs.Counting.{counters_within};

use crate::counter::LeafCounters;
use rio_leaf::BranchDef;

/// A branch of a tree with its counters, and the bytes of its entry in a row.
#[derive(Clone, Copy)]
pub struct RowPart<'a> {
    pub branch: &'a BranchDef,
    pub counters: &'a LeafCounters,
    pub entry: &'a [u8],
    pub ghost counted: { counters.now ≡ counters_within branch.now.shape },
    pub ghost short: { length entry.now < 2 ^ 32 },
}
