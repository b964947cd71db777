//! The free record is written.
ghost use Rattle.std.specs.Prelude.{◌+◌, ◌*◌, ◌<◌, ◌≤◌, ◌^◌, length};
ghost use Rattle.std.specs.List.{All};
ghost use Rattle.rio_num.specs.Room.{Appends};
ghost use Rattle.rio_free.specs.Gaps.{gap_end};
ghost use Rattle.rio_free.specs.Record.{entry_bytes, free_bytes, gaps_bytes};

use crate::{FreeEntry, FreeList, Gap};
use rio_num::{Bytes, NoMemory};

// Puts an entry where there is room for it.
fn put_entry(entry: FreeEntry, into: &mut Bytes) -> Result<(), NoMemory>
    requires first { entry.first < 2 ^ 32 }
    requires last { entry.last < 2 ^ 32 }
    requires room { 10 ≤ into.old.spare }
    ensures { Appends into.old into.new (entry_bytes 1 entry) result }
{
    into.put_u16(1)?;
    into.put_u32(entry.first as u32)?;
    into.put_u32(entry.last as u32)
}

// Puts the entries of the gaps where there is room for them.
fn put_gaps(gaps: &[Gap], into: &mut Bytes) -> Result<(), NoMemory>
    requires fit { All (λ g. gap_end g ≤ 2 ^ 32) gaps.now }
    requires some { All (λ g. 0 < g.length) gaps.now }
    requires room { 10 * length gaps.now ≤ into.old.spare }
    ensures { Appends into.old into.new (gaps_bytes gaps.now) result }
{
    for gap in gaps {
        put_entry(
            FreeEntry {
                first: gap.place,
                last: gap.end() - 1,
            },
            into,
        )?;
    }
    Ok(())
}

/// Writes the data of the free record at the end of some bytes: an entry for each gap, in order of place, and one from
/// `end`, the end of the file, to 2,000,000,000. All places have to fit four bytes.
pub fn write_free(list: &FreeList, end: u64, into: &mut Bytes) -> Result<(), NoMemory>
    requires gaps_fit { All (λ g. gap_end g ≤ 2 ^ 32) list.now.gaps }
    requires end_fits { end < 2 ^ 32 }
    ensures { Appends into.old into.new (free_bytes list.now.gaps end) result }
{
    let gaps = list.as_slice();
    into.reserve(10 * (gaps.len() as u64 + 1))?;
    put_gaps(gaps, into)?;
    put_entry(
        FreeEntry {
            first: end,
            last: 2_000_000_000,
        },
        into,
    )
}
