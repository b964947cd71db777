//! The free record is read.
ghost use Rattle.std.specs.Prelude.{◌≡◌, ◌+◌, ◌-◌, ◌<◌, ◌≤◌, ◌^◌, None, true, length, IfOk};
ghost use Rattle.std.specs.List.{All};
ghost use Rattle.rio_num.specs.Answers.{GivesUnless};
ghost use Rattle.rio_num.specs.At.{GoesOn, place_len_of};
ghost use Rattle.rio_num.specs.Reading.{Takes, number_at};
ghost use Rattle.rio_num.specs.Room.{is_padding};
ghost use Rattle.rio_free.specs.Entry.{is_above};
ghost use Rattle.rio_free.specs.EntryList.{AreEntriesAbove, TakesEntry, free_entries_in, free_gaps_in, gaps_of, inner_entries};
ghost use Rattle.rio_free.specs.declared.fault.FreeFault.TheVariants.{NoMemory as OutOfMemory};

use crate::{FreeEntry, FreeFault, FreeList};
use rio_num::{Cursor, Items, NoMemory, Short};
use std::alloc::Global;

// A place in the file, as long as entries of this version have it.
fn take_place(cursor: &mut Cursor, version: u16) -> Result<u64, Short>
    ensures exact { Takes (λ x. x) result (number_at (place_len_of version) cursor.old)
        cursor.old cursor.new }
    ensures goes { GoesOn cursor.old cursor.new }
{
    if version > 1000 {
        cursor.take_u64()
    } else {
        Ok(u64::from(cursor.take_u32()?))
    }
}

// Whether a place is above the last byte of the entry before.
fn is_above(before: Option<u64>, place: u64) -> bool
    ensures { result ≡ is_above before place }
{
    match before {
        Some(last) => last < place,
        None => true,
    }
}

// The next entry, behind one with this last byte.
#[tactic(auto, unfolding(crate::specs::Entry::next_entry))]
fn take_entry(cursor: &mut Cursor, before: Option<u64>) -> Result<FreeEntry, FreeFault>
    ensures exact { TakesEntry result (record { at = cursor.old; words = before }) cursor.new }
    ensures in_order { IfOk result (λ e. (is_above before e.first ≡ true) × (e.first ≤ e.last)) }
    ensures fits { IfOk result (λ e. e.last < 2 ^ 64) }
    ensures shorter { IfOk result (λ e. length cursor.new.rest < length cursor.old.rest) }
{
    let place = cursor.place();
    let version = cursor.take_u16()?;
    let first = take_place(cursor, version)?;
    let last = take_place(cursor, version)?;
    if !(is_above(before, first) && first <= last) {
        return Err(FreeFault::BadOrder { place });
    }
    Ok(FreeEntry { first, last })
}

// At most three zero bytes end the list.
fn is_padding(rest: &[u8]) -> bool
    ensures { result ≡ is_padding rest.now }
{
    rest.len() < 4 && rest.iter().all(|byte| *byte == 0)
}

// The entries up to the end of the list.
fn read_entries(alloc: Global, bytes: &[u8]) -> Result<Items<FreeEntry>, FreeFault>
    ensures exact { GivesUnless OutOfMemory (λ list. list) result (free_entries_in bytes.now) }
    ensures rise { IfOk result (λ entries. AreEntriesAbove None entries) }
{
    let mut cursor = Cursor::new(bytes, 0);
    let mut entries = Items::new(alloc);
    let mut before = None;
    while !is_padding(cursor.rest()) {
        let entry = take_entry(&mut cursor, before)?;
        before = Some(entry.last);
        entries.push(entry)?;
    }
    Ok(entries)
}

// All entries but the last.
fn inner_entries(entries: &[FreeEntry]) -> &[FreeEntry]
    ensures { result.now ≡ inner_entries entries.now }
{
    &entries[..entries.len().saturating_sub(1)]
}

// The gaps of entries in order.
fn gaps_of(alloc: Global, entries: &[FreeEntry]) -> Result<FreeList, NoMemory>
    requires rise { AreEntriesAbove None entries.now }
    requires fit { All (λ e. e.last + 1 < 2 ^ 64) entries.now }
    ensures { IfOk result (λ list. list ≡ record { gaps = gaps_of entries.now; spare = 0 }) }
{
    let mut list = FreeList::new(alloc);
    list.reserve(entries.len() as u64)?;
    for entry in entries {
        list.give(entry.first, entry.last - entry.first + 1);
    }
    Ok(list)
}

/// The gaps that the data of a free record list: those of all entries but the last one, which is what is behind the end
/// of the file; entries that touch are one gap. At most three zero bytes end the list. The fault is the first one from
/// left to right: Short at the first field of an entry that isn't whole, and BadOrder at a whole entry that doesn't begin
/// above the last byte of the one before it, or that ends before it begins. The first byte has the place 0. The list has
/// no room for more.
#[tactic(auto, unfolding(crate::specs::EntryList::free_gaps_in))]
pub fn read_free(alloc: Global, bytes: &[u8]) -> Result<FreeList, FreeFault>
    ensures exact { GivesUnless OutOfMemory (λ list. list.gaps) result (free_gaps_in bytes.now) }
    ensures spare { IfOk result (λ list. list.spare ≡ 0) }
{
    let entries = read_entries(alloc, bytes)?;
    Ok(gaps_of(alloc, inner_entries(entries.as_slice()))?)
}
