//! The offsets of a basket's entries, and the entries.
ghost use Rattle.std.specs.Prelude.{◌≡◌, ◌+◌, ◌<◌, ◌≤◌, ◌^◌, ◌==◌, ◌||◌, length, nat_lt, not, IfOk};
ghost use Rattle.rio_num.specs.Answers.{GivesUnless};
ghost use Rattle.rio_key.specs.{BasketEntries.{has_count, is_whole_at, number_there, offset_before, offset_place, offsets_from, offsets_in, sound_layout_in, sound_offset, spare_offset}, LaidBasket.{IsLaid}};
ghost use Rattle.rio_key.specs.declared.basket_fault.BasketFault.TheVariants.{NoMemory as OutOfMemory};

use crate::BasketFault;
use crate::basket_layout::{Layout, read_layout};
use byteorder::{BigEndian, ByteOrder};
use rio_num::bytes_from;
use std::alloc::Global;

/// The number in the four bytes at the place.
pub(crate) fn number_there(bytes: &[u8], place: usize) -> u32
    requires { place + 4 ≤ length bytes.now }
    ensures { result ≡ number_there bytes.now place }
{
    BigEndian::read_u32(bytes_from(bytes, place))
}

pub(crate) fn offset_place(layout: &Layout, k: u32) -> usize
    ensures value { result ≡ offset_place layout.now k }
    ensures bound { result < 2 ^ 36 }
{
    layout.last as usize + 4 + 4 * k as usize
}

fn is_whole_at(layout: &Layout, place: usize) -> bool
    requires { place < 2 ^ 36 }
    ensures { result ≡ is_whole_at layout.now place }
{
    !((layout.end as usize) < place + 4)
}

// Whether an offset is neither below the one before nor behind the data.
fn stands(before: u32, offset: u32, last: u32) -> bool
    ensures { result ≡ not (nat_lt offset before || nat_lt last offset) }
{
    !(offset < before || last < offset)
}

// The k-th offset, if it can stand behind the one before.
fn sound_offset(layout: &Layout, bytes: &[u8], before: u32, k: u32) -> Option<u32>
    requires within { layout.now.end ≤ length bytes.now }
    requires before { before ≡ offset_before layout.now bytes.now k }
    ensures { result ≡ sound_offset layout.now bytes.now k }
{
    let place = offset_place(layout, k);
    if !is_whole_at(layout, place) {
        return None;
    }
    let offset = number_there(bytes, place);
    if stands(before, offset, layout.last) {
        Some(offset)
    } else {
        None
    }
}

// The offsets of the entries, or the first that can't stand.
fn check_offsets(layout: &Layout, bytes: &[u8]) -> Result<(), BasketFault>
    requires { layout.now.end ≤ length bytes.now }
    ensures { result ≡ offsets_from layout.now bytes.now layout.now.count 0 }
{
    let mut before = layout.first;
    for k in 0..layout.count {
        match sound_offset(layout, bytes, before, k) {
            Some(offset) => before = offset,
            None => {
                return Err(BasketFault::BadOffsets {
                    place: offset_place(layout, k) as u64,
                });
            }
        }
    }
    Ok(())
}

fn check_spare(layout: &Layout, said: u32) -> Result<(), BasketFault>
    ensures { result ≡ spare_offset layout.now said }
{
    let place = offset_place(layout, layout.count);
    if said == layout.count || is_whole_at(layout, place) {
        Ok(())
    } else {
        Err(BasketFault::BadOffsets {
            place: place as u64,
        })
    }
}

fn is_count(layout: &Layout, said: u32) -> bool
    ensures { result
        ≡ ((said == layout.now.count) || (said == layout.now.count + 1)) }
{
    said == layout.count || u64::from(said) == u64::from(layout.count) + 1
}

fn has_count(layout: &Layout, bytes: &[u8]) -> bool
    requires { layout.now.end ≤ length bytes.now }
    ensures { result ≡ has_count layout.now bytes.now }
{
    is_whole_at(layout, layout.last as usize)
        && is_count(layout, number_there(bytes, layout.last as usize))
}

/// The offsets behind the entries, or the first that can't stand.
pub(crate) fn check_table(layout: &Layout, bytes: &[u8]) -> Result<(), BasketFault>
    requires { layout.now.end ≤ length bytes.now }
    ensures { result ≡ offsets_in layout.now bytes.now }
{
    if !has_count(layout, bytes) {
        return Err(BasketFault::BadOffsets {
            place: u64::from(layout.last),
        });
    }
    check_offsets(layout, bytes)?;
    check_spare(layout, number_there(bytes, layout.last as usize))
}

/// How the entries of a basket are laid out, or its first fault.
#[tactic(auto, unfolding(crate::specs::BasketEntries::sound_layout_in))]
pub(crate) fn read_sound_layout(
    alloc: Global,
    bytes: &[u8],
    offsets: bool,
) -> Result<Layout, BasketFault>
    ensures exact { GivesUnless OutOfMemory (λ x. x) result (sound_layout_in offsets bytes.now) }
    ensures laid { IfOk result (λ layout. IsLaid offsets layout bytes.now) }
{
    let layout = read_layout(alloc, bytes, offsets)?;
    if offsets {
        check_table(&layout, bytes)?;
    }
    Ok(layout)
}
