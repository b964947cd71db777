//! The entries of a basket that is read.
ghost use Rattle.std.specs.Prelude.{◌≡◌, ◌+◌, ◌<◌, ◌≤◌, ◌^◌, length, true, false, slice_range};
ghost use Rattle.rio_num.specs.Answers.{GivesUnless};
ghost use Rattle.rio_key.specs.{BasketEntries.{laid_entry, entries_in, offset_at, offset_behind, offset_place}, LaidBasket.{AreOffsets, IsLaid, IsLayoutWithin}};
ghost use Rattle.rio_key.specs.declared.basket_fault.BasketFault.TheVariants.{NoMemory as OutOfMemory};

use crate::BasketFault;
use crate::basket_layout::Layout;
use crate::basket_offsets::{number_there, offset_place, read_sound_layout};
use rio_num::{Bytes, Items, NoMemory};
use std::alloc::Global;
use std::marker::Model;

// Where the k-th entry begins.
fn offset_at(layout: &Layout, bytes: &[u8], k: u32) -> usize
    requires { offset_place layout.now k + 4 ≤ length bytes.now }
    ensures same { result ≡ offset_at layout.now bytes.now k }
    ensures short { result < 2 ^ 32 }
{
    number_there(bytes, offset_place(layout, k)) as usize
}

// Where it ends.
fn offset_behind(layout: &Layout, bytes: &[u8], k: u32) -> usize
    requires inside { k < layout.now.count }
    requires laid { AreOffsets layout.now bytes.now }
    ensures same { result ≡ offset_behind layout.now bytes.now k }
    ensures short { result < 2 ^ 32 }
{
    if k + 1 == layout.count {
        layout.last as usize
    } else {
        offset_at(layout, bytes, k + 1)
    }
}

// The bytes from a place to another.
fn bytes_between(bytes: &[u8], from: usize, to: usize) -> &[u8]
    requires rises { from ≤ to }
    requires within { to ≤ length bytes.now }
    ensures same { result.now ≡ slice_range bytes.now from to }
    ensures short { length result.now ≤ to }
{
    &bytes[from..to]
}

// The k-th entry of a basket with offsets.
fn entry_between<'a>(layout: &Layout, bytes: &'a [u8], k: u32) -> &'a [u8]
    requires inside { k < layout.now.count }
    requires within { IsLayoutWithin layout.now bytes.now }
    requires laid { AreOffsets layout.now bytes.now }
    ensures same { result.now ≡ laid_entry true layout.now bytes.now k }
    ensures short { length result.now < 2 ^ 32 }
{
    let from = offset_at(layout, bytes, k);
    let to = offset_behind(layout, bytes, k);
    bytes_between(bytes, from, to)
}

// The k-th of entries of one length.
fn equal_entry<'a>(layout: &Layout, bytes: &'a [u8], k: u32) -> &'a [u8]
    requires inside { k < layout.now.count }
    requires within { IsLayoutWithin layout.now bytes.now }
    ensures same { result.now ≡ laid_entry false layout.now bytes.now k }
    ensures short { length result.now < 2 ^ 32 }
{
    let each = (layout.last - layout.first) as usize / layout.count as usize;
    let from = layout.first as usize + k as usize * each;
    &bytes[from..from + each]
}

/// The k-th entry of a basket that is laid out so.
pub(crate) fn laid_entry<'a>(offsets: bool, layout: &Layout, bytes: &'a [u8], k: u32) -> &'a [u8]
    requires inside { k < layout.now.count }
    requires laid { IsLaid offsets layout.now bytes.now }
    ensures same { result.now ≡ laid_entry offsets layout.now bytes.now k }
    ensures short { length result.now < 2 ^ 32 }
{
    if offsets {
        entry_between(layout, bytes, k)
    } else {
        equal_entry(layout, bytes, k)
    }
}

/// The entries of a basket, each of them bytes of its own.
#[derive(Drop)]
pub struct Entries {
    items: Items<Bytes>,
}

impl Model for Entries {
    ghost use Rattle.std.specs.Prelude.{ℕ, List, map};

    ghost Value = { List (List ℕ) };

    ghost view = { λ entries. map (λ entry. entry.bytes) entries.items };
}

impl Entries {
    ghost use Rattle.std.specs.Prelude.{◌≡◌, [], ◌∷◌, ◌++◌, ◌↔◌, length, slice_get, option_map, IsTrue, OnOk, OnErr};
    ghost use Rattle.std.specs.Option.{option_copied};

    /// No entries.
    pub fn new(alloc: Global) -> Entries
        ensures { result ≡ [] }
    {
        Entries {
            items: Items::new(alloc),
        }
    }

    /// Puts an entry at the end. Where there is no memory for it, it is dropped.
    pub fn push(&mut self, item: Bytes) -> Result<(), NoMemory>
        ensures ok { OnOk result (self.new ≡ self.old ++ item.bytes ∷ []) }
        ensures err { OnErr result (self.new ≡ self.old) }
    {
        self.items.push(item)
    }

    pub fn len(&self) -> usize
        ensures { result ≡ length self.now }
    {
        self.items.len()
    }

    pub fn is_empty(&self) -> bool
        ensures { IsTrue result ↔ (self.now ≡ []) }
    {
        self.items.len() == 0
    }

    /// The entry at `k`, counted from 0.
    pub fn get(&self, k: usize) -> Option<&Bytes>
        ensures { option_map (λ entry. entry.bytes) (option_copied result) ≡ slice_get self.now k }
    {
        self.items.get(k)
    }

    /// How many entries there are.
    pub fn count(&self) -> usize
        ensures { result ≡ length self.now }
    {
        self.items.len()
    }

    /// The bytes of the entry at `k`, counted from 0.
    pub fn entry(&self, k: usize) -> Option<&[u8]>
        ensures { option_copied result ≡ slice_get self.now k }
    {
        match self.items.get(k) {
            Some(entry) => Some(entry.as_slice()),
            None => None,
        }
    }
}

/// The entries of a basket that these bytes begin with: a record of the class TBasket, whose entries have offsets or all
/// have one length. Bytes without a whole key and a basket's head, or fewer than the record's, are BadLast at place 0;
/// then Compressed comes; then BadLast at the place of fLast where a number of the head is negative, the entries don't
/// end within the record, or they can't all have one length; then BadOffsets at the number of offsets or at the first
/// offset that isn't whole or can't stand. Places count from the first byte.
#[tactic(auto, unfolding(crate::specs::BasketEntries::entries_in))]
pub fn read_basket(alloc: Global, bytes: &[u8], offsets: bool) -> Result<Entries, BasketFault>
    ensures { GivesUnless OutOfMemory (λ x. x) result (entries_in offsets bytes.now) }
{
    let layout = read_sound_layout(alloc, bytes, offsets)?;
    let mut entries = Entries::new(alloc);
    for k in 0..layout.count {
        let entry = laid_entry(offsets, &layout, bytes, k);
        entries.push(Bytes::from_slice(alloc, entry)?)?;
    }
    Ok(entries)
}
