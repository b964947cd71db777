//! A basket that is being filled.
ghost use Rattle.std.specs.Prelude.{◌≡◌, ◌+◌, ◌<◌, ◌≤◌, ◌==◌, ◌||◌, ◌&&◌, length, nat_le, nat_lt, slice_get, slice_range, true};
ghost use Rattle.std.specs.Option.{option_copied};
ghost use Rattle.rio_key.specs.OpenBasket.{cut_from, is_cut, start_of};

use crate::basket_record::{key_of, put_ends};
use crate::{BasketHead, write_basket_head, write_key};
use rio_num::{Bytes, NoMemory};
use std::alloc::Global;
use std::marker::Model;

/// The most bytes that the entries of a basket have together, unless it has a single one.
const MOST_BYTES: u128 = 32_000;

/// The most entries of a basket.
const MOST_ENTRIES: usize = 8_192;

/// What a basket's head says of the buffer that it was filled in.
const BUFFER_SIZE: i32 = 32_000;

/// A basket that is being filled with the entries of a branch, which have offsets or all have one length.
#[derive(Drop)]
pub struct Basket {
    offsets: bool,
    bytes: Bytes,
    // Where each entry ends in the bytes.
    ends: Vec<usize>,
    // How many more ends are promised to fit without memory.
    rooms: usize,
}

impl Model for Basket {
    ghost use Rattle.std.specs.Prelude.{◌≡◌, ◌+◌, ◌≤◌, ◌||◌, length, true, vec_len, vec_capacity};
    ghost use Rattle.rio_key.specs.OpenBasket.{OpenBasket, cut_from, have_one_length, is_cut};

    ghost Value = { OpenBasket };

    ghost view = { λ b. record {
      offsets = b.offsets;
      entries = cut_from 0 b.ends.items b.bytes.bytes;
      rooms = b.rooms;
      spare = b.bytes.spare;
    } };

    ghost invariant = { λ b. (is_cut 0 b.ends.items (length b.bytes.bytes) ≡ true)
        × (vec_len b.ends + b.rooms ≤ vec_capacity b.ends)
        × (b.offsets || have_one_length (cut_from 0 b.ends.items b.bytes.bytes) ≡ true) };
}

impl Basket {
    ghost use Rattle.std.specs.Prelude.{◌≡◌, ℕ, ◌+◌, ◌<◌, ◌≤◌, ◌^◌, List, [], ◌++◌, length, max, slice_get, Ok, IsTrue, IfOk, OnOk};
    ghost use Rattle.std.specs.Option.{option_copied};
    ghost use Rattle.rio_num.specs.Room.{with_more};
    ghost use Rattle.rio_key.specs.{BasketEntries.{entries_in}, OpenBasket.{AddsEntry, MakesRoom, entries_length, fits_entry, takes_entry}};
    ghost use Rattle.rio_key.specs.BasketRecord.{FitsBasketRecord, basket_data, basket_head, basket_record, first_entry_length, offset_table};

    /// No entries.
    pub fn new(alloc: Global, offsets: bool) -> Basket
        ensures { result
            ≡ record { offsets = offsets; entries = []; rooms = 0; spare = 0 } }
    {
        Basket {
            offsets,
            bytes: Bytes::new(alloc),
            ends: Vec::new(alloc),
            rooms: 0,
        }
    }

    /// How many entries there are.
    pub fn count(&self) -> usize
        ensures { result ≡ length self.now.entries }
    {
        self.ends.as_slice().len()
    }

    /// How many bytes the entries have together.
    pub fn entries_length(&self) -> usize
        ensures { result ≡ entries_length self.now.entries }
    {
        self.bytes.len()
    }

    /// The entry at `k`, counted from 0.
    pub fn entry(&self, k: usize) -> Option<&[u8]>
        ensures { option_copied result ≡ slice_get self.now.entries k }
    {
        entry_between(self.bytes.as_slice(), self.ends.as_slice(), k)
    }

    /// Puts an entry at the end. Without offsets it is as long as those before it.
    pub fn add(&mut self, entry: &[u8]) -> Result<(), NoMemory>
        requires { IsTrue (fits_entry self.old entry.now) }
        ensures { AddsEntry self.old self.new entry.now result }
    {
        self.ends.reserve(1)?;
        self.bytes.put(entry)?;
        self.ends.push(self.bytes.len())?;
        self.rooms = self.rooms.saturating_sub(1);
        Ok(())
    }

    /// Makes room for one more entry of at most `n` bytes, which `add` then takes without memory.
    pub fn reserve(&mut self, n: u64) -> Result<(), NoMemory>
        ensures { MakesRoom self.old self.new n result }
    {
        if self.rooms == 0 {
            self.ends.reserve(1)?;
        }
        self.bytes.reserve(n)?;
        self.rooms = self.rooms.max(1);
        Ok(())
    }

    /// Whether an entry of `n` bytes goes into this basket: it is the first, or there are at most 32,000 bytes and 8,192
    /// entries with it. Else the basket is written before.
    pub fn takes(&self, n: u64) -> bool
        ensures { result ≡ takes_entry self.now.entries n }
    {
        take_one_more(self.count(), self.bytes.len(), n)
    }

    // The length of the first entry, and 0 where there is none.
    fn first_length(&self) -> usize
        ensures { result ≡ first_entry_length self.now.entries }
    {
        match self.entry(0) {
            Some(entry) => entry.len(),
            None => 0,
        }
    }

    // How many bytes the entries and their offsets take.
    fn data_length(&self) -> usize
        requires { length (basket_data 0 self.now) < 2 ^ 32 }
        ensures { (k : ℕ) → result ≡ length (basket_data k self.now) }
    {
        if self.offsets {
            self.bytes.len() + 4 * self.count() + 8
        } else {
            self.bytes.len()
        }
    }

    // The head behind a key of this length.
    fn head(&self, keylen: u16) -> BasketHead
        requires count { length self.now.entries < 2 ^ 31 }
        requires last { keylen + entries_length self.now.entries < 2 ^ 31 }
        ensures { result ≡ basket_head keylen self.now }
    {
        let count = self.count();
        let size = if self.offsets {
            count
        } else {
            self.first_length()
        };
        BasketHead {
            version: 3,
            buffer_size: BUFFER_SIZE,
            nev_size: size as i32,
            nev: count as i32,
            last: i32::from(keylen) + self.bytes.len() as i32,
            flag: 0,
        }
    }

    // How many offsets there are, and each of them.
    fn put_table(&self, keylen: u16, into: &mut Bytes) -> Result<(), NoMemory>
        requires count { length self.now.entries < 2 ^ 31 }
        requires last { keylen + entries_length self.now.entries < 2 ^ 31 }
        ensures { OnOk result (into.new
            ≡ with_more into.old (offset_table keylen self.now.entries)) }
    {
        into.put_u32(self.count() as u32 + 1)?;
        into.put_u32(u32::from(keylen))?;
        put_ends(u32::from(keylen), self.ends.as_slice(), into)
    }

    // The entries, and their offsets where they have some.
    fn put_data(&self, keylen: u16, into: &mut Bytes) -> Result<(), NoMemory>
        requires count { length self.now.entries < 2 ^ 31 }
        requires last { keylen + entries_length self.now.entries < 2 ^ 31 }
        ensures { OnOk result (into.new ≡ with_more into.old (basket_data keylen self.now)) }
    {
        into.put(self.bytes.as_slice())?;
        if self.offsets {
            self.put_table(keylen, into)?;
        }
        Ok(())
    }

    /// The record of this basket at a place of the file, of a branch of a tree, with the time of the writing as a TDatime
    /// packs it. Its numbers fit their fields. It is read as the basket's entries, whatever follows it, and has four bytes
    /// spare, which putting it into a file takes.
    pub fn to_record(
        &self,
        place: u64,
        tree: &[u8],
        branch: &[u8],
        datime: u32,
    ) -> Result<Bytes, NoMemory>
        requires { FitsBasketRecord place tree.now branch.now datime self.now }
        ensures exact { IfOk result (λ made.
            made.bytes ≡ basket_record place tree.now branch.now datime self.now) }
        ensures spare { IfOk result (λ made. 4 ≤ made.spare) }
        ensures read { IfOk result (λ made. (rest : List ℕ)
            → entries_in self.now.offsets (made.bytes ++ rest) ≡ Ok self.now.entries) }
    {
        let alloc = self.bytes.allocator();
        let key = key_of(
            alloc,
            place,
            tree,
            branch,
            datime,
            self.data_length() as u64,
        )?;
        let mut record = Bytes::new(alloc);
        record.reserve(u64::from(key.keylen) + u64::from(key.objlen) + 4)?;
        write_key(&key, &mut record)?;
        write_basket_head(&self.head(key.keylen), &mut record)?;
        self.put_data(key.keylen, &mut record)?;
        record.pad4()?;
        Ok(record)
    }
}

// The bytes from one place to another.
fn part(bytes: &[u8], from: usize, to: usize) -> &[u8]
    requires { (from ≤ to) × (to ≤ length bytes.now) }
    ensures { result.now ≡ slice_range bytes.now from to }
{
    &bytes[from..to]
}

// Where the k-th of entries begins that end so.
fn start_of(ends: &[usize], k: usize) -> usize
    requires { k < length ends.now }
    ensures { result ≡ start_of 0 ends.now k }
{
    if k == 0 { 0 } else { ends[k - 1] }
}

// The k-th of entries that end so.
fn entry_between<'a>(bytes: &'a [u8], ends: &[usize], k: usize) -> Option<&'a [u8]>
    requires { is_cut 0 ends.now (length bytes.now) ≡ true }
    ensures { option_copied result ≡ slice_get (cut_from 0 ends.now bytes.now) k }
{
    if k < ends.len() {
        Some(part(bytes, start_of(ends, k), ends[k]))
    } else {
        None
    }
}

// Whether so many entries of so many bytes go with one of `n` bytes more.
fn take_one_more(count: usize, bytes: usize, n: u64) -> bool
    ensures { result
        ≡ ((count == 0) || (nat_le (bytes + n) 32000 && nat_lt count 8192)) }
{
    count == 0 || (bytes as u128 + u128::from(n) <= MOST_BYTES && count < MOST_ENTRIES)
}
