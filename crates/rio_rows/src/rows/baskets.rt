//! Baskets of tree `T` and branch `x`, written field by field, and what is read of them.
//!
//! The key ends at 38; behind it stand the version at 38, fBufferSize at 40, fNevBufSize at 44, fNevBuf at 48, fLast at 52 and
//! the flag at 56. The entries begin at 57.
mod equal;
mod offsets;

use rio_key::{BasketFault, Entries, StoredBasket, read_basket};
use rio_num::{Bytes, NoMemory};
use std::alloc::Global;

/// The fields of a basket that rows change, the bytes of its entries, its table of offsets and the bytes behind that.
#[derive(Clone, Copy)]
struct Fields {
    nbytes: i32,
    objlen: u32,
    keylen: u16,
    buffer_size: i32,
    entry_size: i32,
    count: i32,
    last: i32,
    entries: &'static [u8],
    table: &'static [u32],
    behind: &'static [u8],
}

/// What is read.
#[derive(Clone, Copy)]
enum Found {
    Holds(&'static [&'static [u8]]),
    Breaks(BasketFault),
}

/// A basket of which so many bytes are there, at most.
#[derive(Clone, Copy)]
struct Row {
    name: &'static str,
    fields: Fields,
    bytes: usize,
    offsets: bool,
    found: Found,
}

/// Each number as four bytes.
fn put_words(into: &mut Bytes, words: &[u32]) -> Result<(), NoMemory> {
    for word in words {
        into.put_u32(*word)?;
    }
    Ok(())
}

impl Fields {
    fn put_key(&self, into: &mut Bytes) -> Result<(), NoMemory> {
        into.put_u32(self.nbytes.cast_unsigned())?;
        into.put_u16(4)?;
        into.put_u32(self.objlen)?;
        into.put_u32(1)?;
        into.put_u16(self.keylen)?;
        into.put_u16(0)?;
        put_words(into, &[208, 100])?;
        into.put(b"\x07TBasket\x01x\x01T")
    }

    fn put_head(&self, into: &mut Bytes) -> Result<(), NoMemory> {
        into.put_u16(3)?;
        into.put_u32(self.buffer_size.cast_unsigned())?;
        into.put_u32(self.entry_size.cast_unsigned())?;
        into.put_u32(self.count.cast_unsigned())?;
        into.put_u32(self.last.cast_unsigned())?;
        into.put_u8(0)
    }

    fn bytes(&self, alloc: Global) -> Result<Bytes, NoMemory> {
        let mut bytes = Bytes::new(alloc);
        self.put_key(&mut bytes)?;
        self.put_head(&mut bytes)?;
        bytes.put(self.entries)?;
        put_words(&mut bytes, self.table)?;
        bytes.put(self.behind)?;
        Ok(bytes)
    }
}

fn are_entries(entries: &Entries, wanted: &[&[u8]]) -> bool {
    for (k, entry) in wanted.iter().enumerate() {
        if entries.entry(k) != Some(*entry) {
            return false;
        }
    }
    entries.count() == wanted.len()
}

fn are_stored(basket: &StoredBasket, wanted: &[&[u8]]) -> bool {
    for (k, entry) in wanted.iter().enumerate() {
        if basket.entry(k) != Some(*entry) {
            return false;
        }
    }
    basket.count() == wanted.len()
}

fn stored(alloc: Global, bytes: &[u8], offsets: bool) -> Result<StoredBasket, BasketFault> {
    match Vec::from_slice(alloc, bytes) {
        Ok(bytes) => StoredBasket::read(alloc, bytes, offsets),
        Err(_) => Err(BasketFault::NoMemory),
    }
}

impl Row {
    fn is_read(&self, alloc: Global, bytes: &[u8]) -> bool {
        match (read_basket(alloc, bytes, self.offsets), self.found) {
            (Ok(entries), Found::Holds(wanted)) => are_entries(&entries, wanted),
            (Err(fault), Found::Breaks(wanted)) => fault == wanted,
            _ => false,
        }
    }

    fn is_stored(&self, alloc: Global, bytes: &[u8]) -> bool {
        match (stored(alloc, bytes, self.offsets), self.found) {
            (Ok(basket), Found::Holds(wanted)) => are_stored(&basket, wanted),
            (Err(fault), Found::Breaks(wanted)) => fault == wanted,
            _ => false,
        }
    }

    fn is_found(&self, alloc: Global) -> bool {
        match self.fields.bytes(alloc) {
            Ok(bytes) => {
                let bytes = bytes.as_slice();
                let there = &bytes[..self.bytes.min(bytes.len())];
                self.is_read(alloc, there) && self.is_stored(alloc, there)
            }
            Err(_) => false,
        }
    }
}

// The first row of which something else is found.
fn found_otherwise(alloc: Global, rows: &'static [Row]) -> Option<&'static str> {
    for row in rows {
        if !row.is_found(alloc) {
            return Some(row.name);
        }
    }
    None
}

// Each fault, and the text that is printed of it.
static TEXTS: [(BasketFault, &str); 4] = [
    (BasketFault::BadLast { place: 52 }, "BadLast 52"),
    (BasketFault::BadOffsets { place: 0 }, "BadOffsets 0"),
    (BasketFault::Compressed, "Compressed"),
    (BasketFault::NoMemory, "NoMemory"),
];

fn is_printed(alloc: Global, fault: BasketFault, wanted: &str) -> bool {
    let mut text = Bytes::new(alloc);
    fault.put_text(&mut text).is_ok() && text.as_slice() == wanted.as_bytes()
}

#[test]
fn prints_faults(rt: HostRuntime) {
    for (fault, text) in &TEXTS {
        assert!(rt; is_printed(rt.alloc(), *fault, text), "{}", text);
    }
}
