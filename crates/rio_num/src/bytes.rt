//! Bytes that grow: numbers, texts and printed integers put at their end.
ghost use Rattle.std.specs.Prelude.{◌≡◌, ◌+◌, ◌≤◌, ◌++◌, length, take, drop};
ghost use Rattle.byteorder.specs.Endian.{big_bytes};

use crate::printed::hex_of;
use crate::{NoMemory, padded};
use itoa::Buffer;
use std::alloc::Global;
use std::marker::Model;

// Memory is taken for at least so many bytes at once, where it is taken beforehand.
const FIRST_ROOM: usize = 64;

/// Bytes that grow, and how many more are promised to fit without memory.
#[derive(Debug, Drop)]
pub struct Bytes {
    items: Vec<u8>,
    spare: usize,
}

impl Model for Bytes {
    ghost use Rattle.std.specs.Prelude.{◌+◌, ◌≤◌, vec_len, vec_capacity};
    ghost use Rattle.rio_num.specs.Room.{Room};

    ghost Value = { Room };

    ghost view = { λ b. record { bytes = b.items.items; spare = b.spare } };

    ghost invariant = { λ b. vec_len b.items + b.spare ≤ vec_capacity b.items };
}

impl From<Vec<u8>> for Bytes {
    ghost use Rattle.std.specs.Prelude.{◌≡◌};
    ghost use Rattle.rio_num.specs.Room.{room_of};

    ghost from_gives = { λ items bytes. bytes ≡ room_of items.items };

    /// The bytes of a list, which isn't copied.
    fn from(items: Vec<u8>) -> Bytes {
        Bytes { items, spare: 0 }
    }
}

impl Bytes {
    ghost use Rattle.std.specs.Prelude.{◌≡◌, ◌+◌, ◌<◌, ◌≤◌, ◌^◌, ◌↔◌, [], ◌∷◌, ◌++◌, max, length, slice_get, IsTrue, OnOk, OnErr, IfOk};
    ghost use Rattle.std.specs.Option.{option_copied};
    ghost use Rattle.std.specs.Fmt.{decimal, signed_decimal};
    ghost use Rattle.byteorder.specs.Endian.{big_bytes};
    ghost use Rattle.rio_num.specs.Room.{Appends, room_of, padding};
    ghost use Rattle.rio_num.specs.Printed.{hex_text, numbered, with_number};
    ghost use Rattle.rio_num.specs.Text.{text_bytes};

    /// No bytes.
    pub fn new(alloc: Global) -> Bytes
        ensures { result ≡ room_of [] }
    {
        Bytes {
            items: Vec::new(alloc),
            spare: 0,
        }
    }

    /// These bytes.
    pub fn from_slice(alloc: Global, bytes: &[u8]) -> Result<Bytes, NoMemory>
        ensures { IfOk result (λ b. b ≡ room_of bytes.now) }
    {
        Ok(Bytes {
            items: Vec::from_slice(alloc, bytes)?,
            spare: 0,
        })
    }

    pub fn len(&self) -> usize
        ensures { result ≡ length self.now.bytes }
    {
        self.items.len()
    }

    pub fn is_empty(&self) -> bool
        ensures { IsTrue result ↔ (self.now.bytes ≡ []) }
    {
        self.items.is_empty()
    }

    /// The byte at `k`, counted from 0.
    pub fn get(&self, k: usize) -> Option<&u8>
        ensures { option_copied result ≡ slice_get self.now.bytes k }
    {
        self.items.get(k)
    }

    pub fn as_slice(&self) -> &[u8]
        ensures { result.now ≡ self.now.bytes }
    {
        self.items.as_slice()
    }

    /// Takes all bytes away. Their memory is kept.
    pub fn clear(&mut self)
        ensures { self.new ≡ room_of [] }
    {
        self.items.clear();
        self.spare = 0;
    }

    /// Where the bytes take their memory from.
    pub fn allocator(&self) -> Global {
        *self.items.allocator()
    }

    /// Equal bytes, with as many spare.
    pub fn copy(&self) -> Result<Bytes, NoMemory>
        ensures { IfOk result (λ b. b ≡ self.now) }
    {
        let alloc = *self.items.allocator();
        let mut items = Vec::with_capacity(alloc, self.items.len() + self.spare)?;
        items.extend_from_slice(&self.items)?;
        Ok(Bytes {
            items,
            spare: self.spare,
        })
    }

    /// Makes `n` bytes spare: puts and pushes that fit in them find memory.
    pub fn reserve(&mut self, n: u64) -> Result<(), NoMemory>
        ensures ok { OnOk result (self.new ≡ record self.old { spare = max self.old.spare n }) }
        ensures err { OnErr result ((self.new ≡ self.old) × (self.old.spare < n)) }
    {
        if self.spare as u64 >= n {
            return Ok(());
        }
        let room = self.items.capacity() - self.items.len();
        if (room as u64) < n {
            self.items.reserve((n as usize).max(FIRST_ROOM))?;
        }
        self.spare = n as usize;
        Ok(())
    }

    // The same for a number that may be above every memory's.
    pub(crate) fn reserve_wide(&mut self, n: u128) -> Result<(), NoMemory>
        ensures ok { OnOk result (self.new ≡ record self.old { spare = max self.old.spare n }) }
        ensures err { OnErr result ((self.new ≡ self.old) × (self.old.spare < n)) }
    {
        if n <= self.spare as u128 {
            return Ok(());
        }
        if n > u128::from(u64::MAX) {
            return Err(NoMemory);
        }
        self.reserve(n as u64)
    }

    /// Puts a byte at the end.
    pub fn push(&mut self, item: u8) -> Result<(), NoMemory>
        ensures { Appends self.old self.new (item ∷ []) result }
    {
        self.items.push(item)?;
        self.spare = self.spare.saturating_sub(1);
        Ok(())
    }

    /// Puts these bytes at the end.
    pub fn put(&mut self, more: &[u8]) -> Result<(), NoMemory>
        ensures { Appends self.old self.new more.now result }
    {
        self.items.extend_from_slice(more)?;
        self.spare = self.spare.saturating_sub(more.len());
        Ok(())
    }

    // Puts the one and then the other at the end.
    fn put_both(&mut self, one: &[u8], other: &[u8]) -> Result<(), NoMemory>
        requires { length one.now + length other.now < 2 ^ 63 }
        ensures { Appends self.old self.new (one.now ++ other.now) result }
    {
        self.items.reserve(one.len() + other.len())?;
        self.items.extend_from_slice(one)?;
        self.items.extend_from_slice(other)?;
        self.spare = self.spare.saturating_sub(one.len() + other.len());
        Ok(())
    }

    pub fn put_u8(&mut self, v: u8) -> Result<(), NoMemory>
        ensures { Appends self.old self.new (big_bytes 1 v) result }
    {
        self.put(&v.to_be_bytes())
    }

    pub fn put_u16(&mut self, v: u16) -> Result<(), NoMemory>
        ensures { Appends self.old self.new (big_bytes 2 v) result }
    {
        self.put(&v.to_be_bytes())
    }

    pub fn put_u32(&mut self, v: u32) -> Result<(), NoMemory>
        ensures { Appends self.old self.new (big_bytes 4 v) result }
    {
        self.put(&v.to_be_bytes())
    }

    pub fn put_u64(&mut self, v: u64) -> Result<(), NoMemory>
        ensures { Appends self.old self.new (big_bytes 8 v) result }
    {
        self.put(&v.to_be_bytes())
    }

    /// Puts a text at the end: its length, and its bytes.
    pub fn put_text(&mut self, t: &[u8]) -> Result<(), NoMemory>
        requires { length t.now < 2 ^ 32 }
        ensures { Appends self.old self.new (text_bytes t.now) result }
    {
        if t.len() < 255 {
            self.put_both(&[t.len() as u8], t)
        } else {
            let [a, b, c, d] = (t.len() as u32).to_be_bytes();
            self.put_both(&[255, a, b, c, d], t)
        }
    }

    /// Puts a number at the end in decimal digits.
    pub fn put_decimal(&mut self, v: u64) -> Result<(), NoMemory>
        ensures { Appends self.old self.new (decimal v) result }
    {
        self.put(Buffer::new().format(v).as_bytes())
    }

    /// Puts a blank and a number at the end.
    pub fn put_numbered(&mut self, v: u64) -> Result<(), NoMemory>
        ensures { OnOk result (self.new.bytes ≡ self.old.bytes ++ numbered v) }
    {
        self.put(b" ")?;
        self.put_decimal(v)
    }

    /// Puts a word at the end, a blank and a number.
    pub fn put_with_number(&mut self, word: &[u8], v: u64) -> Result<(), NoMemory>
        ensures { OnOk result (self.new.bytes ≡ self.old.bytes ++ with_number word.now v) }
    {
        self.put(word)?;
        self.put_numbered(v)
    }

    /// Puts an integer at the end in decimal digits, behind a `-` where it is negative.
    pub fn put_integer(&mut self, v: i128) -> Result<(), NoMemory>
        ensures { Appends self.old self.new (signed_decimal v) result }
    {
        self.put(Buffer::new().format(v).as_bytes())
    }

    /// Puts the bits of a number at the end: 8 hexadecimal digits, in lower case.
    pub fn put_hex8(&mut self, v: u32) -> Result<(), NoMemory>
        ensures { Appends self.old self.new (hex_text (big_bytes 4 v)) result }
    {
        self.put(&hex_of(v.to_be_bytes()))
    }

    /// Puts the bits of a number at the end: 16 hexadecimal digits, in lower case.
    pub fn put_hex16(&mut self, v: u64) -> Result<(), NoMemory>
        ensures { Appends self.old self.new (hex_text (big_bytes 8 v)) result }
    {
        let [a, b, c, d, e, f, g, h] = v.to_be_bytes();
        self.put_both(&hex_of([a, b, c, d]), &hex_of([e, f, g, h]))
    }

    /// Puts zero bytes at the end, up to a length that is a multiple of four.
    pub fn pad4(&mut self) -> Result<(), NoMemory>
        ensures { Appends self.old self.new (padding self.old.bytes) result }
    {
        let len = self.items.len() as u64;
        let zeros = padded(len) - len;
        self.put(&[0; 3][..zeros as usize])
    }

    /// Writes a number over the four bytes at `place`.
    pub fn patch_u32(&mut self, place: usize, v: u32)
        requires { place + 4 ≤ length self.old.bytes }
        ensures { self.new ≡ record self.old {
          bytes = take place self.old.bytes ++ (big_bytes 4 v ++ drop (place + 4) self.old.bytes);
        } }
    {
        patch_u32(&mut self.items, place, v);
    }
}

/// Writes a number over the four bytes at `place`.
pub fn patch_u32(bytes: &mut [u8], place: usize, v: u32)
    requires { place + 4 ≤ length bytes.old }
    ensures { bytes.new ≡ take place bytes.old ++ (big_bytes 4 v ++ drop (place + 4) bytes.old) }
{
    bytes[place..place + 4].copy_from_slice(&v.to_be_bytes());
}
