//! Numbers and texts read from the front of some bytes.
ghost use Rattle.std.specs.Prelude.{◌≡◌, ◌≤◌, ◌<◌, ◌^◌, drop, length};
ghost use Rattle.rio_num.specs.Reading.{text_head};
ghost use Rattle.rio_num.specs.Text.{text_bytes};

use byteorder::{BigEndian, ByteOrder};
use std::marker::Model;
use thiserror::Error;

/// Fewer than `wanted` bytes are left at `place`.
#[derive(Clone, Copy, Debug, PartialEq, Eq, Error)]
#[error("fewer than {wanted} bytes are left at {place}")]
pub struct Short {
    pub place: u64,
    pub wanted: u64,
}

/// Where reading stands in some bytes. Numbers are read with their highest byte first.
#[derive(Drop)]
pub struct Cursor<'a> {
    rest: &'a [u8],
    place: u64,
}

impl<'a> Model for Cursor<'a> {
    ghost use Rattle.std.specs.Prelude.{◌+◌, ◌<◌, ◌^◌, length};
    ghost use Rattle.rio_num.specs.At.{AreBytes, At};

    ghost Value = { At };

    ghost view = { λ c. record { place = c.place; rest = c.rest.now } };

    ghost invariant = { λ c. (c.place + length c.rest.now < 2 ^ 64) × AreBytes c.rest.now };
}

impl<'a> Cursor<'a> {
    ghost use Rattle.std.specs.Prelude.{◌≡◌, ◌+◌, ◌<◌, ◌^◌, length};
    ghost use Rattle.rio_num.specs.At.{AreBytes, GoesOn, standing_at};
    ghost use Rattle.rio_num.specs.Reading.{Takes, bytes_at, number_at, text_at, skip_at};

    /// Reads from the first of the bytes on, which has the place `base`.
    pub fn new(bytes: &'a [u8], base: u64) -> Cursor<'a>
        requires { base + length bytes.now < 2 ^ 64 }
        ensures { result ≡ record { place = base; rest = bytes.now } }
    {
        Cursor {
            rest: bytes,
            place: base,
        }
    }

    /// Reads from `place` on in bytes whose first has the place `base`. Outside them nothing is left.
    pub fn at(bytes: &'a [u8], base: u64, place: u64) -> Cursor<'a>
        requires { base + length bytes.now < 2 ^ 64 }
        ensures { result ≡ standing_at base place bytes.now }
    {
        if place < base {
            Cursor { rest: &[], place }
        } else {
            Cursor {
                rest: bytes_from(bytes, (place - base) as usize),
                place,
            }
        }
    }

    /// The place of the next byte.
    pub fn place(&self) -> u64
        ensures value { result ≡ self.now.place }
        ensures bytes { AreBytes self.now.rest }
    {
        self.place
    }

    /// How many bytes are left.
    pub fn left(&self) -> u64
        ensures value { result ≡ length self.now.rest }
        ensures fits { self.now.place + length self.now.rest < 2 ^ 64 }
    {
        self.rest.len() as u64
    }

    /// The bytes that are left.
    pub fn rest(&self) -> &'a [u8]
        ensures { result.now ≡ self.now.rest }
    {
        self.rest
    }

    /// The next `n` bytes.
    pub fn take(&mut self, n: u64) -> Result<&'a [u8], Short>
        ensures exact { Takes (λ t. t.now) result (bytes_at n self.old) self.old self.new }
        ensures goes { GoesOn self.old self.new }
    {
        if (self.rest.len() as u64) < n {
            return Err(Short {
                place: self.place,
                wanted: n,
            });
        }
        let (front, rest) = self.rest.split_at(n as usize);
        self.rest = rest;
        self.place += n;
        Ok(front)
    }

    pub fn take_u8(&mut self) -> Result<u8, Short>
        ensures exact { Takes (λ x. x) result (number_at 1 self.old) self.old self.new }
        ensures goes { GoesOn self.old self.new }
    {
        let front = self.take(1)?;
        Ok(front[0])
    }

    pub fn take_u16(&mut self) -> Result<u16, Short>
        ensures exact { Takes (λ x. x) result (number_at 2 self.old) self.old self.new }
        ensures goes { GoesOn self.old self.new }
    {
        let front = self.take(2)?;
        Ok(BigEndian::read_u16(front))
    }

    pub fn take_u32(&mut self) -> Result<u32, Short>
        ensures exact { Takes (λ x. x) result (number_at 4 self.old) self.old self.new }
        ensures goes { GoesOn self.old self.new }
    {
        let front = self.take(4)?;
        Ok(BigEndian::read_u32(front))
    }

    pub fn take_u64(&mut self) -> Result<u64, Short>
        ensures exact { Takes (λ x. x) result (number_at 8 self.old) self.old self.new }
        ensures goes { GoesOn self.old self.new }
    {
        let front = self.take(8)?;
        Ok(BigEndian::read_u64(front))
    }

    /// Passes over the next `n` bytes.
    pub fn skip(&mut self, n: u64) -> Result<(), Short>
        ensures exact { Takes (λ _. tt) result (skip_at n self.old) self.old self.new }
        ensures goes { GoesOn self.old self.new }
    {
        self.take(n)?;
        Ok(())
    }

    /// The next text, which lives as long as the bytes.
    #[tactic(auto, unfolding(crate::specs::Reading::text_at))]
    pub fn take_text(&mut self) -> Result<&'a [u8], Short>
        ensures exact { Takes (λ t. t.now) result (text_at self.old) self.old self.new }
        ensures goes { GoesOn self.old self.new }
    {
        let (before, own) = text_lengths(self.rest);
        let text = self.take(before + own)?;
        Ok(&text[before as usize..])
    }
}

/// The bytes from the one at `n` on: none where they end before.
pub fn bytes_from(bytes: &[u8], n: usize) -> &[u8]
    ensures { result.now ≡ drop n bytes.now }
{
    if n < bytes.len() { &bytes[n..] } else { &[] }
}

/// How many bytes a text has in a file: those of its length, and its own.
pub fn text_length(text: &[u8]) -> u64
    ensures { result ≡ length (text_bytes text.now) }
{
    let own = text.len() as u64;
    if own < 255 { own + 1 } else { own + 5 }
}

// How many bytes stand before a text's own, and how many its own are.
fn text_lengths(bytes: &[u8]) -> (u64, u64)
    ensures value { result ≡ text_head bytes.now }
    ensures before { result.0 ≤ 5 }
    ensures own { result.1 < 2 ^ 32 }
{
    match bytes {
        [] => (1, 0),
        [255, rest @ ..] => {
            if rest.len() < 4 {
                (5, 0)
            } else {
                (5, u64::from(BigEndian::read_u32(rest)))
            }
        }
        [first, ..] => (1, u64::from(*first)),
    }
}
