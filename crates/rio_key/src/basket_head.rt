//! What the key of a basket has behind its title.
ghost use Rattle.std.specs.Prelude.{◌≡◌, ◌+◌, ◌<◌, ◌≤◌, ◌^◌, ◌++◌, ℕ, List, length, take, Ok, IfErr, IfOk, OnOk, OnErr};
ghost use Rattle.rio_num.specs.Answers.{GivesUnless};
ghost use Rattle.rio_num.specs.Room.{with_more};
ghost use Rattle.rio_key.specs.{BasketFront.{basket_front, number_within}, BasketHead.{AreInRange, BreaksBasketHead, basket_head_at, basket_head_bytes, basket_head_of, integer_bytes, sizes_bytes}};
ghost use Rattle.rio_num.specs.Meanings.{read};
ghost use Rattle.rio_num.specs.Plain.{plain, value_of};
ghost use Rattle.rio_key.specs.{declared.fault.KeyFault.TheVariants.{NoMemory as OutOfMemory}, declared.basket_head.BasketHead.{BasketHead as Head}};

use crate::read::take_key;
use crate::{KeyFault, KeyHead};
use rio_num::{Bytes, Cursor, NoMemory, Short};
use std::alloc::Global;

/// What the key of a basket has behind its title (TBasket in ROOT).
#[derive(Clone, Copy, Debug, PartialEq, Eq)]
pub struct BasketHead {
    pub version: u16,
    /// The length of the buffer that the basket was filled in.
    pub buffer_size: i32,
    /// The length of an entry where all have the same length, else the number of entries or more.
    pub nev_size: i32,
    /// The number of entries.
    pub nev: i32,
    /// Where the last entry ends, counted from the key's first byte.
    pub last: i32,
    pub flag: u8,
}

#[tactic(auto, unfolding(crate::specs::BasketHead::basket_head_of))]
fn take_basket_head(cursor: &mut Cursor) -> Result<BasketHead, Short>
    ensures { result ≡ value_of (basket_head_at cursor.old) }
{
    Ok(BasketHead {
        version: cursor.take_u16()?,
        buffer_size: cursor.take_u32()?.cast_signed(),
        nev_size: cursor.take_u32()?.cast_signed(),
        nev: cursor.take_u32()?.cast_signed(),
        last: cursor.take_u32()?.cast_signed(),
        flag: cursor.take_u8()?,
    })
}

/// The head of a basket that these bytes begin with, the first of which has the place `place`. Short comes at the first
/// field that isn't whole.
pub fn read_basket_head(bytes: &[u8], place: u64) -> Result<BasketHead, Short>
    requires { place + length bytes.now < 2 ^ 64 }
    ensures exact { result
        ≡ value_of (basket_head_at (record { place = place; rest = bytes.now })) }
    ensures broken { IfErr result (λ fault.
        BreaksBasketHead (record { place = place; rest = bytes.now }) fault) }
    ensures found { IfOk result (λ head.
        (rest : List ℕ) × (bytes.now ≡ basket_head_bytes head ++ rest)) }
    ensures only { (head : Head) (rest : List ℕ) → AreInRange head
        → bytes.now ≡ basket_head_bytes head ++ rest → result ≡ Ok head }
{
    take_basket_head(&mut Cursor::new(bytes, place))
}

/// The key of a basket with the basket's head.
#[derive(Debug, PartialEq, Drop)]
pub struct BasketFront {
    pub key: KeyHead,
    pub head: BasketHead,
    /// The place of the head, behind the key's title.
    pub place: u64,
}

// The front of some bytes, as long as they are.
fn front(bytes: &[u8], n: u64) -> &[u8]
    ensures { result.now ≡ take n bytes.now }
{
    if n < bytes.len() as u64 {
        &bytes[..n as usize]
    } else {
        bytes
    }
}

// Reads no more than the next `n` bytes.
fn within<'a>(cursor: &Cursor<'a>, n: u64) -> Cursor<'a>
    ensures { result
        ≡ record { place = cursor.now.place; rest = take n cursor.now.rest } }
{
    let left = cursor.left();
    Cursor::new(front(cursor.rest(), n.min(left)), cursor.place())
}

// The head of a basket within the next `n` bytes.
fn head_within(cursor: &Cursor, n: u64) -> Result<BasketHead, KeyFault>
    ensures { result ≡ value_of
        (read (basket_head_of (number_within (cursor.now.place + n))) (plain cursor.now)) }
{
    match take_basket_head(&mut within(cursor, n)) {
        Ok(head) => Ok(head),
        Err(short) => Err(KeyFault::from(short)),
    }
}

/// The key of a basket and the basket's head that these bytes begin with, the first of which has the place `base`. The
/// head stands behind the title and ends within KeyLen, else it is Short at the first field that isn't whole there.
#[tactic(auto, unfolding(crate::specs::BasketFront::basket_front))]
pub fn read_basket_front(alloc: Global, bytes: &[u8], base: u64) -> Result<BasketFront, KeyFault>
    requires { base + length bytes.now < 2 ^ 64 }
    ensures exact { GivesUnless OutOfMemory (λ front. front) result
        (value_of (read basket_front (plain (record { place = base; rest = bytes.now })))) }
    ensures within { IfOk result (λ front. front.place ≤ base + length bytes.now) }
{
    let mut cursor = Cursor::new(bytes, base);
    let key = take_key(alloc, &mut cursor)?;
    let place = cursor.place();
    let left = u64::from(key.keylen).saturating_sub(place.saturating_sub(base));
    let head = head_within(&cursor, left)?;
    Ok(BasketFront { key, head, place })
}

#[tactic(auto, unfolding(crate::specs::BasketHead::integer_bytes))]
fn put_i32(number: i32, into: &mut Bytes) -> Result<(), NoMemory>
    ensures { OnOk result (into.new.bytes ≡ into.old.bytes ++ integer_bytes number) }
{
    into.put_u32(number.cast_unsigned())
}

#[tactic(auto, unfolding(crate::specs::BasketHead::sizes_bytes))]
fn put_sizes(head: &BasketHead, into: &mut Bytes) -> Result<(), NoMemory>
    ensures { OnOk result (into.new.bytes ≡ into.old.bytes ++ sizes_bytes head.now) }
{
    put_i32(head.buffer_size, into)?;
    put_i32(head.nev_size, into)?;
    put_i32(head.nev, into)?;
    put_i32(head.last, into)
}

fn put_basket_head(head: &BasketHead, into: &mut Bytes) -> Result<(), NoMemory>
    ensures { OnOk result (into.new.bytes ≡ into.old.bytes ++ basket_head_bytes head.now) }
{
    into.put_u16(head.version)?;
    put_sizes(head, into)?;
    into.put_u8(head.flag)
}

/// Puts the head of a basket at the end, as `read_basket_head` reads it. Without memory nothing is put.
pub fn write_basket_head(head: &BasketHead, into: &mut Bytes) -> Result<(), NoMemory>
    ensures ok { OnOk result (into.new ≡ with_more into.old (basket_head_bytes head.now)) }
    ensures err { OnErr result (into.new ≡ into.old) }
{
    let mut bytes = Bytes::new(into.allocator());
    put_basket_head(head, &mut bytes)?;
    into.put(bytes.as_slice())
}
