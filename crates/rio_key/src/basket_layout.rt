//! How the entries of a basket are laid out in its bytes.
ghost use Rattle.std.specs.Prelude.{◌≡◌, ◌+◌, ◌<◌, ◌^◌, length, Ok, IfOk};
ghost use Rattle.rio_num.specs.Answers.{GivesUnless};
ghost use Rattle.rio_key.specs.{LaidBasket.{IsLayoutWithin}, StoredLayout.{ends_within, has_negative, has_one_length, is_multiple, is_sound, layout_by, layout_in, layout_of}};
ghost use Rattle.rio_key.specs.declared.basket_fault.BasketFault.TheVariants.{NoMemory as OutOfMemory};

use crate::{BasketFault, BasketFront, BasketHead, KeyFault, read_basket_front};
use std::alloc::Global;

/// Where the data of the entries begin and end, and where the record ends, counted from its first byte, and how many
/// entries there are.
#[derive(Clone, Copy)]
pub(crate) struct Layout {
    pub(crate) first: u32,
    pub(crate) last: u32,
    pub(crate) end: u32,
    pub(crate) count: u32,
}

fn is_multiple(n: u32, of: u32) -> bool
    ensures { result ≡ is_multiple n of }
{
    if of == 0 { n == 0 } else { n % of == 0 }
}

fn has_negative(head: &BasketHead) -> bool
    ensures { result ≡ has_negative head.now }
{
    head.buffer_size < 0 || head.nev_size < 0 || head.nev < 0
}

fn ends_within(front: &BasketFront) -> bool
    ensures { result ≡ ends_within front.now }
{
    i32::from(front.key.keylen) <= front.head.last && front.head.last <= front.key.nbytes
}

fn has_one_length(front: &BasketFront) -> bool
    ensures { result ≡ has_one_length front.now }
{
    let length = front
        .head
        .last
        .unsigned_abs()
        .saturating_sub(u32::from(front.key.keylen));
    is_multiple(length, front.head.nev.unsigned_abs())
}

fn is_sound(offsets: bool, front: &BasketFront) -> bool
    ensures { result ≡ is_sound offsets front.now }
{
    !has_negative(&front.head) && ends_within(front) && (offsets || has_one_length(front))
}

fn layout_of(front: &BasketFront) -> Layout
    ensures { result ≡ layout_of front.now }
{
    Layout {
        first: u32::from(front.key.keylen),
        last: front.head.last.unsigned_abs(),
        end: front.key.nbytes.unsigned_abs(),
        count: front.head.nev.unsigned_abs(),
    }
}

fn layout_by(offsets: bool, bytes: &[u8], front: &BasketFront) -> Result<Layout, BasketFault>
    requires { front.now.place < 2 ^ 63 }
    ensures { result ≡ layout_by offsets (length bytes.now) (Ok front.now) }
{
    if bytes.len() < front.key.nbytes.unsigned_abs() as usize {
        Err(BasketFault::BadLast { place: 0 })
    } else if front.key.is_compressed() {
        Err(BasketFault::Compressed)
    } else if !is_sound(offsets, front) {
        Err(BasketFault::BadLast {
            place: front.place + 14,
        })
    } else {
        Ok(layout_of(front))
    }
}

/// What the key and the head of a basket say, which these bytes begin with, or their first fault.
pub(crate) fn read_layout(alloc: Global, bytes: &[u8], offsets: bool) -> Result<Layout, BasketFault>
    ensures exact { GivesUnless OutOfMemory (λ x. x) result (layout_in offsets bytes.now) }
    ensures within { IfOk result (λ layout. IsLayoutWithin layout bytes.now) }
{
    match read_basket_front(alloc, bytes, 0) {
        Ok(front) => layout_by(offsets, bytes, &front),
        Err(KeyFault::NoMemory) => Err(BasketFault::NoMemory),
        Err(_) => Err(BasketFault::BadLast { place: 0 }),
    }
}
