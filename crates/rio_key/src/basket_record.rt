//! The parts of a basket's record.
ghost use Rattle.std.specs.Prelude.{◌≡◌, ℕ, ◌+◌, ◌<◌, ◌^◌, length, slice_index, IfOk, OnOk};
ghost use Rattle.std.specs.List.{flat_map};
ghost use Rattle.byteorder.specs.Endian.{big_bytes};
ghost use Rattle.rio_num.specs.Room.{with_more};
ghost use Rattle.rio_key.specs.{Written.{padded_size}, BasketRecord.{basket_key, basket_key_length}};

use crate::{FIRST_PLACE, KeyHead, key_length};
use rio_num::{Bytes, Name, NoMemory, padded};
use std::alloc::Global;

/// How many bytes of a basket's key stand behind its title.
const HEAD_LENGTH: u64 = 19;

/// The key of a basket's record at a place, with `n` bytes of data before the zero bytes.
pub(crate) fn key_of(
    alloc: Global,
    place: u64,
    tree: &[u8],
    branch: &[u8],
    datime: u32,
    n: u64,
) -> Result<KeyHead, NoMemory>
    requires key { basket_key_length tree.now branch.now < 2 ^ 16 }
    requires whole { let keylen = basket_key_length tree.now branch.now in
        keylen + padded_size keylen n < 2 ^ 31 }
    ensures { IfOk result (λ key. key ≡ basket_key place tree.now branch.now datime n) }
{
    let mut key = KeyHead {
        nbytes: 0,
        version: 4,
        objlen: 0,
        datime,
        keylen: 0,
        cycle: 0,
        seek: place,
        pdir: FIRST_PLACE,
        class: Name::from_slice(alloc, b"TBasket")?,
        name: Name::from_slice(alloc, branch)?,
        title: Name::from_slice(alloc, tree)?,
    };
    let keylen = key_length(&key) + HEAD_LENGTH;
    let objlen = padded(keylen + n) - keylen;
    key.nbytes = (keylen + objlen) as i32;
    key.objlen = objlen as u32;
    key.keylen = keylen as u16;
    Ok(key)
}

/// Puts where each entry ends, counted from the key's first byte.
pub(crate) fn put_ends(keylen: u32, ends: &[usize], into: &mut Bytes) -> Result<(), NoMemory>
    requires { (k : ℕ) → k < length ends.now → keylen + slice_index ends.now k < 2 ^ 32 }
    ensures { OnOk result (into.new
        ≡ with_more into.old (flat_map (λ end. big_bytes 4 (keylen + end)) ends.now)) }
{
    for end in ends {
        into.put_u32(keylen + *end as u32)?;
    }
    Ok(())
}
