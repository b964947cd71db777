//! The key list is written.
ghost use Rattle.std.specs.Prelude.{◌≡◌, ◌<◌, ◌≤◌, ◌^◌, length, IfSome, OnErr, OnOk};
ghost use Rattle.std.specs.List.{All, flat_map};
ghost use Rattle.rio_num.specs.Room.{Appends, with_more};
ghost use Rattle.rio_key.specs.Written.{FitsKey, written_key};
ghost use Rattle.rio_dir.specs.Table.{heads_size, key_list_bytes};

use crate::KeyTable;
use rio_key::{KeyHead, key_length, write_key};
use rio_num::{Boxed, Bytes, NoMemory};

// How many bytes are written of some heads, where that is a number of 64 bits.
fn checked_length(heads: &[Boxed<KeyHead>]) -> Option<u64>
    requires { All FitsKey heads.now }
    ensures { IfSome result (λ size. size ≡ heads_size heads.now) }
{
    let mut size: u64 = 0;
    for head in heads {
        size = size.checked_add(key_length(head.get()))?;
    }
    Some(size)
}

// Puts heads where there is room for them.
fn put_heads(heads: &[Boxed<KeyHead>], into: &mut Bytes) -> Result<(), NoMemory>
    requires fit { All FitsKey heads.now }
    requires room { heads_size heads.now ≤ into.old.spare }
    ensures { Appends into.old into.new (flat_map written_key heads.now) result }
{
    for head in heads {
        write_key(head.get(), into)?;
    }
    Ok(())
}

/// Writes the data of the key list at the end of some bytes: how many keys there are, and their heads in order. Their
/// number fits four bytes, and each head what is written of it.
pub fn write_key_list(table: &KeyTable, into: &mut Bytes) -> Result<(), NoMemory>
    requires fit { All FitsKey table.now.heads }
    requires count { length table.now.heads < 2 ^ 32 }
    ensures ok { OnOk result (into.new ≡ with_more into.old (key_list_bytes table.now.heads)) }
    ensures err { OnErr result (into.new ≡ into.old) }
{
    let heads = table.as_slice();
    let Some(size) = checked_length(heads) else {
        return Err(NoMemory);
    };
    let Some(whole) = size.checked_add(4) else {
        return Err(NoMemory);
    };
    into.reserve(whole)?;
    into.put_u32(heads.len() as u32)?;
    put_heads(heads, into)
}
