//! A key is written.
ghost use Rattle.std.specs.Prelude.{◌≡◌, ◌^◌, ◌<◌, ◌≤◌, length};
ghost use Rattle.std.specs.Int.{w32, cast_unsigned};
ghost use Rattle.byteorder.specs.Endian.{big_bytes};
ghost use Rattle.rio_num.specs.Room.{Appends};
ghost use Rattle.rio_num.specs.At.{place_len_of};
ghost use Rattle.rio_key.specs.Written.{FitsKey, key_length_of, number_bytes, written_key};

use crate::KeyHead;
use rio_num::{Bytes, NoMemory, text_length};

// A place in the file, as long as keys of this version have it.
fn put_place(version: u16, place: u64, into: &mut Bytes) -> Result<(), NoMemory>
    requires { place < 256 ^ place_len_of version }
    ensures { Appends into.old into.new (big_bytes (place_len_of version) place) result }
{
    if version > 1000 {
        into.put_u64(place)
    } else {
        into.put_u32(place as u32)
    }
}

/// How long a key of the small form is that has this class, name and title, up to its title's end.
pub fn key_length_of(class: &[u8], name: &[u8], title: &[u8]) -> u128
    ensures { result ≡ key_length_of class.now name.now title.now }
{
    26 + u128::from(text_length(class))
        + u128::from(text_length(name))
        + u128::from(text_length(title))
}

/// How many bytes a key takes that is written, up to its title's end: a number that fits 64 bits.
pub fn key_length(head: &KeyHead) -> u64
    requires { length (written_key head.now) < 2 ^ 64 }
    ensures { result ≡ length (written_key head.now) }
{
    let small = key_length_of(
        head.class.as_slice(),
        head.name.as_slice(),
        head.title.as_slice(),
    );
    // Each of two places takes four bytes more in the large form.
    if head.version > 1000 {
        small as u64 + 8
    } else {
        small as u64
    }
}

// The numbers of a key, where there is room for them.
fn put_numbers(head: &KeyHead, into: &mut Bytes) -> Result<(), NoMemory>
    requires fits { FitsKey head.now }
    requires room { length (written_key head.now) ≤ into.old.spare }
    ensures { Appends into.old into.new
        (number_bytes head.now (cast_unsigned w32 head.now.nbytes)) result }
{
    into.put_u32(head.nbytes.cast_unsigned())?;
    into.put_u16(head.version)?;
    into.put_u32(head.objlen)?;
    into.put_u32(head.datime)?;
    into.put_u16(head.keylen)?;
    into.put_u16(head.cycle)?;
    put_place(head.version, head.seek, into)?;
    put_place(head.version, head.pdir, into)
}

/// Writes a key at the end of some bytes, from its first byte to its title's end: its numbers, the places with 8 bytes
/// each where its version is above 1000 and else with 4, and its class, its name and its title. Each text's length fits four bytes and
/// each place its field.
pub fn write_key(head: &KeyHead, into: &mut Bytes) -> Result<(), NoMemory>
    requires { FitsKey head.now }
    ensures { Appends into.old into.new (written_key head.now) result }
{
    into.reserve(key_length(head))?;
    put_numbers(head, into)?;
    into.put_text(head.class.as_slice())?;
    into.put_text(head.name.as_slice())?;
    into.put_text(head.title.as_slice())
}
