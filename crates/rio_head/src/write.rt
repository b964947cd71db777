//! The header and the directory record are written.
ghost use Rattle.std.specs.Prelude.{◌^◌, ◌<◌, ◌≤◌, replicate, if◌then◌else◌};
ghost use Rattle.byteorder.specs.Endian.{big_bytes};
ghost use Rattle.rio_num.specs.Room.{Appends};
ghost use Rattle.rio_head.specs.Form.{place_len};
ghost use Rattle.rio_head.specs.Written.{FitsDir, FitsHead, back_bytes, front_bytes, written_dir, written_head};

use crate::{DirRecord, FileHead};
use rio_num::{Bytes, NoMemory};

// A place in the file, as long as the form has it.
fn put_place(is_large: bool, place: u64, into: &mut Bytes) -> Result<(), NoMemory>
    requires { place < 256 ^ place_len is_large }
    ensures { Appends into.old into.new (big_bytes (place_len is_large) place) result }
{
    if is_large {
        into.put_u64(place)
    } else {
        into.put_u32(place as u32)
    }
}

// The reserved bytes of a directory record.
fn put_reserved(is_large: bool, into: &mut Bytes) -> Result<(), NoMemory>
    ensures { Appends into.old into.new (replicate (if is_large then 0 else 12) 0) result }
{
    if is_large { Ok(()) } else { into.put(&[0; 12]) }
}

// The zero bytes between a header's fields and the first record.
fn put_zeros(is_large: bool, into: &mut Bytes) -> Result<(), NoMemory>
    ensures { Appends into.old into.new (replicate (if is_large then 25 else 37) 0) result }
{
    if is_large {
        into.put(&[0; 25])
    } else {
        into.put(&[0; 37])
    }
}

// The fields of a header before its units, where there is room for them.
fn put_front(head: &FileHead, into: &mut Bytes) -> Result<(), NoMemory>
    requires fits { FitsHead head.now }
    requires room { 100 ≤ into.old.spare }
    ensures { Appends into.old into.new (front_bytes head.now) result }
{
    let is_large = head.version >= 1_000_000;
    into.put(b"root")?;
    into.put_u32(head.version)?;
    into.put_u32(head.begin)?;
    put_place(is_large, head.end, into)?;
    put_place(is_large, head.seek_free, into)?;
    into.put_u32(head.nbytes_free)?;
    into.put_u32(head.nfree)?;
    into.put_u32(head.nbytes_name)
}

// The fields of a header from its units on, where there is room for them.
fn put_back(head: &FileHead, into: &mut Bytes) -> Result<(), NoMemory>
    requires fits { FitsHead head.now }
    requires room { 60 ≤ into.old.spare }
    ensures { Appends into.old into.new (back_bytes head.now) result }
{
    let is_large = head.version >= 1_000_000;
    into.put_u8(head.units)?;
    into.put_u32(head.compress)?;
    put_place(is_large, head.seek_info, into)?;
    into.put_u32(head.nbytes_info)?;
    into.put(&head.uuid)
}

/// Writes a header at the end of some bytes, up to place 100: its places have 8 bytes each from version 1,000,000 on and
/// else 4, which they fit, and zero bytes stand behind its UUID.
pub fn write_head(head: &FileHead, into: &mut Bytes) -> Result<(), NoMemory>
    requires { FitsHead head.now }
    ensures { Appends into.old into.new (written_head head.now) result }
{
    into.reserve(100)?;
    put_front(head, into)?;
    put_back(head, into)?;
    put_zeros(head.version >= 1_000_000, into)
}

/// Writes a directory record at the end of some bytes: the places with 8 bytes each where its version is above 1000 and
/// else with 4, which they fit, and in that form twelve reserved zero bytes behind the UUID.
pub fn write_dir(dir: &DirRecord, into: &mut Bytes) -> Result<(), NoMemory>
    requires { FitsDir dir.now }
    ensures { Appends into.old into.new (written_dir dir.now) result }
{
    let is_large = dir.version > 1000;
    into.reserve(60)?;
    into.put_u16(dir.version)?;
    into.put_u32(dir.created)?;
    into.put_u32(dir.changed)?;
    into.put_u32(dir.nbytes_keys)?;
    into.put_u32(dir.nbytes_name)?;
    put_place(is_large, dir.seek_dir, into)?;
    put_place(is_large, dir.seek_parent, into)?;
    put_place(is_large, dir.seek_keys, into)?;
    into.put(&dir.uuid)?;
    put_reserved(is_large, into)
}
