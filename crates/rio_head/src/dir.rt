//! The directory record is read.
ghost use Rattle.std.specs.Prelude.{◌≡◌, ◌+◌, ◌<◌, ◌^◌, length, IfErr, IfOk};
ghost use Rattle.rio_head.specs.Dir.{BeginsAsDir, BreaksDir, dir_at};
ghost use Rattle.rio_head.specs.declared.dir.DirRecord.{DirRecord as Directory};

use crate::take::{take_place, take_uuid};
use rio_num::{Cursor, Short};

/// The record of a directory.
#[derive(Clone, Copy, Debug, PartialEq, Eq)]
pub struct DirRecord {
    /// Above 1000 the three places take 8 bytes each, else 4.
    pub version: u16,
    pub created: u32,
    pub changed: u32,
    /// The length of the key list's record in bytes.
    pub nbytes_keys: u32,
    /// How many bytes the directory's record has before this one.
    pub nbytes_name: u32,
    /// The place of the directory's record.
    pub seek_dir: u64,
    /// The place of the record of the directory that it is in, or 0.
    pub seek_parent: u64,
    /// The place of the key list's record, or 0 where there is none.
    pub seek_keys: u64,
    pub uuid: [u8; 18],
}

// The record of a directory, up to its UUID.
#[tactic(auto, unfolding(crate::specs::Dir::dir_layout))]
fn take_dir(cursor: &mut Cursor) -> Result<DirRecord, Short>
    ensures { result ≡ dir_at cursor.old }
{
    let version = cursor.take_u16()?;
    let is_large = version > 1000;
    Ok(DirRecord {
        version,
        created: cursor.take_u32()?,
        changed: cursor.take_u32()?,
        nbytes_keys: cursor.take_u32()?,
        nbytes_name: cursor.take_u32()?,
        seek_dir: take_place(cursor, is_large)?,
        seek_parent: take_place(cursor, is_large)?,
        seek_keys: take_place(cursor, is_large)?,
        uuid: take_uuid(cursor)?,
    })
}

/// The directory record that these bytes begin with, the first of which has the place `place`. Short
/// comes at the first field that isn't whole; what stands behind the UUID isn't looked at.
pub fn read_dir(bytes: &[u8], place: u64) -> Result<DirRecord, Short>
    requires { place + length bytes.now < 2 ^ 64 }
    ensures exact { result ≡ dir_at (record { place = place; rest = bytes.now }) }
    ensures found { IfOk result (λ dir. BeginsAsDir dir bytes.now) }
    ensures broken { IfErr result (λ fault.
        BreaksDir (record { place = place; rest = bytes.now }) fault) }
    ensures only { (dir : Directory) → BeginsAsDir dir bytes.now → result ≡ Ok dir }
{
    take_dir(&mut Cursor::new(bytes, place))
}
