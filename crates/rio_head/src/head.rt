//! The file header is read.
ghost use Rattle.std.specs.Prelude.{◌≡◌, IfErr, IfOk};
ghost use Rattle.rio_num.specs.Meanings.{read};
ghost use Rattle.rio_num.specs.Plain.{plain, value_of};
ghost use Rattle.rio_head.specs.Form.{place_len};
ghost use Rattle.rio_head.specs.Head.{BeginsAsHead, BreaksHead, IsHeaderKind, behind_layout, head_at, header_at, units_place_of};
ghost use Rattle.rio_head.specs.declared.head.FileHead.{FileHead as Header};

use crate::take::{take_place, take_uuid};
use crate::{FileFault, HeadFault};
use rio_num::Cursor;

/// The header of a file.
#[derive(Clone, Copy, Debug, PartialEq, Eq)]
pub struct FileHead {
    /// From 1,000,000 on the header has the large form.
    pub version: u32,
    /// The place of the first record.
    pub begin: u32,
    /// The place where the file ends.
    pub end: u64,
    /// The place of the free record.
    pub seek_free: u64,
    /// The length of the free record in bytes.
    pub nbytes_free: u32,
    /// How many entries the free record has.
    pub nfree: u32,
    /// How many bytes the first record has before the directory's.
    pub nbytes_name: u32,
    /// How many bytes a place takes.
    pub units: u8,
    pub compress: u32,
    /// The place of the record of the class list, or 0.
    pub seek_info: u64,
    /// The length of the record of the class list in bytes, or 0.
    pub nbytes_info: u32,
    pub uuid: [u8; 18],
}

// Where the field stands that says how long places are.
fn units_place(is_large: bool) -> u64
    ensures { result ≡ units_place_of is_large }
{
    if is_large { 40 } else { 32 }
}

// How long places are.
fn units_of(is_large: bool) -> u8
    ensures { result ≡ place_len is_large }
{
    if is_large { 8 } else { 4 }
}

// The fields behind the place of the first record.
#[tactic(auto, unfolding(crate::specs::Head::behind_layout))]
fn take_behind(cursor: &mut Cursor, version: u32) -> Result<FileHead, HeadFault>
    ensures exact { result ≡ value_of (read (behind_layout version) (plain cursor.old)) }
    ensures kinds { IfErr result (λ fault. IsHeaderKind fault.kind) }
{
    let is_large = version >= 1_000_000;
    let end = take_place(cursor, is_large)?;
    let seek_free = take_place(cursor, is_large)?;
    let nbytes_free = cursor.take_u32()?;
    let nfree = cursor.take_u32()?;
    let nbytes_name = cursor.take_u32()?;
    let units = cursor.take_u8()?;
    if units != units_of(is_large) {
        return Err(HeadFault {
            place: units_place(is_large),
            kind: FileFault::BadUnits,
        });
    }
    Ok(FileHead {
        version,
        begin: 100,
        end,
        seek_free,
        nbytes_free,
        nfree,
        nbytes_name,
        units,
        compress: cursor.take_u32()?,
        seek_info: take_place(cursor, is_large)?,
        nbytes_info: cursor.take_u32()?,
        uuid: take_uuid(cursor)?,
    })
}

// The header, from its first field on.
#[tactic(auto, unfolding(crate::specs::Head::header_layout))]
fn take_head(cursor: &mut Cursor) -> Result<FileHead, HeadFault>
    ensures exact { result ≡ header_at cursor.old }
    ensures kinds { IfErr result (λ fault. IsHeaderKind fault.kind) }
{
    if cursor.take_u32()? != 0x726F_6F74 {
        return Err(HeadFault {
            place: 0,
            kind: FileFault::NotRoot,
        });
    }
    let version = cursor.take_u32()?;
    if cursor.take_u32()? != 100 {
        return Err(HeadFault {
            place: 8,
            kind: FileFault::BadBegin,
        });
    }
    take_behind(cursor, version)
}

/// The header that a file of these bytes has. The first four bytes are tested first; fewer are Short
/// at 0. Then the fields are tested in order of place: each first for being whole, where Short has the
/// field's place, and then for its value. BadBegin comes at 8 where the first record isn't at 100;
/// BadUnits at 32, or at 40 in the large form, where the places have another length than this form's.
pub fn read_head(bytes: &[u8]) -> Result<FileHead, HeadFault>
    ensures exact { result ≡ head_at bytes.now }
    ensures kinds { IfErr result (λ fault. IsHeaderKind fault.kind) }
    ensures found { IfOk result (λ head. BeginsAsHead head bytes.now) }
    ensures broken { IfErr result (λ fault. BreaksHead bytes.now fault) }
    ensures only { (head : Header) → BeginsAsHead head bytes.now → result ≡ Ok head }
{
    take_head(&mut Cursor::new(bytes, 0))
}
