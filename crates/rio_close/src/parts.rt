//! What a close writes, and its fields of the header and of the directory record.
ghost use Rattle.std.specs.Prelude.{◌≡◌, ◌<◌, ◌^◌, IfOk, IfSome};
ghost use Rattle.std.specs.Option.{option_copied};
ghost use Rattle.rio_close.specs.Written.{dir_field_bytes, free_field_bytes, info_field_bytes};

use rio_chain::NewRecord;
use rio_key::KeyHead;
use rio_num::{Bytes, NoMemory};
use std::alloc::Global;

/// What a close writes.
#[derive(Debug, Drop)]
pub struct CloseRecords {
    /// The record of the key list.
    pub list: NewRecord,
    /// The free record.
    pub free: NewRecord,
    /// fSeekFree, fNbytesFree and nfree of the header: 12 bytes.
    pub free_fields: Bytes,
    /// fSeekInfo and fNbytesInfo of the header: 8 bytes.
    pub info_fields: Bytes,
    /// The directory record from fDatimeM to fSeekKeys: 24 bytes.
    pub dir_fields: Bytes,
    /// fNbytesName of the header: how many bytes the first record has before the directory's.
    pub nbytes_name: u32,
}

// What the header says of a free record of `n` bytes at `place` with `count` entries.
pub(crate) fn free_fields(alloc: Global, place: u32, n: u32, count: u32) -> Result<Bytes, NoMemory>
    ensures { IfOk result (λ bytes. bytes.bytes ≡ free_field_bytes place n count) }
{
    let mut bytes = Bytes::new(alloc);
    bytes.put_u32(place)?;
    bytes.put_u32(n)?;
    bytes.put_u32(count)?;
    Ok(bytes)
}

// What the header says of the class list of this key.
pub(crate) fn info_fields(alloc: Global, info: Option<&KeyHead>) -> Result<Bytes, NoMemory>
    requires { IfSome info (λ head. head.now.seek < 2 ^ 32) }
    ensures { IfOk result (λ bytes. bytes.bytes ≡ info_field_bytes (option_copied info.entry)) }
{
    let (place, n) = match info {
        Some(head) => (head.seek as u32, head.nbytes.cast_unsigned()),
        None => (0, 0),
    };
    let mut bytes = Bytes::new(alloc);
    bytes.put_u32(place)?;
    bytes.put_u32(n)?;
    Ok(bytes)
}

// What the record of the directory says from the time on when it was changed, of a key list of `n`
// bytes at `place`.
pub(crate) fn dir_fields(
    alloc: Global,
    changed: u32,
    n: u32,
    nbytes_name: u32,
    place: u32,
) -> Result<Bytes, NoMemory>
    ensures { IfOk result
        (λ bytes. bytes.bytes ≡ dir_field_bytes changed n nbytes_name place) }
{
    let mut bytes = Bytes::new(alloc);
    bytes.put_u32(changed)?;
    bytes.put_u32(n)?;
    bytes.put_u32(nbytes_name)?;
    bytes.put_u32(100)?;
    bytes.put_u32(0)?;
    bytes.put_u32(place)?;
    Ok(bytes)
}
