//! Fields that both forms have: places and the UUID.
ghost use Rattle.rio_num.specs.Reading.{Takes, bytes_at, number_at};
ghost use Rattle.rio_head.specs.Form.{place_len};

use rio_num::{Cursor, Short};

// A place in the file, as long as the form has it.
pub(crate) fn take_place(cursor: &mut Cursor, is_large: bool) -> Result<u64, Short>
    ensures { Takes (λ x. x) result (number_at (place_len is_large) cursor.old) cursor.old
        cursor.new }
{
    if is_large {
        cursor.take_u64()
    } else {
        Ok(u64::from(cursor.take_u32()?))
    }
}

// The 18 bytes of a UUID and its version.
pub(crate) fn take_uuid(cursor: &mut Cursor) -> Result<[u8; 18], Short>
    ensures { Takes (λ x. x) result (bytes_at 18 cursor.old) cursor.old cursor.new }
{
    let mut uuid = [0; 18];
    uuid.copy_from_slice(cursor.take(18)?);
    Ok(uuid)
}
