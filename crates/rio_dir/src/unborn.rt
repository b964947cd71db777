//! Whether a file is made yet, by its first bytes.
ghost use Rattle.std.specs.Prelude.{◌≡◌};
ghost use Rattle.rio_dir.specs.Unborn.{is_unborn};

use byteorder::{BigEndian, ByteOrder};

/// Whether a file with these first bytes, all or at least four of them, isn't made yet: it has fewer
/// than four, or its first word is zero.
pub fn begins_unborn(prefix: &[u8]) -> bool
    ensures { result ≡ is_unborn prefix.now }
{
    prefix.len() < 4 || BigEndian::read_u32(prefix) == 0
}
