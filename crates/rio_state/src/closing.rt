//! What a close needs behind the records of a file.
ghost use Rattle.std.specs.Prelude.{◌≡◌, ◌+◌, ◌<◌, ◌≤◌, ◌^◌, codes, length};
ghost use Rattle.rio_machine.specs.Limits.{head_length};
ghost use Rattle.rio_state.specs.Sizes.{close_size};

use rio_key::key_length_of;
use rio_num::padded;

/// How far END may be, with what a close writes behind it.
pub const END_LIMIT: u64 = 1_999_999_996;

/// How long the key is of a record that the file itself needs, as its key list and its free record.
pub fn own_key_length(name: &[u8]) -> u64
    requires { length name.now < 2 ^ 32 }
    ensures exact { result ≡ head_length (codes "TFile") name.now }
    ensures short { result ≤ length name.now + 38 }
{
    key_length_of(b"TFile", name, b"") as u64
}

/// How many bytes key list and free record of a close take together: a key list with so many bytes
/// of heads, and a free record with `live + 2` entries.
#[tactic(auto, unfolding(crate::specs::Sizes::close_size))]
pub fn close_length(name: &[u8], heads: u64, live: u64) -> u64
    requires name { length name.now < 2 ^ 32 }
    requires heads { heads < 2 ^ 40 }
    requires live { live < 2 ^ 40 }
    ensures { result ≡ close_size name.now heads live }
{
    let key = own_key_length(name);
    padded(key + 4 + heads) + padded(key + 10 * (live + 2))
}
