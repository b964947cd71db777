//! Records of a file, and their data.
ghost use Rattle.std.specs.Prelude.{◌≡◌, ◌⊎◌, ◌+◌, ◌<◌, ◌≤◌, ◌^◌, length, take, drop, ℕ, List, Some, IfOk, IfSome, MatchOption, option_map};
ghost use Rattle.byteorder.specs.Endian.{big_number};
ghost use Rattle.rio_host.specs.Host.{IsLength};
ghost use Rattle.rio_host.specs.OnlyReads.{OnlyReads};
ghost use Rattle.rio_close.specs.Causes.{IsCallCause};
ghost use Rattle.rio_close.specs.Opens.{IsRecordAt};

use crate::ReportFault;
use rio_host::{Host, bytes_at, prefix_at};
use rio_num::Cursor;
use std::alloc::Global;

/// The bytes of the file from `place` on, `n` of them, or fewer where the file ends before: none where
/// `place` is past its end. `file_length` is the host's answer to `length`.
pub fn read_up_to<H: Host>(
    alloc: Global,
    host: &mut H,
    file_length: u64,
    place: u64,
    n: u32,
) -> Result<Vec<u8>, ReportFault>
    requires { IsLength (H.view host.old) file_length }
    ensures count { IfOk result (λ bytes. length bytes.items ≤ n) }
    ensures fits { IfOk result (λ bytes. place + length bytes.items < 2 ^ 64) }
    ensures bytes { IfOk result (λ bytes. (file : List ℕ) → (H.view host.old).holds ≡ Some file
        → bytes.items ≡ take n (drop place file)) }
    ensures calls { OnlyReads (H.view host.old) (H.view host.new) }
    ensures cause { IsCallCause (H.view host.old) (H.view host.new) result }
{
    let n = u64::from(n).min(file_length.saturating_sub(place));
    if n == 0 {
        return Ok(Vec::new(alloc));
    }
    Ok(bytes_at(alloc, host, place, n as usize)?)
}

// How long the record is that begins with these bytes: None where its first word isn't whole or is
// negative.
fn record_length(bytes: &[u8]) -> Option<u32>
    ensures { MatchOption result
        ((length bytes.now < 4)
        ⊎ ((2 ^ 31 ≤ big_number 4 bytes.now) × (big_number 4 bytes.now < 2 ^ 32)))
        (λ n. (4 ≤ length bytes.now) × (n ≡ big_number 4 bytes.now) × (n < 2 ^ 31)) }
{
    match Cursor::new(bytes, 0).take_u32() {
        Ok(word) => (word < 0x8000_0000).then_some(word),
        Err(_) => None,
    }
}

/// The bytes of the record at `place`, as long as its first four bytes say, or as far as the file goes:
/// None where these aren't whole or say a negative length. `file_length` is the host's answer to
/// `length`.
pub fn read_record<H: Host>(
    alloc: Global,
    host: &mut H,
    file_length: u64,
    place: u64,
) -> Result<Option<Vec<u8>>, ReportFault>
    requires { IsLength (H.view host.old) file_length }
    ensures count { IfOk result (λ found. IfSome found (λ bytes. length bytes.items < 2 ^ 31)) }
    ensures fits { IfOk result
        (λ found. IfSome found (λ bytes. place + length bytes.items < 2 ^ 64)) }
    ensures bytes { IfOk result (λ found. (file : List ℕ) → (H.view host.old).holds ≡ Some file
        → IsRecordAt (drop place file) (option_map (λ bytes. bytes.items) found)) }
    ensures calls { OnlyReads (H.view host.old) (H.view host.new) }
    ensures cause { IsCallCause (H.view host.old) (H.view host.new) result }
{
    let mut word = [0u8; 4];
    let n = prefix_at(host, file_length, place, &mut word)?;
    match record_length(&word[..n]) {
        None => Ok(None),
        Some(nbytes) => Ok(Some(read_up_to(alloc, host, file_length, place, nbytes)?)),
    }
}
