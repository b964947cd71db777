//! Keys of a file.
ghost use Rattle.std.specs.Prelude.{◌≡◌, ◌≢◌, ◌+◌, ◌<◌, ◌^◌, length, IfOk, IfSome, None};
ghost use Rattle.rio_host.specs.Host.{IsWithin};
ghost use Rattle.rio_host.specs.OnlyReads.{OnlyReads};
ghost use Rattle.rio_host.specs.Reading.{Told};
ghost use Rattle.rio_chain.specs.Found.{FindsKey, FindsKeyAt, IsMemoryCause, IsShortKey};
ghost use Rattle.rio_chain.specs.Walks.{IsReadCause};

use crate::WalkFault;
use rio_host::{Host, bytes_at};
use rio_key::{KeyFault, KeyHead, read_key};
use std::alloc::Global;

// Most keys take no more bytes than this.
const USUAL_KEY: usize = 256;

// No key takes more: its KeyLen has 16 bits.
const LONGEST_KEY: usize = 65_535;

// The key that begins these bytes, the first of which stands at `place`.
pub(crate) fn key_in(alloc: Global, bytes: &[u8], place: u64) -> Result<Option<KeyHead>, WalkFault>
    requires { place + length bytes.now < 2 ^ 64 }
    ensures key { IfOk result (FindsKey bytes.now) }
    ensures short { IfOk result (λ found. IfSome found IsShortKey) }
    ensures cause { IsMemoryCause result }
{
    match read_key(alloc, bytes, place, place) {
        Ok(head) => Ok(Some(head)),
        Err(fault) => no_key(fault),
    }
}

// No key, unless memory ran out.
fn no_key(fault: KeyFault) -> Result<Option<KeyHead>, WalkFault>
    ensures key { IfOk result (λ found. (found ≡ None) × (fault ≢ KeyFault.NoMemory)) }
    ensures cause { IsMemoryCause result }
{
    match fault {
        KeyFault::NoMemory => Err(WalkFault::NoMemory),
        KeyFault::Short { .. } | KeyFault::BadLength { .. } | KeyFault::BadKeyLen { .. } => {
            Ok(None)
        }
    }
}

// The key that begins the `n` bytes at `place`.
fn front_key_at<H: Host>(
    alloc: Global,
    host: &mut H,
    place: u64,
    n: usize,
) -> Result<Option<KeyHead>, WalkFault>
    requires told { IsWithin (H.view host.old) (place + n) }
    requires fits { place + n < 2 ^ 64 }
    ensures key { IfOk result
        (λ found. Told (H.view host.old) (FindsKeyAt place n found)) }
    ensures short { IfOk result (λ found. IfSome found IsShortKey) }
    ensures calls { OnlyReads (H.view host.old) (H.view host.new) }
    ensures cause { IsReadCause (H.view host.old) (H.view host.new) result }
{
    let bytes = bytes_at(alloc, host, place, n)?;
    Ok(key_in(alloc, &bytes, place)?)
}

/// The key that begins the `n` bytes of the file from `place` on, or None where none does. No more of them are read than a
/// key may take.
pub fn key_at<H: Host>(
    alloc: Global,
    host: &mut H,
    place: u64,
    n: usize,
) -> Result<Option<KeyHead>, WalkFault>
    requires told { IsWithin (H.view host.old) (place + n) }
    requires fits { place + n < 2 ^ 64 }
    ensures key { IfOk result
        (λ found. Told (H.view host.old) (FindsKeyAt place n found)) }
    ensures short { IfOk result (λ found. IfSome found IsShortKey) }
    ensures calls { OnlyReads (H.view host.old) (H.view host.new) }
    ensures cause { IsReadCause (H.view host.old) (H.view host.new) result }
{
    match front_key_at(alloc, host, place, n.min(USUAL_KEY))? {
        Some(head) => Ok(Some(head)),
        None => Ok(front_key_at(alloc, host, place, n.min(LONGEST_KEY))?),
    }
}
