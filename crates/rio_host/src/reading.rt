//! Reading a file at a place: so many bytes, a word, or as much as the file has there.
ghost use Rattle.std.specs.Prelude.{◌≡◌, ◌+◌, ◌-◌, ◌≤◌, min, length, take, drop, IfOk, IfSome};
ghost use Rattle.byteorder.specs.Endian.{big_number};
ghost use Rattle.rio_host.specs.Host.{IsDiskCause, IsLength, IsWithin};
ghost use Rattle.rio_host.specs.Image.{Has};
ghost use Rattle.rio_host.specs.OnlyReads.{OnlyReads};
ghost use Rattle.rio_host.specs.Reading.{FindsWord, IsReadCause, Told};

use crate::{Failed, Host};
use byteorder::{BigEndian, ByteOrder};
use std::alloc::{AllocError, Global};
use thiserror::Error;

/// Why bytes of a file could not be read.
#[derive(Clone, Copy, Debug, PartialEq, Eq, Error)]
pub enum ReadFault {
    #[error("no memory")]
    NoMemory,
    /// A call on the file failed.
    #[error("disk fault")]
    HostFault,
}

impl From<Failed> for ReadFault {
    ghost use Rattle.std.specs.Prelude.{◌≡◌};
    ghost use Rattle.rio_host.specs.declared.reading.ReadFault.TheVariants.{HostFault};

    ghost from_gives = { λ _ e. e ≡ HostFault };

    fn from(_e: Failed) -> ReadFault {
        ReadFault::HostFault
    }
}

impl From<AllocError> for ReadFault {
    ghost use Rattle.std.specs.Prelude.{◌≡◌};
    ghost use Rattle.rio_host.specs.declared.reading.ReadFault.TheVariants.{NoMemory};

    ghost from_gives = { λ _ e. e ≡ NoMemory };

    fn from(_e: AllocError) -> ReadFault {
        ReadFault::NoMemory
    }
}

/// The `n` bytes of the file from `place` on.
pub fn bytes_at<H: Host>(
    alloc: Global,
    host: &mut H,
    place: u64,
    n: usize,
) -> Result<Vec<u8>, ReadFault>
    requires { IsWithin (H.view host.old) (place + n) }
    ensures count { IfOk result (λ bytes. length bytes.items ≡ n) }
    ensures bytes { IfOk result
        (λ bytes. Told (H.view host.old) (λ file. Has file place bytes.items)) }
    ensures calls { OnlyReads (H.view host.old) (H.view host.new) }
    ensures cause { IsReadCause (H.view host.old) (H.view host.new) result }
{
    let mut bytes = vec![in alloc; 0u8; n]?;
    host.read(place, &mut bytes)?;
    Ok(bytes)
}

// The number that these four bytes give, the highest byte first.
fn word_of(bytes: &[u8; 4]) -> u32
    ensures { result ≡ big_number 4 bytes.now }
{
    BigEndian::read_u32(bytes)
}

/// The word at `place`, or None where fewer than four bytes stand there. `file_length` is what the
/// host returned as `length`.
pub fn word_at<H: Host>(host: &mut H, file_length: u64, place: u64) -> Result<Option<u32>, Failed>
    requires { IsLength (H.view host.old) file_length }
    ensures word { IfOk result (λ word. Told (H.view host.old) (FindsWord place word)) }
    ensures within { IfOk result (λ word. IfSome word (λ _. place + 4 ≤ file_length)) }
    ensures calls { OnlyReads (H.view host.old) (H.view host.new) }
    ensures cause { IsDiskCause (H.view host.old) (H.view host.new) result }
{
    if file_length < 4 || file_length - 4 < place {
        return Ok(None);
    }
    let mut bytes = [0u8; 4];
    host.read(place, &mut bytes)?;
    Ok(Some(word_of(&bytes)))
}

/// Fills the start of `into` with the file's bytes from `place` on, as far as the file goes, and
/// returns how many they are. `file_length` is what the host returned as `length`.
pub fn prefix_at<H: Host>(
    host: &mut H,
    file_length: u64,
    place: u64,
    into: &mut [u8],
) -> Result<usize, Failed>
    requires { IsLength (H.view host.old) file_length }
    ensures count { IfOk result (λ n. n ≡ min (length into.old) (file_length - place)) }
    ensures bytes { IfOk result (λ n. Told (H.view host.old)
        (λ file. take n into.new ≡ take (length into.old) (drop place file))) }
    ensures calls { OnlyReads (H.view host.old) (H.view host.new) }
    ensures cause { IsDiskCause (H.view host.old) (H.view host.new) result }
{
    if file_length <= place {
        return Ok(0);
    }
    let n = into.len().min((file_length - place) as usize);
    host.read(place, &mut into[..n])?;
    Ok(n)
}
