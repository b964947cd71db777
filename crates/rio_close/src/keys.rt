//! The heads of a key list.
ghost use Rattle.std.specs.Prelude.{◌≡◌, ◌+◌, ◌<◌, ◌^◌, length};
ghost use Rattle.rio_host.specs.Host.{IsLength};
ghost use Rattle.rio_host.specs.OnlyReads.{OnlyReads};
ghost use Rattle.rio_dir.specs.Closed.{closed_keys, listed_at};
ghost use Rattle.rio_close.specs.Causes.{IsHostCause, IsOwnCause};
ghost use Rattle.rio_close.specs.Opens.{Opens, OpensTold, listed_in};

use crate::ReportFault;
use crate::record::read_record;
use rio_dir::{Heads, read_heads};
use rio_head::FileFault;
use rio_host::Host;
use rio_key::{KeyFault, read_key};
use std::alloc::Global;

fn bad_list(place: u64) -> ReportFault
    ensures { result ≡ ReportFault.BadFile place FileFault.BadKeyList }
{
    ReportFault::BadFile {
        place,
        kind: FileFault::BadKeyList,
    }
}

// The heads of the key list that is all of these bytes, the first of which stands at `place`.
#[tactic(auto, unfolding(crate::specs::Opens::listed_in))]
fn read_listed(alloc: Global, bytes: &[u8], place: u64) -> Result<Heads, ReportFault>
    requires { place + length bytes.now < 2 ^ 64 }
    ensures exact { Opens result (listed_in place bytes.now) }
    ensures cause { IsOwnCause result }
{
    let key = match read_key(alloc, bytes, place, place) {
        Ok(key) => key,
        Err(KeyFault::NoMemory) => return Err(ReportFault::NoMemory),
        Err(_) => return Err(bad_list(place)),
    };
    if usize::from(key.keylen) > bytes.len() {
        return Err(bad_list(place));
    }
    match read_heads(alloc, key.data_of(bytes), place + u64::from(key.keylen)) {
        Ok(heads) => Ok(heads),
        Err(fault) => match fault.fault {
            KeyFault::NoMemory => Err(ReportFault::NoMemory),
            _ => Err(bad_list(fault.head.unwrap_or(place))),
        },
    }
}

// The heads of the key list whose key stands at `place`.
fn open_listed<H: Host>(
    alloc: Global,
    host: &mut H,
    file_length: u64,
    place: u64,
) -> Result<Heads, ReportFault>
    requires { IsLength (H.view host.old) file_length }
    ensures exact { OpensTold (H.view host.old) result (λ file. listed_at file place) }
    ensures calls { OnlyReads (H.view host.old) (H.view host.new) }
    ensures cause { IsHostCause (H.view host.old) (H.view host.new) result }
{
    match read_record(alloc, host, file_length, place)? {
        None => Err(bad_list(place)),
        Some(bytes) => read_listed(alloc, &bytes, place),
    }
}

// The heads of the key list at `place`: none where that is 0.
pub(crate) fn open_keys<H: Host>(
    alloc: Global,
    host: &mut H,
    file_length: u64,
    place: u64,
) -> Result<Heads, ReportFault>
    requires { IsLength (H.view host.old) file_length }
    ensures exact { OpensTold (H.view host.old) result (λ file. closed_keys file place) }
    ensures calls { OnlyReads (H.view host.old) (H.view host.new) }
    ensures cause { IsHostCause (H.view host.old) (H.view host.new) result }
{
    if place == 0 {
        return Ok(Heads::new(alloc));
    }
    open_listed(alloc, host, file_length, place)
}
