//! The classes that a file describes.
ghost use Rattle.std.specs.Prelude.{◌≡◌, ◌+◌, ◌<◌, ◌^◌, length};
ghost use Rattle.rio_host.specs.Host.{IsLength};
ghost use Rattle.rio_host.specs.OnlyReads.{OnlyReads};
ghost use Rattle.rio_report.specs.Described.{described_at, described_file, info_at};
ghost use Rattle.rio_close.specs.Causes.{AnyKind, IsHostCauseOf, IsOwnCauseOf};
ghost use Rattle.rio_close.specs.Opens.{Opens, OpensTold};
ghost use Rattle.rio_report.specs.Described.{info_in};

use rio_close::{ReportFault, read_closed, read_record};
use rio_dir::Closed;
use rio_format::{Classes, ObjFault};
use rio_head::FileFault;
use rio_host::Host;
use rio_info::read_info;
use rio_key::{KeyFault, read_key};
use std::alloc::Global;

/// A file as the verbs see it that read values: with the classes that it describes, in its order.
#[derive(Debug, Drop)]
pub struct Described {
    pub closed: Closed,
    pub classes: Classes,
}

fn bad_info(place: u64) -> ReportFault
    ensures { result ≡ ReportFault.BadFile place FileFault.BadInfo }
{
    ReportFault::BadFile {
        place,
        kind: FileFault::BadInfo,
    }
}

// The classes of the class list that is all of these bytes, the first of which stands at `place`.
#[tactic(auto, unfolding(crate::specs::Described::info_in))]
fn read_classes(alloc: Global, bytes: &[u8], place: u64) -> Result<Classes, ReportFault>
    requires places { place + length bytes.now < 2 ^ 64 }
    requires size { length bytes.now < 2 ^ 31 }
    ensures exact { Opens result (info_in place bytes.now) }
    ensures cause { IsOwnCauseOf AnyKind result }
{
    let key = match read_key(alloc, bytes, place, place) {
        Ok(key) => key,
        Err(KeyFault::NoMemory) => return Err(ReportFault::NoMemory),
        Err(_) => return Err(bad_info(place)),
    };
    if key.is_compressed() {
        return Err(ReportFault::BadFile {
            place,
            kind: FileFault::Compressed,
        });
    }
    match read_info(alloc, key.data_of(bytes), u64::from(key.keylen)) {
        Ok(classes) => Ok(classes),
        Err(ObjFault::NoMemory) => Err(ReportFault::NoMemory),
        Err(_) => Err(bad_info(place)),
    }
}

// The classes of the class list whose key stands at `place`.
fn open_info<H: Host>(
    alloc: Global,
    host: &mut H,
    file_length: u64,
    place: u64,
) -> Result<Classes, ReportFault>
    requires { IsLength (H.view host.old) file_length }
    ensures exact { OpensTold (H.view host.old) result (λ file. info_at file place) }
    ensures calls { OnlyReads (H.view host.old) (H.view host.new) }
    ensures cause { IsHostCauseOf AnyKind (H.view host.old) (H.view host.new) result }
{
    match read_record(alloc, host, file_length, place)? {
        None => Err(bad_info(place)),
        Some(bytes) => read_classes(alloc, &bytes, place),
    }
}

// The classes of the class list at `place`: none where that is 0.
fn open_classes<H: Host>(
    alloc: Global,
    host: &mut H,
    file_length: u64,
    place: u64,
) -> Result<Classes, ReportFault>
    requires { IsLength (H.view host.old) file_length }
    ensures exact { OpensTold (H.view host.old) result (λ file. described_at file place) }
    ensures calls { OnlyReads (H.view host.old) (H.view host.new) }
    ensures cause { IsHostCauseOf AnyKind (H.view host.old) (H.view host.new) result }
{
    if place == 0 {
        return Ok(Classes::new(alloc));
    }
    open_info(alloc, host, file_length, place)
}

/// The file and the classes that it describes, with nothing else of it read. BadFile is the first rule
/// that these break, with its place. `file_length` is the host's answer to `length`.
#[tactic(auto, unfolding(crate::specs::Described::described_file))]
pub(crate) fn open_described<H: Host>(
    alloc: Global,
    host: &mut H,
    file_length: u64,
) -> Result<Described, ReportFault>
    requires { IsLength (H.view host.old) file_length }
    ensures exact { OpensTold (H.view host.old) result described_file }
    ensures calls { OnlyReads (H.view host.old) (H.view host.new) }
    ensures cause { IsHostCauseOf AnyKind (H.view host.old) (H.view host.new) result }
{
    let closed = read_closed(alloc, host, file_length)?;
    let classes = open_classes(alloc, host, file_length, closed.head.seek_info)?;
    Ok(Described { closed, classes })
}
