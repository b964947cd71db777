//! The header and the directory record of a file.
ghost use Rattle.std.specs.Prelude.{◌+◌, ◌<◌, ◌^◌};
ghost use Rattle.rio_host.specs.Host.{IsLength};
ghost use Rattle.rio_host.specs.OnlyReads.{OnlyReads};
ghost use Rattle.rio_dir.specs.Closed.{closed_dir, closed_head};
ghost use Rattle.rio_close.specs.Causes.{IsHostCause};
ghost use Rattle.rio_close.specs.Opens.{OpensTold};

use crate::ReportFault;
use rio_head::{DirRecord, FileFault, FileHead, read_dir, read_head};
use rio_host::{Host, prefix_at};

// The header, whose END is within the file.
#[tactic(auto, unfolding(rio_dir::specs::Closed::closed_head))]
pub(crate) fn open_head<H: Host>(host: &mut H, file_length: u64) -> Result<FileHead, ReportFault>
    requires { IsLength (H.view host.old) file_length }
    ensures exact { OpensTold (H.view host.old) result closed_head }
    ensures calls { OnlyReads (H.view host.old) (H.view host.new) }
    ensures cause { IsHostCause (H.view host.old) (H.view host.new) result }
{
    let mut front = [0u8; 100];
    let n = prefix_at(host, file_length, 0, &mut front)?;
    let head = read_head(&front[..n])?;
    if file_length < head.end {
        return Err(ReportFault::BadFile {
            place: 12,
            kind: FileFault::NotClosed,
        });
    }
    Ok(head)
}

// The directory record at `place`, whole in the file.
pub(crate) fn open_dir<H: Host>(
    host: &mut H,
    file_length: u64,
    place: u64,
) -> Result<DirRecord, ReportFault>
    requires told { IsLength (H.view host.old) file_length }
    requires fits { place + 60 < 2 ^ 64 }
    ensures exact { OpensTold (H.view host.old) result (λ file. closed_dir file place) }
    ensures calls { OnlyReads (H.view host.old) (H.view host.new) }
    ensures cause { IsHostCause (H.view host.old) (H.view host.new) result }
{
    let mut front = [0u8; 60];
    let n = prefix_at(host, file_length, place, &mut front)?;
    match read_dir(&front[..n], place) {
        Ok(dir) => Ok(dir),
        Err(_) => Err(ReportFault::BadFile {
            place,
            kind: FileFault::BadDir,
        }),
    }
}
