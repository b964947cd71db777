//! A closed file is opened.
ghost use Rattle.rio_host.specs.Host.{IsLength};
ghost use Rattle.rio_host.specs.OnlyReads.{OnlyReads};
ghost use Rattle.rio_dir.specs.Closed.{closed_file};
ghost use Rattle.rio_close.specs.Causes.{IsHostCause};
ghost use Rattle.rio_close.specs.Opens.{OpensTold};

use crate::front::{open_dir, open_head};
use crate::keys::open_keys;
use crate::{Closed, ReportFault};
use rio_host::Host;
use std::alloc::Global;

/// The file as its header, its directory record and its key list tell it, with nothing else of the file
/// read. BadFile is the first rule that these break, with its place. HostFault comes only where a call
/// on the file failed, and SayFault never.
pub fn open_closed<H: Host>(alloc: Global, host: &mut H) -> Result<Closed, ReportFault>
    ensures exact { OpensTold (H.view host.old) result closed_file }
    ensures calls { OnlyReads (H.view host.old) (H.view host.new) }
    ensures cause { IsHostCause (H.view host.old) (H.view host.new) result }
{
    let file_length = host.length()?;
    read_closed(alloc, host, file_length)
}

/// The same, where the file's length was asked before: `file_length` is the host's answer to `length`.
#[tactic(auto, unfolding(rio_dir::specs::Closed::closed_file))]
pub fn read_closed<H: Host>(
    alloc: Global,
    host: &mut H,
    file_length: u64,
) -> Result<Closed, ReportFault>
    requires { IsLength (H.view host.old) file_length }
    ensures exact { OpensTold (H.view host.old) result closed_file }
    ensures calls { OnlyReads (H.view host.old) (H.view host.new) }
    ensures cause { IsHostCause (H.view host.old) (H.view host.new) result }
{
    let head = open_head(host, file_length)?;
    let dir = open_dir(host, file_length, 100 + u64::from(head.nbytes_name))?;
    let keys = open_keys(alloc, host, file_length, dir.seek_keys)?;
    Ok(Closed { head, dir, keys })
}
