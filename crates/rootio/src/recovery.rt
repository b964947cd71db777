//! A file is recovered: opened, closed, and its keys said.
ghost use Rattle.std.specs.Prelude.{◌≡◌, ◌≤◌, [], length, false};
ghost use Rattle.rio_dir.specs.Listing.{key_lines};
ghost use Rattle.rio_session.specs.Session.{IsReady};
ghost use Rattle.rootio.specs.Script.{ClosesAndSays, RunsWork};
ghost use Rattle.rootio.specs.declared.words.Work.{Work};

use crate::script::{status_of_open, status_of_session};
use crate::status::Status;
use crate::target::Target;
use rio_host::Host;
use rio_report::key_listing;
use rio_session::{Session, SessionFault};
use std::alloc::Global;

// Closes an open file, and says these lines.
fn close_and_say<H: Host>(session: Session, host: &mut H, lines: &[u8]) -> Result<(), SessionFault>
    requires fresh { session.failed ≡ false }
    requires ready { IsReady (H.view host.old) session }
    ensures { ClosesAndSays (H.view host.old) (H.view host.new) session lines.now result }
{
    session.close(host)?;
    match host.say(lines) {
        Ok(()) => Ok(()),
        Err(_) => Err(SessionFault::SayFault),
    }
}

// Closes an open file, and says a line for each of its keys. They are those that the session keeps, so
// the file isn't read again.
fn close_and_list<H: Host>(
    alloc: Global,
    session: Session,
    host: &mut H,
) -> Result<(), SessionFault>
    requires fresh { session.failed ≡ false }
    requires ready { IsReady (H.view host.old) session }
    ensures { ClosesAndSays (H.view host.old) (H.view host.new) session (key_lines session.heads)
        result }
{
    let lines = key_listing(alloc, session.keys())?;
    close_and_say(session, host, lines.as_slice())
}

/// Opens the file, closes it and says a line for each of its keys.
pub fn recover_file<H: Host>(alloc: Global, host: &mut H, target: &Target) -> Status
    requires { length target.now.name ≤ 200 }
    ensures { RunsWork (Work.Recover target.now) [] (H.view host.old) (H.view host.new) result }
{
    match Session::open(alloc, host, target.name, target.datime) {
        Ok(session) => status_of_session(close_and_list(alloc, session, host)),
        Err(fault) => status_of_open(fault),
    }
}
