//! A script, from opening the file to closing it.
ghost use Rattle.std.specs.Prelude.{◌≡◌, ◌≤◌, ◌<◌, ◌^◌, ℕ, List, length, true, false, OnOk, OnErr, IsErrOf};
ghost use Rattle.std.specs.List.{list_all};
ghost use Rattle.rio_host.specs.Host.{Any, Becomes, Elapses};
ghost use Rattle.rio_host.specs.OnlyReads.{Grown};
ghost use Rattle.rio_machine.specs.State.{State};
ghost use Rattle.rio_step.specs.Statable.{is_statable};
ghost use Rattle.rio_session.specs.Causes.{IsSessionCause};
ghost use Rattle.rio_session.specs.Session.{IsReady, StandsFor};
ghost use Rattle.rio_session.specs.declared.fault.SessionFault.{SessionFault as Fault};
ghost use Rattle.rootio.specs.Headline.{IsStopOf, SaidFindRoom};
ghost use Rattle.rootio.specs.Script.{EndsCommands, HasClosed, HasDone, RunsWork, StaysOpenBy, run_from, status_of_open, status_of_session};
ghost use Rattle.rootio.specs.Writing.{StandsUnsaid};
ghost use Rattle.rootio.specs.declared.words.Work.{Work};

use crate::status::Status;
use crate::target::Target;
use rio_cmd::read_script;
use rio_host::Host;
use rio_machine::Command;
use rio_num::NoMemory;
use rio_session::{OpenFault, Session, SessionFault};
use rio_step::scripts_are_statable;
use std::alloc::Global;

// Does the commands, one after the other. A fault ends it where it comes.
fn do_commands<H: Host>(
    session: &mut Session,
    host: &mut H,
    commands: &[Command],
) -> Result<(), SessionFault>
    requires fresh { session.old.failed ≡ false }
    requires statable { list_all is_statable commands.now ≡ true }
    requires ready { IsReady (H.view host.old) session.old }
    ensures stops { (file text : List ℕ) (m : State)
        → (stands : StandsFor (H.view host.old) session.old m text)
        → Elapses (H.view host.old) (H.view host.new)
        (IsStopOf (run_from stands commands.now) file text) }
    ensures done { OnOk result ((m : State) (text : List ℕ)
        → (stands : StandsFor (H.view host.old) session.old m text)
        → HasDone (run_from stands commands.now) stands.state.links stands.file
        session.old session.new text (H.view host.new)) }
    ensures unclosed { (m : State) (text : List ℕ)
        → (stands : StandsFor (H.view host.old) session.old m text)
        → EndsCommands (run_from stands commands.now) text (H.view host.new) result }
    ensures ready { OnOk result (IsReady (H.view host.new) session.new) }
    ensures fresh { OnOk result (session.new.failed ≡ false) }
    ensures told { Becomes Any (H.view host.old).holds (H.view host.new).holds }
    ensures said { Becomes Grown (H.view host.old).said (H.view host.new).said }
    ensures room { (m : State) (text : List ℕ)
        → (stands : StandsFor (H.view host.old) session.old m text) → session.old.costs ≡ 0
        → SaidFindRoom session.old.opened (run_from stands commands.now) text
        (H.view host.new) }
    ensures cause { IsSessionCause (H.view host.old) (H.view host.new) result }
{
    for command in commands {
        session.apply(host, command)?;
    }
    Ok(())
}

// Does the commands on an open file, and closes it.
fn do_and_close<H: Host>(
    mut session: Session,
    host: &mut H,
    commands: &[Command],
) -> Result<(), SessionFault>
    requires fresh { session.failed ≡ false }
    requires statable { list_all is_statable commands.now ≡ true }
    requires ready { IsReady (H.view host.old) session }
    ensures stops { (file text : List ℕ) (m : State)
        → (stands : StandsFor (H.view host.old) session m text)
        → Elapses (H.view host.old) (H.view host.new)
        (IsStopOf (run_from stands commands.now) file text) }
    ensures done { OnOk result ((m : State) (text : List ℕ)
        → (stands : StandsFor (H.view host.old) session m text)
        → HasClosed (run_from stands commands.now) stands.state.links stands.file session text
        (H.view host.new)) }
    ensures unclosed { (m : State) (text : List ℕ)
        → (stands : StandsFor (H.view host.old) session m text)
        → StaysOpenBy StandsUnsaid (run_from stands commands.now) text
        (H.view host.new) result }
    ensures told { Becomes Any (H.view host.old).holds (H.view host.new).holds }
    ensures said { Becomes Grown (H.view host.old).said (H.view host.new).said }
    ensures room { (m : State) (text : List ℕ)
        → (stands : StandsFor (H.view host.old) session m text) → session.costs ≡ 0
        → SaidFindRoom session.opened (run_from stands commands.now) text
        (H.view host.new) }
    ensures cause { IsSessionCause (H.view host.old) (H.view host.new) result }
{
    do_commands(&mut session, host, commands)?;
    session.close(host)
}

// How a run ended that opened the file.
pub(crate) fn status_of_session(done: Result<(), SessionFault>) -> Status
    ensures { result ≡ status_of_session done }
{
    match done {
        Ok(()) => Status::Done,
        Err(SessionFault::HostFault) => Status::DiskFault,
        Err(SessionFault::SayFault) => Status::SayFault,
        Err(SessionFault::NoMemory) => Status::NoMemory,
    }
}

// How a run ended that could not open it.
pub(crate) fn status_of_open(fault: OpenFault) -> Status
    ensures { result ≡ status_of_open fault }
{
    match fault {
        OpenFault::BadFile { place, kind } => Status::BadFile { place, kind },
        OpenFault::ReadOnly { place, reason } => Status::ReadOnly { place, reason },
        OpenFault::NoMemory => Status::NoMemory,
        OpenFault::HostFault => Status::DiskFault,
    }
}

/// Opens the file, does the commands of the script and closes the file.
pub fn run_script<H: Host>(alloc: Global, host: &mut H, target: &Target, script: &[u8]) -> Status
    requires name { length target.now.name ≤ 200 }
    requires fits { length script.now < 2 ^ 32 }
    ensures { RunsWork (Work.Run target.now) script.now (H.view host.old) (H.view host.new) result }
{
    scripts_are_statable();
    let commands = match read_script(alloc, script) {
        Ok(commands) => commands,
        Err(NoMemory) => return Status::NoMemory,
    };
    match Session::open(alloc, host, target.name, target.datime) {
        Ok(session) => status_of_session(do_and_close(session, host, commands.as_slice())),
        Err(fault) => status_of_open(fault),
    }
}
