//! Commands that come one by one, so that no list of them is made, and a session that does them.
ghost use Rattle.std.specs.Prelude.{◌≡◌, ℕ, List, Option, true, false, IsSome, IfOk, OnOk, OnErr, IsErrOf};
ghost use Rattle.std.specs.List.{list_all};
ghost use Rattle.rio_csv.specs.Unread.{TakesFirst};
ghost use Rattle.rio_host.specs.Host.{Any, Becomes, Elapses};
ghost use Rattle.rio_host.specs.OnlyReads.{Grown};
ghost use Rattle.rio_machine.specs.State.{State};
ghost use Rattle.rio_machine.specs.declared.command.Command.{Command as ScriptCommand};
ghost use Rattle.rio_step.specs.Statable.{IsStatable, is_statable};
ghost use Rattle.rio_session.specs.Causes.{IsSessionCause};
ghost use Rattle.rio_session.specs.Does.{FileAfter, KeptAfter, TextAfter};
ghost use Rattle.rio_session.specs.FileSteps.{IsStepTold, RecordsBecome};
ghost use Rattle.rio_session.specs.Session.{IsReady, StandsFor};
ghost use Rattle.rio_session.specs.declared.fault.SessionFault.{SessionFault as Fault};
ghost use Rattle.rootio.specs.Headline.{IsStopOf, SaidFindRoom};
ghost use Rattle.rootio.specs.Script.{EndsCommands, HasClosed, HasDone, StaysOpenBy, commands_in, run_by};
ghost use Rattle.rootio.specs.Writing.{StandsUnsaid};

use rio_csv::ImportScript;
use rio_host::Host;
use rio_machine::{Command, Outcome};
use rio_num::NoMemory;
use rio_session::{Replies, Session, SessionFault};

/// Commands, one by one.
pub trait CommandSource {
    // Those that are left; None behind a call that found no memory.
    ghost left: { Self → Option (List ScriptCommand) };

    /// The next command, or None after the last one.
    fn next_command(&mut self) -> Result<Option<Command>, NoMemory>
        ensures { IfOk result (λ command. TakesFirst (left self.old) command (left self.new)) };
}

impl<'a> CommandSource for ImportScript<'a> {
    ghost left = { λ script. script };

    fn next_command(&mut self) -> Result<Option<Command>, NoMemory> {
        ImportScript::next_command(self)
    }
}

// Does a command, whose reply is said or omitted.
fn do_command<H: Host>(
    session: &mut Session,
    host: &mut H,
    command: Command,
    replies: Replies,
) -> Result<Outcome, SessionFault>
    requires fresh { session.old.failed ≡ false }
    requires statable { IsStatable command }
    requires ready { IsReady (H.view host.old) session.old }
    ensures file { FileAfter replies (H.view host.old) (H.view host.new) session.old session.new
        command result }
    ensures marks { (m : State) (text : List ℕ)
        → (stands : StandsFor (H.view host.old) session.old m text)
        → IsStepTold session.old m command stands.state.links }
    ensures records { OnOk result ((m : State) (text : List ℕ)
        → StandsFor (H.view host.old) session.old m text
        → RecordsBecome (H.view host.old) (H.view host.new) session.old session.new m
        command) }
    ensures text { TextAfter replies (H.view host.old) (H.view host.new) session.old session.new
        command result }
    ensures kept { KeptAfter replies (H.view host.old) (H.view host.new) session.old session.new
        command result }
    ensures no_say_fault { replies ≡ Replies.Omitted → IsErrOf result Fault.SayFault → ⊥ }
{
    match replies {
        Replies::Printed => session.apply(host, &command),
        Replies::Omitted => session.apply_quiet(host, &command),
    }
}

/// Does the commands of a source, one after the other. A fault ends it where it comes.
pub fn do_from<H: Host, C: CommandSource>(
    session: &mut Session,
    host: &mut H,
    commands: &mut C,
    replies: Replies,
) -> Result<(), SessionFault>
    requires fresh { session.old.failed ≡ false }
    requires known { IsSome (C.left commands.old) }
    requires statable { list_all is_statable (commands_in (C.left commands.old)) ≡ true }
    requires ready { IsReady (H.view host.old) session.old }
    ensures stops { (file text : List ℕ) (m : State)
        → (stands : StandsFor (H.view host.old) session.old m text)
        → Elapses (H.view host.old) (H.view host.new)
        (IsStopOf (run_by replies stands (commands_in (C.left commands.old))) file text) }
    ensures done { OnOk result ((m : State) (text : List ℕ)
        → (stands : StandsFor (H.view host.old) session.old m text)
        → HasDone (run_by replies stands (commands_in (C.left commands.old)))
        stands.state.links stands.file session.old session.new text (H.view host.new)) }
    ensures unclosed { (m : State) (text : List ℕ)
        → (stands : StandsFor (H.view host.old) session.old m text)
        → EndsCommands (run_by replies stands (commands_in (C.left commands.old))) text (H.view host.new) result }
    ensures ready { OnOk result (IsReady (H.view host.new) session.new) }
    ensures fresh { OnOk result (session.new.failed ≡ false) }
    ensures told { Becomes Any (H.view host.old).holds (H.view host.new).holds }
    ensures said { Becomes Grown (H.view host.old).said (H.view host.new).said }
    ensures room { (m : State) (text : List ℕ)
        → (stands : StandsFor (H.view host.old) session.old m text) → session.old.costs ≡ 0
        → SaidFindRoom session.old.opened
        (run_by replies stands (commands_in (C.left commands.old))) text (H.view host.new) }
    ensures no_say_fault { replies ≡ Replies.Omitted → IsErrOf result Fault.SayFault → ⊥ }
    ensures cause { IsSessionCause (H.view host.old) (H.view host.new) result }
{
    'each: while let Some(command) = commands.next_command()? {
        do_command(session, host, command, replies)?;
    }
    Ok(())
}

/// Does the commands of a source on an open file, and closes it.
pub fn do_from_and_close<H: Host, C: CommandSource>(
    mut session: Session,
    host: &mut H,
    commands: &mut C,
    replies: Replies,
) -> Result<(), SessionFault>
    requires fresh { session.failed ≡ false }
    requires known { IsSome (C.left commands.old) }
    requires statable { list_all is_statable (commands_in (C.left commands.old)) ≡ true }
    requires ready { IsReady (H.view host.old) session }
    ensures stops { (file text : List ℕ) (m : State)
        → (stands : StandsFor (H.view host.old) session m text)
        → Elapses (H.view host.old) (H.view host.new)
        (IsStopOf (run_by replies stands (commands_in (C.left commands.old))) file text) }
    ensures done { OnOk result ((m : State) (text : List ℕ)
        → (stands : StandsFor (H.view host.old) session m text)
        → HasClosed (run_by replies stands (commands_in (C.left commands.old)))
        stands.state.links stands.file session text (H.view host.new)) }
    ensures unclosed { (m : State) (text : List ℕ)
        → (stands : StandsFor (H.view host.old) session m text)
        → StaysOpenBy StandsUnsaid (run_by replies stands (commands_in (C.left commands.old)))
        text (H.view host.new) result }
    ensures told { Becomes Any (H.view host.old).holds (H.view host.new).holds }
    ensures said { Becomes Grown (H.view host.old).said (H.view host.new).said }
    ensures room { (m : State) (text : List ℕ)
        → (stands : StandsFor (H.view host.old) session m text) → session.costs ≡ 0
        → SaidFindRoom session.opened
        (run_by replies stands (commands_in (C.left commands.old))) text (H.view host.new) }
    ensures no_say_fault { replies ≡ Replies.Omitted → IsErrOf result Fault.SayFault → ⊥ }
    ensures cause { IsSessionCause (H.view host.old) (H.view host.new) result }
{
    do_from(&mut session, host, commands, replies)?;
    session.close(host)
}
