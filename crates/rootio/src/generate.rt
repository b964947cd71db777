//! A file is generated: made, filled, closed, and read again for its summary.
ghost use Rattle.std.specs.Prelude.{◌≡◌, ◌≤◌, [], IfOk, false, length, true};
ghost use Rattle.rio_dir.specs.Unborn.{is_unborn};
ghost use Rattle.rio_gen.specs.Summary.{summary_text};
ghost use Rattle.rio_host.specs.Host.{IsDiskCause};
ghost use Rattle.rio_host.specs.OnlyReads.{OnlyReads};
ghost use Rattle.rio_host.specs.Reading.{Told};
ghost use Rattle.rio_session.specs.Session.{IsReady};
ghost use Rattle.rootio.specs.Generating.{GeneratedIsStatable, GeneratesAndSays, IsLookCause, MakesLine, RefusesMade, SaysSummary};
ghost use Rattle.rootio.specs.Script.{RunsWork};
ghost use Rattle.rootio.specs.declared.words.Work.{Work};

use crate::script::{status_of_open, status_of_session};
use crate::source::{CommandSource, do_from_and_close};
use crate::status::Status;
use crate::target::Target;
use rio_gen::{GeneratedScript, Summary, generated_script, print_summary};
use rio_head::{Reason, read_head};
use rio_host::{Failed, Host, prefix_at};
use rio_machine::Command;
use rio_num::{Bytes, NoMemory};
use rio_recover::is_unborn;
use rio_report::{ReportFault, TreeSummary, summarize_tree};
use rio_session::{Replies, Session, SessionFault};
use std::alloc::Global;

impl CommandSource for GeneratedScript {
    ghost use Rattle.std.specs.Prelude.{Some};

    ghost left = { λ script. Some script };

    fn next_command(&mut self) -> Result<Option<Command>, NoMemory> {
        GeneratedScript::next_command(self)
    }
}

/// A script can state each command of a generated file.
pub fn generated_is_statable()
    ensures { GeneratedIsStatable }
{}

fn line_of(alloc: Global, entries: u32, tree: &TreeSummary) -> Result<Bytes, NoMemory>
    ensures { IfOk result (λ line. line.bytes ≡ summary_text (record {
      entries = entries;
      baskets = tree.now.baskets;
      sum = tree.now.sum;
    })) }
{
    let summary = Summary {
        entries,
        baskets: tree.baskets,
        sum: tree.sum,
    };
    let mut line = Bytes::new(alloc);
    print_summary(&summary, &mut line)?;
    Ok(line)
}

// The line of what the file sums up to. A file that was just closed breaks no rule, unless the host doesn't give back what was
// written; then there is no line.
fn summary_line<H: Host>(alloc: Global, host: &mut H, entries: u32) -> Result<Bytes, SessionFault>
    ensures line { IfOk result
        (λ line. Told (H.view host.old) (λ file. MakesLine entries file line.bytes)) }
    ensures calls { OnlyReads (H.view host.old) (H.view host.new) }
    ensures cause { IsLookCause (H.view host.old) (H.view host.new) result }
{
    match summarize_tree(alloc, host, b"G") {
        Ok(tree) => match line_of(alloc, entries, &tree) {
            Ok(line) => Ok(line),
            Err(NoMemory) => Err(SessionFault::NoMemory),
        },
        Err(ReportFault::HostFault) => Err(SessionFault::HostFault),
        Err(_) => Err(SessionFault::NoMemory),
    }
}

// Reads the closed file again, and says the line of what it sums up to.
fn say_summary<H: Host>(alloc: Global, host: &mut H, entries: u32) -> Result<(), SessionFault>
    ensures { SaysSummary entries (H.view host.old) (H.view host.new) result }
{
    let line = summary_line(alloc, host, entries)?;
    match host.say(line.as_slice()) {
        Ok(()) => Ok(()),
        Err(_) => Err(SessionFault::SayFault),
    }
}

// Does the generated commands on an open file, closes it, and says the line of what it sums up to.
fn generate_and_say<H: Host>(
    alloc: Global,
    session: Session,
    host: &mut H,
    entries: u32,
) -> Result<(), SessionFault>
    requires fresh { session.failed ≡ false }
    requires ready { IsReady (H.view host.old) session }
    ensures { GeneratesAndSays (H.view host.old) (H.view host.new) session entries result }
{
    generated_is_statable();
    let mut commands = generated_script(alloc, entries);
    do_from_and_close(session, host, &mut commands, Replies::Omitted)?;
    say_summary(alloc, host, entries)
}

// Makes the file, which isn't made yet.
fn generate_new<H: Host>(alloc: Global, host: &mut H, target: &Target, entries: u32) -> Status
    requires name { length target.now.name ≤ 200 }
    requires unborn { Told (H.view host.old) (λ file. is_unborn file ≡ true) }
    ensures { RunsWork (Work.Generate target.now entries) [] (H.view host.old) (H.view host.new)
        result }
{
    match Session::open(alloc, host, target.name, target.datime) {
        Ok(session) => status_of_session(generate_and_say(alloc, session, host, entries)),
        Err(fault) => status_of_open(fault),
    }
}

// The first rule that the header of a file that is made breaks, or else that the file isn't new.
fn status_of_made<H: Host>(host: &mut H) -> Result<Status, Failed>
    ensures refused { IfOk result
        (λ status. RefusesMade (H.view host.old) (H.view host.new) status) }
    ensures calls { OnlyReads (H.view host.old) (H.view host.new) }
    ensures cause { IsDiskCause (H.view host.old) (H.view host.new) result }
{
    let file_length = host.length()?;
    let mut front = [0u8; 100];
    let n = prefix_at(host, file_length, 0, &mut front)?;
    match read_head(&front[..n]) {
        Ok(_head) => Ok(Status::ReadOnly {
            place: 0,
            reason: Reason::NotNew,
        }),
        Err(fault) => Ok(Status::BadFile {
            place: fault.place,
            kind: fault.kind,
        }),
    }
}

// How a run ends on a file that is made.
fn refuse_made<H: Host>(host: &mut H) -> Status
    ensures refused { RefusesMade (H.view host.old) (H.view host.new) result }
    ensures calls { OnlyReads (H.view host.old) (H.view host.new) }
{
    match status_of_made(host) {
        Ok(status) => status,
        Err(_) => Status::DiskFault,
    }
}

// Makes the file if it isn't made yet.
fn generate_unborn<H: Host>(
    alloc: Global,
    host: &mut H,
    target: &Target,
    entries: u32,
    unborn: bool,
) -> Status
    requires name { length target.now.name ≤ 200 }
    requires told { Told (H.view host.old) (λ file. unborn ≡ is_unborn file) }
    ensures { RunsWork (Work.Generate target.now entries) [] (H.view host.old) (H.view host.new)
        result }
{
    if unborn {
        generate_new(alloc, host, target, entries)
    } else {
        refuse_made(host)
    }
}

/// Makes the file, with a tree of so many entries, closes it, and says a line of what it then holds. A file that is made is
/// refused: with the first rule that its header breaks, or else as NotNew, and nothing is written.
pub fn generate_file<H: Host>(alloc: Global, host: &mut H, target: &Target, entries: u32) -> Status
    requires name { length target.now.name ≤ 200 }
    requires some { 1 ≤ entries }
    requires most { entries ≤ 1000000 }
    ensures { RunsWork (Work.Generate target.now entries) [] (H.view host.old) (H.view host.new)
        result }
{
    match is_unborn(host) {
        Ok(unborn) => generate_unborn(alloc, host, target, entries, unborn),
        Err(_) => Status::DiskFault,
    }
}
