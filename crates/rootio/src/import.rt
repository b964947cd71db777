//! Rows of CSV become a tree: a file is opened, the tree is made and filled row by row, and the file is closed.
ghost use Rattle.std.specs.Prelude.{◌≡◌, ◌≤◌, Some, IfOk, length};
ghost use Rattle.rio_csv.specs.Import.{import_script};
ghost use Rattle.rio_cmd.specs.ImportWords.{IsImport};
ghost use Rattle.rootio.specs.Imports.{ImportsAreStatable};
ghost use Rattle.rootio.specs.Script.{RunsWork};
ghost use Rattle.rootio.specs.declared.words.Work.{Work};

use crate::script::{status_of_open, status_of_session};
use crate::source::do_from_and_close;
use crate::status::Status;
use crate::target::Target;
use rio_cmd::ImportWords;
use rio_csv::{ImportScript, import_script};
use rio_host::Host;
use rio_num::NoMemory;
use rio_session::{Replies, Session};
use std::alloc::Global;

/// The commands of an import can be stated in a script, where its words can.
pub fn imports_are_statable()
    ensures { ImportsAreStatable }
{}

// The commands that import the rows of the text.
fn script_of_rows<'a>(
    alloc: Global,
    words: &'a ImportWords,
    text: &'a [u8],
) -> Result<ImportScript<'a>, NoMemory>
    ensures { IfOk result (λ script. script ≡ Some
        (import_script words.now.tree words.now.branches words.now.every text.now)) }
{
    import_script(
        alloc,
        words.tree.as_slice(),
        &words.branches,
        words.every,
        text,
    )
}

/// Opens the file, does the commands that import the text, and closes the file. A row becomes a command when its turn comes,
/// so no more than one is in memory.
pub fn run_import<H: Host>(
    alloc: Global,
    host: &mut H,
    target: &Target,
    words: &ImportWords,
    text: &[u8],
) -> Status
    requires name { length target.now.name ≤ 200 }
    requires stated { IsImport words.now }
    ensures { RunsWork (Work.Import target.now words.now) text.now (H.view host.old)
        (H.view host.new) result }
{
    imports_are_statable();
    let mut commands = match script_of_rows(alloc, words, text) {
        Ok(commands) => commands,
        Err(NoMemory) => return Status::NoMemory,
    };
    match Session::open(alloc, host, target.name, target.datime) {
        Ok(session) => status_of_session(do_from_and_close(
            session,
            host,
            &mut commands,
            Replies::Printed,
        )),
        Err(fault) => status_of_open(fault),
    }
}
