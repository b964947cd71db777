//! The commands of an import.
ghost use Rattle.std.specs.Prelude.{◌≡◌, ◌+◌, ℕ, List, None, Some, IfOk, OnErr};
ghost use Rattle.rio_csv.specs.Import.{IsSince, import_script, is_save_due, next_behind, row_commands};
ghost use Rattle.rio_csv.specs.Unread.{TakesFirst};
ghost use Rattle.rio_machine.specs.declared.command.Command.TheVariants.{Fill as FillOf, Save as SaveOf, Tree as TreeOf};
ghost use Rattle.rio_format.specs.declared.value.Value.{Value as Field};

use crate::reader::RowReader;
use rio_format::Values;
use rio_leaf::BranchDefs;
use rio_machine::Command;
use rio_num::{Name, NoMemory};
use std::alloc::Global;
use std::marker::Model;

/// Which command comes next.
#[derive(Clone, Copy, Debug, PartialEq, Eq)]
pub(crate) enum NextCommand {
    /// The tree is made.
    Tree,
    /// The next row is filled in, if there is one.
    Row,
    /// The tree is saved.
    Save,
    /// A command was lost for want of memory.
    Failed,
}

/// The commands of an import, one by one. Contracts see those that are left, or None after a call that found no memory: each
/// further call returns `NoMemory` then.
#[derive(Drop)]
pub struct ImportScript<'a> {
    alloc: Global,
    name: &'a [u8],
    branches: &'a BranchDefs,
    every: u32,
    rows: RowReader<'a>,
    // How many rows were filled in since the last save; 0 where the tree is never saved.
    since: u32,
    next: NextCommand,
}

impl<'a> Model for ImportScript<'a> {
    ghost use Rattle.std.specs.Coded.{codes};
    ghost use Rattle.std.specs.Prelude.{List, Option};
    ghost use Rattle.rio_format.specs.contracts.value.Value as values;
    ghost use Rattle.rio_csv.specs.Import.{HasRows, IsSince, commands_left};
    ghost use Rattle.rio_machine.specs.declared.command.Command.{Command as ScriptCommand};

    ghost Value = { Option (List ScriptCommand) };

    ghost coded = { Prim.hlevel (codes, values.the_row.coded) };

    ghost view = { λ s. commands_left s.next s.name.now s.branches.now s.every s.since s.rows };

    ghost invariant = { λ s. IsSince s.every s.since × HasRows s.next s.rows };
}

/// The commands that import a CSV text into a new tree: the tree is made, each row of the text is filled in, and the tree is
/// saved after each `every` rows, bad ones too; never where `every` is 0.
pub fn import_script<'a>(
    alloc: Global,
    name: &'a [u8],
    branches: &'a BranchDefs,
    every: u32,
    text: &'a [u8],
) -> Result<ImportScript<'a>, NoMemory>
    ensures { IfOk result (λ script.
        script ≡ Some (import_script name.now branches.now every text.now)) }
{
    Ok(ImportScript {
        alloc,
        name,
        branches,
        every,
        rows: RowReader::new(alloc, text, branches.as_slice())?,
        since: 0,
        next: NextCommand::Tree,
    })
}

fn tree_command(alloc: Global, name: &[u8], branches: &BranchDefs) -> Result<Command, NoMemory>
    ensures { IfOk result (λ command. command ≡ TreeOf name.now branches.now) }
{
    Ok(Command::Tree {
        name: Name::from_slice(alloc, name)?,
        branches: branches.copy()?,
    })
}

fn fill_command(alloc: Global, name: &[u8], row: Values) -> Result<Command, NoMemory>
    ensures { IfOk result (λ command. command ≡ FillOf name.now row) }
{
    Ok(Command::Fill {
        name: Name::from_slice(alloc, name)?,
        row,
    })
}

fn save_command(alloc: Global, name: &[u8]) -> Result<Command, NoMemory>
    ensures { IfOk result (λ command. command ≡ SaveOf name.now) }
{
    Ok(Command::Save {
        name: Name::from_slice(alloc, name)?,
    })
}

// How many rows there are since the last save behind one more row, and what comes behind it.
#[tactic(auto, using(crate::proofs::ImportLaws::never_saved, crate::proofs::ImportLaws::saved_again, crate::proofs::ImportLaws::due_now, crate::proofs::ImportLaws::due_later))]
fn after_row(every: u32, since: u32) -> (u32, NextCommand)
    requires { IsSince every since }
    ensures since { IsSince every result.0 }
    ensures next { result.1 ≡ next_behind (is_save_due every (since + 1)) }
    ensures rows { (name : List ℕ) (rows : List (List Field)) →
        row_commands name every (since + 1) rows ≡ row_commands name every result.0 rows }
{
    if every == 0 {
        (0, NextCommand::Row)
    } else if since + 1 == every {
        (0, NextCommand::Save)
    } else {
        (since + 1, NextCommand::Row)
    }
}

impl<'a> ImportScript<'a> {
    /// The next command, or None after the last one.
    pub fn next_command(&mut self) -> Result<Option<Command>, NoMemory>
        ensures command { IfOk result (λ command. TakesFirst self.old command self.new) }
        ensures failed { OnErr result (self.new ≡ None) }
    {
        let next = self.next;
        self.next = NextCommand::Failed;
        match next {
            NextCommand::Failed => Err(NoMemory),
            NextCommand::Tree => {
                let command = tree_command(self.alloc, self.name, self.branches)?;
                self.next = NextCommand::Row;
                Ok(Some(command))
            }
            NextCommand::Save => {
                let command = save_command(self.alloc, self.name)?;
                self.next = NextCommand::Row;
                Ok(Some(command))
            }
            NextCommand::Row => match self.rows.next_row()? {
                None => {
                    self.next = NextCommand::Row;
                    Ok(None)
                }
                Some(row) => {
                    let command = fill_command(self.alloc, self.name, row)?;
                    let (since, next) = after_row(self.every, self.since);
                    self.since = since;
                    self.next = next;
                    Ok(Some(command))
                }
            },
        }
    }
}
