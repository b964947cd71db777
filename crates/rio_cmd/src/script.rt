//! The commands of a script, line after line.
ghost use Rattle.std.specs.Prelude.{◌≡◌, ◌<◌, ◌^◌, length, IfOk};
ghost use Rattle.rio_step.specs.Script.{line_command, script_of};

use crate::command::read_command;
use crate::lines::{is_command_line, split_line};
use rio_machine::{Command, Commands};
use rio_num::NoMemory;
use rio_token::{TextFault, Tokens};
use std::alloc::Global;

/// The commands of a script: one for each line but the empty ones and those that begin with `#`. Lines
/// end with a line feed, before which one carriage return is dropped; the last one may lack it. They are
/// counted from 1. A line that is no command gives `Bad` with its number and the place of the first token
/// that can't stand there, counted from 0, or the line's length where it ends too early.
pub fn read_script(alloc: Global, bytes: &[u8]) -> Result<Commands, NoMemory>
    requires { length bytes.now < 2 ^ 32 }
    ensures { IfOk result (λ commands. commands ≡ script_of bytes.now) }
{
    let mut commands = Commands::new(alloc);
    let mut passed: u32 = 0;
    let mut rest = bytes;
    while let Some((line, behind)) = split_line(rest) {
        if is_command_line(line) {
            commands.push(read_line(alloc, passed + 1, line)?)?;
        }
        passed += 1;
        rest = behind;
    }
    Ok(commands)
}

/// The command of the line that has this number.
#[tactic(auto, unfolding(rio_step::specs::Script::line_command))]
pub(crate) fn read_line(alloc: Global, number: u32, line: &[u8]) -> Result<Command, NoMemory>
    requires { length line.now < 2 ^ 32 }
    ensures { IfOk result (λ command. command ≡ line_command number line.now) }
{
    let mut tokens = Tokens::new(line, 0);
    match read_command(alloc, &mut tokens) {
        Ok(command) => Ok(command),
        Err(TextFault::BadText { place }) => Ok(Command::Bad {
            line: number,
            place,
        }),
        Err(TextFault::NoMemory) => Err(NoMemory),
    }
}
