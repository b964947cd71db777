//! The command of one line, by its first word.
ghost use Rattle.std.specs.Prelude.{◌≡◌, if◌then◌else◌};
ghost use Rattle.rio_token.specs.Reading.{Reads};
ghost use Rattle.rio_token.specs.Tokens.{behind};
ghost use Rattle.rio_step.specs.Script.{asked_version_at, class_command_at, command_at, comes_next, cycle_at, delete_command_at, ended_at, get_command_at, put_command_at};

use crate::batch::read_batch;
use crate::tree::{read_fill, read_save, read_scan, read_tree};
use rio_decl::take_class;
use rio_machine::Command;
use rio_num::Name;
use rio_token::{TextFault, Tokens};
use rio_valtext::take_value;
use std::alloc::Global;

/// The command that the tokens of a line spell, up to its end. `BadText` names the first token that can't
/// stand there. Each verb has a reader of its own, which begins after the verb, but for a declaration's,
/// which begins with it.
#[tactic(auto, unfolding(rio_step::specs::Script::command_at))]
pub(crate) fn read_command(alloc: Global, tokens: &mut Tokens) -> Result<Command, TextFault>
    ensures { Reads (λ c. c) result (command_at tokens.old) tokens.new }
{
    if is_keyword_next(tokens, b"class") {
        read_class(alloc, tokens)
    } else if take_keyword(tokens, b"put") {
        read_put(alloc, tokens)
    } else if take_keyword(tokens, b"batch") {
        read_batch(alloc, tokens)
    } else if take_keyword(tokens, b"delete") {
        read_delete(alloc, tokens)
    } else if take_keyword(tokens, b"tree") {
        read_tree(alloc, tokens)
    } else if take_keyword(tokens, b"fill") {
        read_fill(alloc, tokens)
    } else if take_keyword(tokens, b"save") {
        read_save(alloc, tokens)
    } else if take_keyword(tokens, b"get") {
        read_get(alloc, tokens)
    } else if take_keyword(tokens, b"scan") {
        read_scan(alloc, tokens)
    } else if take_keyword(tokens, b"ls") {
        read_ls(tokens)
    } else {
        Err(tokens.bad())
    }
}

// Whether this word comes next.
pub(crate) fn is_keyword_next(tokens: &Tokens, keyword: &[u8]) -> bool
    ensures { result ≡ comes_next keyword.now tokens.now }
{
    match tokens.peek_word() {
        Some(word) => word == keyword,
        None => false,
    }
}

// Passes over this word, if it comes next.
pub(crate) fn take_keyword(tokens: &mut Tokens, keyword: &[u8]) -> bool
    ensures value { result ≡ comes_next keyword.now tokens.old }
    ensures state { tokens.new ≡ (if result then behind tokens.old else tokens.old) }
{
    if is_keyword_next(tokens, keyword) {
        tokens.pass();
        true
    } else {
        false
    }
}

pub(crate) fn read_class(alloc: Global, tokens: &mut Tokens) -> Result<Command, TextFault>
    ensures { Reads (λ c. c) result (class_command_at tokens.old) tokens.new }
{
    Ok(Command::Class(take_class(alloc, tokens)?))
}

#[tactic(auto, unfolding(rio_step::specs::Script::put_command_at))]
pub(crate) fn read_put(alloc: Global, tokens: &mut Tokens) -> Result<Command, TextFault>
    ensures { Reads (λ c. c) result (ended_at (put_command_at tokens.old)) tokens.new }
{
    let name = tokens.take_item()?;
    let value = take_value(alloc, tokens)?;
    tokens.expect_end()?;
    let name = Name::from_slice(alloc, name)?;
    Ok(Command::Put { name, value })
}

#[tactic(auto, unfolding(rio_step::specs::Script::delete_command_at))]
pub(crate) fn read_delete(alloc: Global, tokens: &mut Tokens) -> Result<Command, TextFault>
    ensures { Reads (λ c. c) result (ended_at (delete_command_at tokens.old)) tokens.new }
{
    let name = tokens.take_item()?;
    tokens.expect_mark(b';')?;
    let cycle = tokens.take_num()?;
    tokens.expect_end()?;
    let name = Name::from_slice(alloc, name)?;
    Ok(Command::Delete { name, cycle })
}

// The cycle behind a name, if one is named.
#[tactic(auto, unfolding(rio_step::specs::Script::cycle_at))]
fn read_cycle(tokens: &mut Tokens) -> Result<Option<u32>, TextFault>
    ensures { Reads (λ cycle. cycle) result (cycle_at tokens.old) tokens.new }
{
    if tokens.take_mark(b';') {
        Ok(Some(tokens.take_num()?))
    } else {
        Ok(None)
    }
}

// The version behind `as`, if one is asked.
#[tactic(auto, unfolding(rio_step::specs::Script::asked_version_at))]
fn read_asked_version(tokens: &mut Tokens) -> Result<Option<i32>, TextFault>
    ensures { Reads (λ version. version) result (asked_version_at tokens.old) tokens.new }
{
    if take_keyword(tokens, b"as") {
        let version = tokens.take_num_between(1, 32_767)?;
        Ok(Some(version as i32))
    } else {
        Ok(None)
    }
}

#[tactic(auto, unfolding(rio_step::specs::Script::get_command_at))]
pub(crate) fn read_get(alloc: Global, tokens: &mut Tokens) -> Result<Command, TextFault>
    ensures { Reads (λ c. c) result (ended_at (get_command_at tokens.old)) tokens.new }
{
    let name = tokens.take_item()?;
    let cycle = read_cycle(tokens)?;
    let version = read_asked_version(tokens)?;
    tokens.expect_end()?;
    let name = Name::from_slice(alloc, name)?;
    Ok(Command::Get {
        name,
        cycle,
        version,
    })
}

pub(crate) fn read_ls(tokens: &mut Tokens) -> Result<Command, TextFault>
    ensures { Reads (λ c. c) result (ended_at (Ok (Command.Ls, tokens.old))) tokens.new }
{
    tokens.expect_end()?;
    Ok(Command::Ls)
}
