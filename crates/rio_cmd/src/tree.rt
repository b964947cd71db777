//! Commands of trees, behind their verbs.
ghost use Rattle.std.specs.Prelude.{◌≡◌};
ghost use Rattle.rio_token.specs.Reading.{Reads};
ghost use Rattle.rio_step.specs.Script.{asked_class_at, class_version_in, ended_at, fill_command_at, save_command_at, scan_command_at, tree_command_at};

use crate::branches::read_branches;
use crate::command::take_keyword;
use rio_format::Base;
use rio_machine::Command;
use rio_num::Name;
use rio_token::{TextFault, Tokens};
use rio_valtext::take_values;
use std::alloc::Global;

#[tactic(auto, unfolding(rio_step::specs::Script::tree_command_at))]
pub(crate) fn read_tree(alloc: Global, tokens: &mut Tokens) -> Result<Command, TextFault>
    ensures { Reads (λ c. c) result (ended_at (tree_command_at tokens.old)) tokens.new }
{
    let name = tokens.take_item()?;
    let branches = read_branches(alloc, tokens)?;
    tokens.expect_end()?;
    let name = Name::from_slice(alloc, name)?;
    Ok(Command::Tree { name, branches })
}

#[tactic(auto, unfolding(rio_step::specs::Script::fill_command_at))]
pub(crate) fn read_fill(alloc: Global, tokens: &mut Tokens) -> Result<Command, TextFault>
    ensures { Reads (λ c. c) result (ended_at (fill_command_at tokens.old)) tokens.new }
{
    let name = tokens.take_item()?;
    let row = take_values(alloc, tokens)?;
    tokens.expect_end()?;
    let name = Name::from_slice(alloc, name)?;
    Ok(Command::Fill { name, row })
}

#[tactic(auto, unfolding(rio_step::specs::Script::save_command_at))]
pub(crate) fn read_save(alloc: Global, tokens: &mut Tokens) -> Result<Command, TextFault>
    ensures { Reads (λ c. c) result (ended_at (save_command_at tokens.old)) tokens.new }
{
    let name = tokens.take_item()?;
    tokens.expect_end()?;
    let name = Name::from_slice(alloc, name)?;
    Ok(Command::Save { name })
}

// A class and its version, behind `as`.
#[tactic(auto, unfolding(rio_step::specs::Script::class_version_in))]
fn read_class_version(alloc: Global, tokens: &mut Tokens) -> Result<Option<Base>, TextFault>
    ensures { Reads (λ class. class) result (class_version_in tokens.old) tokens.new }
{
    let name = tokens.take_name()?;
    tokens.expect_mark(b'#')?;
    let version = tokens.take_num_between(1, 32_767)?;
    let name = Name::from_slice(alloc, name)?;
    Ok(Some(Base {
        name,
        version: version as i32,
    }))
}

// The class behind `as`, if one is asked.
#[tactic(auto, unfolding(rio_step::specs::Script::asked_class_at))]
fn read_asked_class(alloc: Global, tokens: &mut Tokens) -> Result<Option<Base>, TextFault>
    ensures { Reads (λ class. class) result (asked_class_at tokens.old) tokens.new }
{
    if take_keyword(tokens, b"as") {
        read_class_version(alloc, tokens)
    } else {
        Ok(None)
    }
}

#[tactic(auto, unfolding(rio_step::specs::Script::scan_command_at))]
pub(crate) fn read_scan(alloc: Global, tokens: &mut Tokens) -> Result<Command, TextFault>
    ensures { Reads (λ c. c) result (ended_at (scan_command_at tokens.old)) tokens.new }
{
    let name = tokens.take_item()?;
    let class = read_asked_class(alloc, tokens)?;
    tokens.expect_end()?;
    let name = Name::from_slice(alloc, name)?;
    Ok(Command::Scan { name, class })
}
