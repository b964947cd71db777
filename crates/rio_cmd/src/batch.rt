//! The puts of a batch.
ghost use Rattle.std.specs.Prelude.{◌≡◌, length};
ghost use Rattle.rio_token.specs.Marks.{closing_brace};
ghost use Rattle.rio_token.specs.Reading.{Reads, more_at, some_at};
ghost use Rattle.rio_step.specs.Script.{batch_command_at, batch_put_at, ended_at};

use rio_machine::{Command, PutItem, Puts};
use rio_num::Name;
use rio_token::{TextFault, Tokens};
use rio_valtext::take_inner_value;
use std::alloc::Global;

#[tactic(auto, unfolding(rio_step::specs::Script::batch_put_at))]
fn read_put_item(alloc: Global, tokens: &mut Tokens) -> Result<PutItem, TextFault>
    ensures { Reads (λ p. p) result (batch_put_at tokens.old) tokens.new }
{
    let name = tokens.take_item()?;
    let value = take_inner_value(alloc, tokens)?;
    let name = Name::from_slice(alloc, name)?;
    Ok(PutItem { name, value })
}

fn read_more_puts(alloc: Global, tokens: &mut Tokens, mut puts: Puts) -> Result<Puts, TextFault>
    ensures { let left = length tokens.old.rest in
        Reads (λ ps. ps) result
        (more_at left closing_brace (λ before. batch_put_at) puts tokens.old) tokens.new }
{
    for _done in 0..tokens.left() {
        if tokens.take_mark(b'}') {
            return Ok(puts);
        }
        tokens.expect_mark(b',')?;
        let next = read_put_item(alloc, tokens)?;
        puts.push(next)?;
    }
    Err(tokens.bad())
}

// At least one put, and the closing brace.
#[tactic(auto, unfolding(rio_token::specs::Reading::some_at))]
fn read_puts(alloc: Global, tokens: &mut Tokens) -> Result<Puts, TextFault>
    ensures { Reads (λ ps. ps) result
        (some_at closing_brace (λ before. batch_put_at) tokens.old) tokens.new }
{
    let first = read_put_item(alloc, tokens)?;
    let mut puts = Puts::new(alloc);
    puts.push(first)?;
    read_more_puts(alloc, tokens, puts)
}

#[tactic(auto, unfolding(rio_step::specs::Script::batch_command_at))]
pub(crate) fn read_batch(alloc: Global, tokens: &mut Tokens) -> Result<Command, TextFault>
    ensures { Reads (λ c. c) result (ended_at (batch_command_at tokens.old)) tokens.new }
{
    tokens.expect_mark(b'{')?;
    let puts = read_puts(alloc, tokens)?;
    tokens.expect_end()?;
    Ok(Command::Batch { puts })
}
