//! Strings in double quotes, byte after byte.
ghost use Rattle.std.specs.Prelude.{◌≡◌, ℕ, ◌≤◌, ◌<◌, length, IfOk, IfSome};
ghost use Rattle.rio_token.specs.Quoted.{hex_value, quoted, step_of};

use rio_num::{Name, NoMemory};
use std::alloc::Global;

/// How far reading came within a string.
#[derive(Clone, Copy)]
pub(crate) enum Within {
    /// Between two bytes that the string spells.
    Between,
    /// Behind a backslash.
    Escape,
    /// Behind `\x`.
    High,
    /// Behind `\x` and this digit.
    Low(u8),
}

/// What a byte does within a string.
#[derive(Clone, Copy)]
pub(crate) enum Step {
    Goes(Within),
    Spells(u8),
    Closes,
    Breaks,
}

/// How a string ends.
#[derive(Clone, Copy)]
pub(crate) enum Ending {
    /// By its closing quote, behind so many bytes with it.
    Closed(usize),
    /// By a byte that can't stand in it.
    Broken,
    /// Not at all.
    Unended,
}

/// The value of a digit 0 to 9 or a to f.
pub(crate) fn hex_digit(byte: u8) -> Option<u8>
    ensures value { result ≡ hex_value byte }
    ensures small { IfSome result (λ n. n < 16) }
{
    match byte {
        b'0'..=b'9' => Some(byte - b'0'),
        b'a'..=b'f' => Some(byte - b'a' + 10),
        _ => None,
    }
}

fn step_at(within: Within, byte: u8) -> Step
    ensures { result ≡ step_of within byte }
{
    match within {
        Within::Between => match byte {
            b'"' => Step::Closes,
            b'\\' => Step::Goes(Within::Escape),
            0x20..=0x7e => Step::Spells(byte),
            _ => Step::Breaks,
        },
        Within::Escape => match byte {
            b'"' | b'\\' => Step::Spells(byte),
            b'n' => Step::Spells(b'\n'),
            b't' => Step::Spells(b'\t'),
            b'x' => Step::Goes(Within::High),
            _ => Step::Breaks,
        },
        Within::High => match hex_digit(byte) {
            Some(_) => Step::Goes(Within::Low(byte)),
            None => Step::Breaks,
        },
        Within::Low(high) => match (hex_digit(high), hex_digit(byte)) {
            (Some(high), Some(low)) => Step::Spells(16 * high + low),
            _ => Step::Breaks,
        },
    }
}

/// How the string ends that begins before these bytes with its opening quote.
pub(crate) fn ending_in(bytes: &[u8]) -> Ending
    ensures value { result ≡ (quoted Within.Between bytes.now).ending }
    ensures within { (n : ℕ) → result ≡ Ending.Closed n → n ≤ length bytes.now }
{
    let mut within = Within::Between;
    for (i, byte) in bytes.iter().enumerate() {
        match step_at(within, *byte) {
            Step::Goes(next) => within = next,
            Step::Spells(_) => within = Within::Between,
            Step::Closes => return Ending::Closed(i + 1),
            Step::Breaks => return Ending::Broken,
        }
    }
    Ending::Unended
}

/// What the string spells that begins before these bytes with its opening quote.
pub(crate) fn spelled(alloc: Global, bytes: &[u8]) -> Result<Name, NoMemory>
    ensures { IfOk result (λ text. text ≡ (quoted Within.Between bytes.now).text) }
{
    let mut text = Name::new(alloc);
    let mut within = Within::Between;
    for byte in bytes {
        match step_at(within, *byte) {
            Step::Goes(next) => within = next,
            Step::Spells(spelled) => {
                text.push(spelled)?;
                within = Within::Between;
            }
            Step::Closes | Step::Breaks => return Ok(text),
        }
    }
    Ok(text)
}
