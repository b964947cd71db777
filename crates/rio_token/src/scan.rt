//! The next token: its kind, and where it begins and ends.
ghost use Rattle.std.specs.Prelude.{◌+◌, ◌<◌, ◌≤◌, ◌^◌, length};
ghost use Rattle.rio_token.specs.Quoted.{quoted};
ghost use Rattle.rio_token.specs.declared.quoted.Within.TheVariants.{Between};
ghost use Rattle.rio_token.specs.Tokens.{IsScan, scan_from, scan_of, string_scan};

use crate::Token;
use crate::quoted::{Ending, ending_in};
use rio_num::{blanks, is_word_byte, word_length};

/// The next token, and how many bytes stand before it and before its end.
#[derive(Clone, Copy)]
pub(crate) struct Scanned {
    pub(crate) token: Token,
    pub(crate) start: usize,
    pub(crate) stop: usize,
}

/// The next token.
#[tactic(auto, unfolding(crate::specs::Tokens::scan_of))]
pub(crate) fn scan(bytes: &[u8]) -> Scanned
    ensures exact { IsScan result (scan_of bytes.now) }
    ensures within { result.stop ≤ length bytes.now }
    ensures forward { result.start ≤ result.stop }
{
    let start = blanks(bytes);
    scan_from(&bytes[start..], start)
}

// The token at the front, behind so many blanks.
fn scan_from(bytes: &[u8], start: usize) -> Scanned
    requires { start + length bytes.now < 2 ^ 64 }
    ensures exact { IsScan result (scan_from start bytes.now) }
    ensures within { result.stop ≤ start + length bytes.now }
    ensures forward { result.start ≤ result.stop }
{
    match bytes {
        [] => Scanned {
            token: Token::End,
            start,
            stop: start,
        },
        [first, ..] if is_word_byte(*first) => Scanned {
            token: Token::Word,
            start,
            stop: start + word_length(bytes),
        },
        [b'"', string @ ..] => scan_string(string, start),
        [first, ..] => Scanned {
            token: Token::Mark(*first),
            start,
            stop: start + 1,
        },
    }
}

// A string, whose opening quote stands before these bytes.
fn scan_string(bytes: &[u8], start: usize) -> Scanned
    requires { start + 1 + length bytes.now < 2 ^ 64 }
    ensures exact { let q = quoted Between bytes.now in
        IsScan result (string_scan start q.text q.ending) }
    ensures within { result.stop ≤ start + 1 + length bytes.now }
    ensures forward { result.start ≤ result.stop }
{
    match ending_in(bytes) {
        Ending::Closed(length) => Scanned {
            token: Token::Text,
            start,
            stop: start + 1 + length,
        },
        Ending::Broken => Scanned {
            token: Token::Bad,
            start,
            stop: start,
        },
        Ending::Unended => Scanned {
            token: Token::Cut,
            start,
            stop: start,
        },
    }
}
