//! Reading token after token.
ghost use Rattle.std.specs.Prelude.{◌≡◌, ◌≤◌, drop, length};
ghost use Rattle.rio_token.specs.Quoted.{quoted};
ghost use Rattle.rio_token.specs.Tokens.{IsScan, scan_of};
ghost use Rattle.rio_token.specs.declared.quoted.Within.TheVariants.{Between};

use crate::quoted::spelled;
use crate::scan::{Scanned, scan};
use crate::words::{parse_num, parse_num_between};
use crate::{TextFault, Token};
use rio_num::{Name, bytes_from, is_item, is_name};
use std::alloc::Global;
use std::marker::Model;

// The bytes of the next token, a word.
fn word_bytes(rest: &[u8], next: Scanned) -> &[u8]
    requires scan { IsScan next (scan_of rest.now) }
    requires within { (next.start ≤ next.stop) × (next.stop ≤ length rest.now) }
    requires word { next.token ≡ Token.Word }
    ensures { result.now ≡ (scan_of rest.now).bytes }
{
    &rest[next.start..next.stop]
}

// The bytes behind the opening quote of the next token, a string.
fn behind_quote(rest: &[u8], next: Scanned) -> &[u8]
    requires scan { IsScan next (scan_of rest.now) }
    requires within { (next.start ≤ next.stop) × (next.stop ≤ length rest.now) }
    requires text { next.token ≡ Token.Text }
    ensures { (quoted Between result.now).text ≡ (scan_of rest.now).bytes }
{
    behind_first(bytes_from(rest, next.start))
}

// The bytes but the first.
fn behind_first(bytes: &[u8]) -> &[u8]
    ensures { result.now ≡ drop 1 bytes.now }
{
    match bytes {
        [] => &[],
        [_, rest @ ..] => rest,
    }
}

/// Where reading stands in a text, and the token that comes next there.
#[derive(Drop)]
pub struct Tokens<'a> {
    rest: &'a [u8],
    place: u32,
    next: Scanned,
}

impl<'a> Model for Tokens<'a> {
    ghost use Rattle.std.specs.Prelude.{◌≡◌, ◌+◌, ◌<◌, ◌≤◌, ◌^◌, length};
    ghost use Rattle.rio_num.specs.At.{At};
    ghost use Rattle.rio_token.specs.Tokens.{IsScan, scan_of};

    ghost Value = { At };

    ghost view = { λ tokens. record { place = tokens.place; rest = tokens.rest.now } };

    ghost invariant = { λ tokens. (tokens.place + length tokens.rest.now < 2 ^ 32)
        × IsScan tokens.next (scan_of tokens.rest.now)
        × (tokens.next.stop ≤ length tokens.rest.now)
        × (tokens.next.start ≤ tokens.next.stop) };
}

impl<'a> Tokens<'a> {
    ghost use Rattle.std.specs.Prelude.{◌≡◌, ◌+◌, ◌<◌, ◌≤◌, ◌^◌, length, IfOk, if◌then◌else◌};
    ghost use Rattle.std.specs.Option.{option_copied};
    ghost use Rattle.rio_token.specs.Tokens.{behind, is_glued, next_at, standing_in, token_place};
    ghost use Rattle.rio_num.specs.Reading.{Takes};
    ghost use Rattle.rio_token.specs.Reading.{TakesInMemory, end_at, item_at, keyword_at, mark_at, marked, name_at, next_word, num_at, num_between_at, string_at, word_at};

    /// Reads from the byte at `place` on, or from the text's end where that is before.
    pub fn new(text: &'a [u8], place: u32) -> Tokens<'a>
        requires { length text.now < 2 ^ 32 }
        ensures { result ≡ standing_in place text.now }
    {
        let start = (place as usize).min(text.len());
        let rest = &text[start..];
        Tokens {
            rest,
            place: start as u32,
            next: scan(rest),
        }
    }

    /// The place behind the last token.
    pub fn place(&self) -> u32
        ensures { result ≡ self.now.place }
    {
        self.place
    }

    /// How many bytes are left.
    pub fn left(&self) -> usize
        ensures { result ≡ length self.now.rest }
    {
        self.rest.len()
    }

    /// The kind of the next token.
    pub fn peek(&self) -> Token
        ensures { result ≡ (next_at self.now).token }
    {
        self.next.token
    }

    /// Whether the next token follows directly, with no blank before it.
    pub fn is_glued(&self) -> bool
        ensures { result ≡ is_glued self.now }
    {
        self.next.start == 0
    }

    /// The same place in the same text, for a call that goes on only where all is read.
    pub fn copy(&self) -> Tokens<'a>
        ensures { result ≡ self.now }
    {
        Tokens {
            rest: self.rest,
            place: self.place,
            next: self.next,
        }
    }

    /// The fault of the next token, which can't stand where it does.
    pub fn bad(&self) -> TextFault
        ensures { result ≡ TextFault.BadText (token_place self.now) }
    {
        TextFault::BadText {
            place: self.place + self.next.start as u32,
        }
    }

    /// The next token, where it is a word.
    pub fn peek_word(&self) -> Option<&'a [u8]>
        ensures { option_copied result ≡ next_word self.now }
    {
        match self.next.token {
            Token::Word => Some(word_bytes(self.rest, self.next)),
            _ => None,
        }
    }

    /// Passes over the next token.
    pub fn pass(&mut self)
        ensures { self.new ≡ behind self.old }
    {
        self.rest = &self.rest[self.next.stop..];
        self.place += self.next.stop as u32;
        self.next = scan(self.rest);
    }

    /// Passes over this byte of punctuation, if it comes next.
    pub fn take_mark(&mut self, mark: u8) -> bool
        ensures value { result ≡ marked mark self.old }
        ensures state { self.new ≡ (if result then behind self.old else self.old) }
    {
        match self.next.token {
            Token::Mark(next) if next == mark => {
                self.pass();
                true
            }
            _ => false,
        }
    }

    /// Passes over this byte of punctuation.
    #[tactic(auto, unfolding(crate::specs::Reading::mark_at))]
    pub fn expect_mark(&mut self, mark: u8) -> Result<(), TextFault>
        ensures { Takes (λ _. tt) result (mark_at mark self.old) self.old self.new }
    {
        if self.take_mark(mark) {
            Ok(())
        } else {
            Err(self.bad())
        }
    }

    /// The next token, a word.
    #[tactic(auto, unfolding(crate::specs::Reading::word_at))]
    pub fn take_word(&mut self) -> Result<&'a [u8], TextFault>
        ensures { Takes (λ word. word.now) result (word_at self.old) self.old self.new }
    {
        match self.peek_word() {
            Some(word) => {
                self.pass();
                Ok(word)
            }
            None => Err(self.bad()),
        }
    }

    /// The next token, the name of a class, a member or a leaf.
    #[tactic(auto, unfolding(crate::specs::Reading::word_that_at))]
    pub fn take_name(&mut self) -> Result<&'a [u8], TextFault>
        ensures { Takes (λ word. word.now) result (name_at self.old) self.old self.new }
    {
        match self.peek_word() {
            Some(word) if is_name(word) => {
                self.pass();
                Ok(word)
            }
            _ => Err(self.bad()),
        }
    }

    /// The next token, the name of an object or a tree.
    #[tactic(auto, unfolding(crate::specs::Reading::word_that_at))]
    pub fn take_item(&mut self) -> Result<&'a [u8], TextFault>
        ensures { Takes (λ word. word.now) result (item_at self.old) self.old self.new }
    {
        match self.peek_word() {
            Some(word) if is_item(word) => {
                self.pass();
                Ok(word)
            }
            _ => Err(self.bad()),
        }
    }

    /// Passes over this word.
    #[tactic(auto, unfolding(crate::specs::Reading::word_that_at))]
    pub fn expect_word(&mut self, keyword: &[u8]) -> Result<(), TextFault>
        ensures { Takes (λ _. keyword.now) result
            (keyword_at keyword.now self.old) self.old self.new }
    {
        match self.peek_word() {
            Some(word) if word == keyword => {
                self.pass();
                Ok(())
            }
            _ => Err(self.bad()),
        }
    }

    /// The next token, a number up to 4,294,967,295.
    #[tactic(auto, unfolding(crate::specs::Reading::num_at))]
    pub fn take_num(&mut self) -> Result<u32, TextFault>
        ensures { Takes (λ n. n) result (num_at self.old) self.old self.new }
    {
        match self.peek_word().and_then(parse_num) {
            Some(n) => {
                self.pass();
                Ok(n)
            }
            None => Err(self.bad()),
        }
    }

    /// The next token, a number from `low` to `high`.
    #[tactic(auto, unfolding(crate::specs::Reading::num_between_at))]
    pub fn take_num_between(&mut self, low: u32, high: u32) -> Result<u32, TextFault>
        ensures exact { Takes (λ n. n) result (num_between_at low high self.old) self.old self.new }
        ensures between { IfOk result (λ n. (low ≤ n) × (n ≤ high)) }
    {
        match self.peek_word() {
            Some(word) => match parse_num_between(word, low, high) {
                Some(n) => {
                    self.pass();
                    Ok(n)
                }
                None => Err(self.bad()),
            },
            None => Err(self.bad()),
        }
    }

    /// What the next token spells, a string. Here the fault of one that isn't ended has the text's length.
    #[tactic(auto, unfolding(crate::specs::Reading::string_at))]
    pub fn take_text(&mut self, alloc: Global) -> Result<Name, TextFault>
        ensures { TakesInMemory (λ text. text) result (string_at self.old) self.old self.new }
    {
        match self.next.token {
            Token::Text => {
                let text = spelled(alloc, behind_quote(self.rest, self.next))?;
                self.pass();
                Ok(text)
            }
            Token::Cut => Err(TextFault::BadText {
                place: self.place + self.rest.len() as u32,
            }),
            _ => Err(self.bad()),
        }
    }

    /// Passes over the blanks that are left, if nothing else is.
    #[tactic(auto, unfolding(crate::specs::Reading::end_at))]
    pub fn expect_end(&mut self) -> Result<(), TextFault>
        ensures { Takes (λ _. tt) result (end_at self.old) self.old self.new }
    {
        match self.next.token {
            Token::End => {
                self.pass();
                Ok(())
            }
            _ => Err(self.bad()),
        }
    }
}
