//! Reading one leaf from left to right, token after token.
use crate::LeafFault;
use rio_num::{blanks, word_length};
use std::marker::Model;

/// Where reading stands in the text of a leaf.
#[derive(Drop)]
pub(crate) struct Scan<'a> {
    rest: &'a [u8],
    place: usize,
}

impl<'a> Model for Scan<'a> {
    ghost use Rattle.std.specs.Prelude.{◌+◌, ◌<◌, ◌^◌, length};
    ghost use Rattle.rio_num.specs.At.{At};

    ghost Value = { At };

    ghost view = { λ scan. record { place = scan.place; rest = scan.rest.now } };

    ghost invariant = { λ scan. scan.place + length scan.rest.now < 2 ^ 32 };
}

impl<'a> Scan<'a> {
    ghost use Rattle.std.specs.Prelude.{◌≡◌, ◌+◌, ◌<◌, ◌^◌, ◌==◌, length, take, if◌then◌else◌};
    ghost use Rattle.std.specs.List.{prefix_len};
    ghost use Rattle.rio_num.specs.Reading.{skip, Takes};
    ghost use Rattle.rio_num.specs.Word.{is_blank_byte};
    ghost use Rattle.rio_leaf.specs.Reading.{begins_with, byte_at, from_place, no_more_at, word_length};

    /// Reads these bytes, the first of which stands at `place`.
    pub(crate) fn new(bytes: &'a [u8], place: usize) -> Scan<'a>
        requires { place + length bytes.now < 2 ^ 32 }
        ensures { result ≡ from_place place bytes.now }
    {
        Scan { rest: bytes, place }
    }

    /// The next word, or none of its bytes where no word comes.
    pub(crate) fn word(&self) -> &'a [u8]
        ensures { result.now ≡ take (word_length self.now.rest) self.now.rest }
    {
        &self.rest[..word_length(self.rest)]
    }

    /// Passes over the next word.
    pub(crate) fn pass_word(&mut self)
        ensures { self.new ≡ skip (word_length self.old.rest) self.old }
    {
        let n = word_length(self.rest);
        self.rest = &self.rest[n..];
        self.place += n;
    }

    /// The fault of the next token, which can't stand where it does.
    pub(crate) fn bad(&self) -> LeafFault
        ensures { result
            ≡ LeafFault.BadLeaf (self.now.place + prefix_len is_blank_byte self.now.rest) }
    {
        LeafFault::BadLeaf {
            place: (self.place + blanks(self.rest)) as u32,
        }
    }

    /// Passes over this byte, if it comes next.
    pub(crate) fn take(&mut self, byte: u8) -> bool
        ensures value { result ≡ begins_with byte self.old.rest }
        ensures state { self.new ≡ (if result then skip 1 self.old else self.old) }
    {
        match self.rest {
            [first, rest @ ..] if *first == byte => {
                self.rest = rest;
                self.place += 1;
                true
            }
            _ => false,
        }
    }

    /// Passes over this byte.
    #[tactic(auto, unfolding(crate::specs::Reading::byte_at))]
    pub(crate) fn expect(&mut self, byte: u8) -> Result<(), LeafFault>
        ensures { Takes (λ _. tt) result (byte_at byte self.old) self.old self.new }
    {
        if self.take(byte) {
            Ok(())
        } else {
            Err(self.bad())
        }
    }

    /// Nothing is left.
    #[tactic(auto, unfolding(crate::specs::Reading::no_more_at))]
    pub(crate) fn expect_end(&self) -> Result<(), LeafFault>
        ensures { Takes (λ _. tt) result (no_more_at self.now) self.now self.now }
    {
        if self.rest.is_empty() {
            Ok(())
        } else {
            Err(self.bad())
        }
    }
}
