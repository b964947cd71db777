//! A tree of a file, as a word of the command line names it.
use std::marker::Model;

/// A tree as a word names it.
#[derive(Debug, Drop)]
pub struct TreeWord<'a> {
    pub name: &'a [u8],
}

impl<'a> Model for TreeWord<'a> {
    ghost use Rattle.std.specs.Prelude.{ℕ, List};

    ghost Value = { List ℕ };

    ghost view = { λ word. word.name.now };
}
