//! Tokens of the script language: words, strings and punctuation, and the words that are names or numbers.
//!
//! `Tokens` stands in a text before its next `Token`. `peek` looks at it, each take passes over a token of its kind, or
//! answers the `TextFault` of the first token that can't stand, with its place, and stays where it was. `parse_num`,
//! `parse_number` and `parse_bits` read a word by itself.
//!
//! What a token is stands in `specs/Tokens.antt`, strings in `Quoted.antt`, numbers in `Words.antt`, the bytes by their
//! names in `Marks.antt`, and reading from left to right, by which the grammars above are said, in `Reading.antt`. Its
//! tests stand in `rio_rows`.
#![tactic(auto)]

mod fault;
mod laws;
mod quoted;
mod scan;
mod token;
mod tokens;
mod words;

pub use fault::TextFault;
pub use laws::{printed_integers_are_read, printed_strings_are_read, takes_go_on_in_the_text};
pub use token::Token;
pub use tokens::Tokens;
pub use words::{Bits, parse_bits, parse_num, parse_num_between, parse_number};
