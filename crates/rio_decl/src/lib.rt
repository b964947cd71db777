//! Classes as the text of their declarations. Its tests stand in `rio_rows`.
//!
//! `print_class` prints a class as its declaration, `read_class` reads a text as one, and `take_class` what stands next
//! among some tokens; both answer a `TextFault` at the first token that can't stand. `is_stated` tells whether a
//! declaration can give a class, and `checksum` is the sum over its declaration by which a file names it.
//!
//! The definitions stand in `rio_model`: `ClassText` (printed), `ClassGrammar` (read), `ClassSpelling` (as tokens spell
//! it) and `Stated`, with the laws that tie them.
#![tactic(auto)]

mod known;
mod print;
mod read;
mod read_kind;
mod stated;
mod sum;

pub use print::print_class;
pub use read::{read_class, take_class};
pub use rio_token::TextFault;
pub use stated::is_stated;
pub use sum::checksum;
