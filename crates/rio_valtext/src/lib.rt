//! Values as text. Its tests stand in `rio_rows`.
//!
//! `print_value` prints a value on one line. `read_value` reads the value that a text spells at a place, `take_value`,
//! `take_inner_value` and `take_values` what stands next among some tokens, or they answer a `TextFault` at the first token that can't stand. A
//! text may leave versions of objects open: `resolve`, `resolved` and `resolved_row` fill them in by the known classes,
//! or answer a `ResolveFault`.
//!
//! The definitions stand in `rio_model`: `ValueText` (printed), `ValueGrammar` (read), `ValueSpelling` (as tokens spell
//! it) and `Resolving`. `specs/Stored.antt` says what a file stores, of which `stored_values_are_read` tells.
#![tactic(auto)]

mod laws;
mod print;
mod read;
mod resolving;

pub use laws::stored_values_are_read;
pub use print::print_value;
pub use read::{read_value, take_inner_value, take_value, take_values};
pub use resolving::{
    ResolveFault, resolve, resolved, resolved_has_versions, resolved_row, resolved_stays,
};
pub use rio_token::TextFault;
