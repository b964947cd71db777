//! Rows of a tree as CSV.
//!
//! [`print_row`] puts the line at the end that the crate `csv` writes of a row, [`read_rows`] gives the rows of a text as that
//! crate reads it, without a header, and a [`RowReader`] gives them one by one. A field is the text of one value: a text is its
//! own bytes, and any other value is printed as `print_value` of `rio_valtext` prints it. What a field is read as, its leaf's
//! letter tells. An [`ImportScript`] gives the commands that import a text: a tree, a fill for each row, and saves.
//!
//! `specs/Fields.antt` has the fields both ways, `specs/Rows.antt` the rows of a text, `specs/Unread.antt` those that are left of
//! one, and `specs/Import.antt` the commands. Lines that are printed are read as their rows ([`printed_rows_are_read`]), and bad
//! rows fit no tree ([`bad_rows_do_not_fit`]).
#![tactic(auto)]

mod field;
mod import;
mod laws;
mod print;
mod read;
mod reader;

pub use import::{ImportScript, import_script};
pub use laws::{bad_rows_do_not_fit, printed_rows_are_read};
pub use print::print_row;
pub use reader::{RowReader, read_rows};
