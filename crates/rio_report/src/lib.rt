//! The verbs that read a file: what they say of it, by calls of the host that only read. `say_ls` lists the keys, `say_dump`
//! the classes and each object with its value, and `say_scan` the rows of a tree: it goes over the baskets and then over the
//! entries to find which branches can't be read, where it makes no values but numbers, one for each leaf: of branches that
//! count leaves of others, which it keeps up to the end of the row, and of a branch with counted leaves while its entry is
//! checked; where the objects of a class are asked in a version, once more to find whether all rows can be had so; and over
//! the entries again to say the rows, as lists or as CSV. Beside the key list and the classes one record is held, or the tree's
//! head, one basket of each branch and the values of one row.
//!
//! [`summarize_tree`] sums up a tree and says nothing.
//!
//! What they say is defined in `specs/`: `Described` (the classes that a file describes), `FirstFault` (the first rule that a file
//! breaks of those that a verb tests), `Dump`, `Item` (a key by its name and cycle), and of a tree `RowTexts` (a row as it is
//! printed), `RowForms` (rows in another version and as CSV, and why they can't be had), `Scan` and `Summary`. Which branches aren't read, and
//! the rows of a tree, are defined in `rio_entry`, where the walk over them stands.
#![tactic(auto)]

mod content;
mod described;
mod dump;
mod item;
mod ls;
mod pieces;
mod row_form;
mod row_refusal;
mod scan;
mod scan_rows;
mod scan_text;
mod summary;
mod tree_line;
mod versions;

pub use dump::say_dump;
pub use item::Item;
pub use ls::{key_listing, say_ls};
pub use rio_close::ReportFault;
pub use scan::say_scan;
pub use summary::{TreeSummary, summarize_tree};
