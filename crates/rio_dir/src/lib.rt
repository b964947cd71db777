//! What stands at the front of a closed file: its header, its directory record and its key list, what they
//! are together, and the first rule that they break; and the key table, a map from name and cycle in the order
//! of the key list, in which a binary search finds a key, and from which the list is written. The definitions
//! stand in `specs/`: `Closed` (what is read of a file), `Grammar` (what stands where, and the laws that tie
//! the two), `Listing` (what `ls` says of it) and `Table` (the order, what each call of the table answers, and
//! the written list), `TableMap` (that the table is a map). `begins_unborn` tells whether a file is made yet
//! (`specs/Unborn.antt`). Its tests stand in `rio_rows`.
#![tactic(auto)]

mod closed;
mod laws;
mod list;
mod table;
mod unborn;
mod write;

pub use closed::Closed;
pub use laws::{
    closed_file_is_spelled, key_table_is_a_map, one_listing, written_key_list_is_spelled,
};
pub use list::read_key_list;
pub use rio_key::{Heads, ListFault, read_heads};
pub use table::KeyTable;
pub use unborn::begins_unborn;
pub use write::write_key_list;
