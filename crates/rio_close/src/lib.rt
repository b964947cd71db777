//! A closed file: its header, its directory record and its key list, read and written.
//! [`open_closed`] reads them. [`close_records`] makes what a close writes, where there is room for
//! what [`close_length`] says, and [`write_close`] writes it: the key list, the free record, fields of
//! header and directory record, and last of all the word that says where the file ends. A stop at
//! any moment leaves a file that reads as before, and that is marked as open or closed whole.
//!
//! The definitions stand in `specs/`: `Opens` and `Causes` (what a call that reads answers, and why
//! it fails), `Written` (what a close writes), `Fields` (its last writes), `Leaving` (what a stop
//! leaves) and `EndWord` (a file whose header says another END). What a close needs is defined in
//! `rio_state`. Its tests stand in `rio_file_rows`.
#![tactic(auto)]

mod fault;
mod front;
mod keys;
mod laws;
mod making;
mod open;
mod parts;
mod record;
mod writing;

pub use fault::ReportFault;
pub use laws::{directory_in_front, end_is_ignored, mark_keeps_state};
pub use making::close_records;
pub use open::{open_closed, read_closed};
pub use parts::CloseRecords;
pub use record::{read_record, read_up_to};
pub use rio_dir::Closed;
pub use rio_state::{close_length, close_length_is_need};
pub use writing::write_close;
