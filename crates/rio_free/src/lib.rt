//! The gaps of a file. `FreeList` keeps them sorted by place, those that touch as one: `best` chooses one for a record,
//! `take` fills it from its front, and `give` adds a range of bytes; none of the three takes memory. `write_free` writes the
//! list as the data of the free record, and `read_free` reads such data, or tells their first fault and its place.
//! The definitions stand in `specs/`: `Gaps` (the list, the choice, and how it changes), `Record` (what is written of it),
//! `Entry` and `EntryList` (what is read), `Spelling` (the data as a grammar) and `Laws`. Its tests stand in
//! `rio_rows`.
#![tactic(auto)]

mod entry;
mod fault;
mod gap;
mod laws;
mod list;
mod read;
mod write;

pub use entry::FreeEntry;
pub use fault::FreeFault;
pub use gap::Gap;
pub use laws::{free_record_agrees, written_free_record_is_read};
pub use list::FreeList;
pub use read::read_free;
pub use write::write_free;
