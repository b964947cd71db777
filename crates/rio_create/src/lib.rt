//! A new file. [`create`] makes one where none is made yet: the header and the first record are
//! written behind a zero word and reach the disk before the word `root` does, so that a stop at any
//! moment leaves a file that reads as the empty state, and that isn't made yet or is marked as open.
//!
//! `specs/NewFile.antt` says what a new file is, byte for byte, and what it stands for;
//! `specs/Creation.antt` what a stop leaves and why a file could not be made.
#![tactic(auto)]

mod draft;
mod fault;
mod first;
mod gate;
mod laws;
mod making;

pub use fault::CreateFault;
pub use laws::new_file_is_read;
pub use making::{Created, create};
