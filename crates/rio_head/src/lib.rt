//! The header of a file, and the record of its directory: both are read and written, in both forms. Beside them stand the
//! kinds of faults of a file, the reasons against writing to it, and the identifier that its name gives it.
//!
//! A header and a directory record stand once, as descriptions (`specs/Head.antt`, `specs/Dir.antt`), of which reading,
//! spelling and the first fault are three meanings. `specs/Written.antt` has what is written. Its tests stand in
//! `rio_rows`.
#![tactic(auto)]

mod dir;
mod fault;
mod head;
mod identifier;
mod laws;
mod reason;
mod take;
mod write;

pub use dir::{DirRecord, read_dir};
pub use fault::{FileFault, HeadFault};
pub use head::{FileHead, read_head};
pub use identifier::file_uuid;
pub use laws::{
    dir_in_front, header_in_front, meanings_agree, one_dir, one_head, written_dir_is_read,
    written_head_is_read,
};
pub use reason::Reason;
pub use write::{write_dir, write_head};
