//! The outside of the program: one file with one text output, and one input.
//!
//! `Host` is the file and the text, by calls that read, write, sync and say, each of which may fail; `Source` is the
//! input. `specs/Host.antt` has what callers see of a host, its `View`: what reads give, what was said, and what a stop at
//! any moment may leave of both; it says what a call may do to that. `specs/Source.antt` is the same for an input.
//! `bytes_at`, `word_at` and `prefix_at` read a file at a place; all crates above read by them.
//!
//! `FileHost` and `StdSource` are those of the system, which tell nothing of what they hold. `MemHost`, `MemSource` and
//! `SureSource` are in memory and tell all; `left` of a `MemHost` gives what a stop leaves, by a choice of what `Remains`
//! of each write. `specs/Image.antt`, `Replay.antt` and `Stops.antt` say what that is.
#![tactic(auto)]

mod call;
mod change;
mod contents;
mod count;
mod disk;
mod file_host;
mod host;
mod late_file;
mod left;
mod memory;
mod reading;
mod recording;
mod rest;
mod source;
mod sources;
mod std_source;

pub use change::{Left, Remains};
pub use file_host::FileHost;
pub use host::{Failed, Host, HostFault};
pub use left::{leaves_says_cut_short, leaves_torn_writes, leaves_words_whole};
pub use memory::MemHost;
pub use reading::{ReadFault, bytes_at, prefix_at, word_at};
pub use source::Source;
pub use sources::{MemSource, SureSource};
pub use std_source::StdSource;
