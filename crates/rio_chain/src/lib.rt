//! The chain of a file: records and gaps, one after the other from place 100 to END. [`walk`] reads them, or reports the
//! first place where they break, and reads nothing of a record but its word and its key; [`walk_with_keys`] hands out the
//! keys that it tested too. [`Chain`] keeps the segments beside the file, the records in one list and the gaps in another:
//! `place_for` and `plan` place records by the rule, `put_record` puts one, at END or in a gap, `put_batch` several by one
//! word, and `release` frees the bytes of one: they are one gap with the gaps on both sides, or END is lowered to them. Each
//! crash image of these has the segments from before or from after. [`put_behind`] and [`put_word`] are the two ways in which a word takes effect: with
//! bytes after it that are on the disk before, and alone. [`key_at`] reads a key of a file, and [`end_of`] returns where
//! segments end. [`new_record`] makes a record as it is put: its key, its data, and the zero bytes that raise its length to a
//! multiple of four.
//!
//! The definitions stand in `specs/`: `Segments` (what stands at each place, END, and where the chain breaks), `Laws`
//! (a file has one list of segments or one first break), `Adjoining` (segments without what they hold), `Merging` (segments
//! as records and gaps, merged by place), `Placing` (the choice of place), `Changes` (what a put and a release make of the
//! segments), `Releasing` (what a release makes of them without what they hold), `FewerRecords` (what is left then), `Stops`
//! (what crash images have), `Batches` (records one after the other), `Record` (the written form of a record), `NewRecords`
//! (each new record is one of the chain, its key is read again, and its data stand after it) and `Keyed` (the keys that a
//! walk hands out).
//! Its tests stand in `rio_file_rows`.
#![tactic(auto)]

mod behind;
mod fault;
mod found;
mod gather;
mod kept;
mod key_words;
mod laws;
mod plan;
mod put;
mod read_back;
mod reads;
mod record;
mod release;
mod segment;
mod walking;

pub use behind::{put_behind, put_word};
pub use fault::{PlanFault, WalkFault};
pub use gather::end_of;
pub use kept::Chain;
pub use key_words::KeyWords;
pub use laws::{
    chain_or_break, laid_by_puts, new_record_is_whole, one_chain, one_record_less, record_key,
};
pub use reads::key_at;
pub use record::{NewRecord, new_record};
pub use rio_host::ReadFault;
pub use segment::{Segment, Segments};
pub use walking::{FoundChain, walk, walk_with_keys};
