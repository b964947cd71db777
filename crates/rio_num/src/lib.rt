//! Numbers, texts, names and bytes: what every other crate reads, holds and writes.
//!
//! `Cursor` takes numbers and texts from the front of some bytes, or returns `Short`, and `bytes_from` gives those
//! from a place on; `Bytes` grows by puts, which find memory where room was reserved. `Name`, `Items`, `Boxed` and
//! `Names` are seen by contracts as what they hold, and `NoMemory` is the one word for want of memory. `is_name` and
//! `is_item` decide which words name something, `blanks` and `word_length` measure the front of a text.
//!
//! `specs/Layout.antt` says how a format is described: as data, of which reading, spelling and the first fault are three
//! meanings (`Meanings.antt`) that agree (`Laws.antt`, stated by `meanings_agree`). The other files of `specs/` have the
//! words of contracts: where reading stands (`At`), what it gives (`Reading`), what a call returns, unless memory ran
//! out (`Answers`), room (`Room`), lengths with their zero bytes (`Padding`), texts, and what is printed. Its tests
//! stand in `rio_rows`.
#![tactic(auto)]

mod boxed;
mod bytes;
mod cursor;
mod items;
mod laws;
mod name;
mod names;
mod no_memory;
mod padding;
mod printed;
mod word;

pub use boxed::Boxed;
pub use bytes::{Bytes, patch_u32};
pub use cursor::{Cursor, Short, bytes_from, text_length};
pub use items::Items;
pub use laws::meanings_agree;
pub use name::Name;
pub use names::Names;
pub use no_memory::NoMemory;
pub use padding::padded;
pub use word::{blanks, is_item, is_name, is_word_byte, word_length};

/// A list of names, as the words of a command line.
pub type Words = Items<Name>;

/// A list of places in a file, counted in bytes from its beginning.
pub type Places = Items<u64>;

/// A list of lengths in bytes.
pub type Lengths = Items<u64>;

/// A list of numbers.
pub type Numbers = Items<u64>;
