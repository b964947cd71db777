//! The state that a file reads as, by a walk through it, with every reason why nothing is written to a file.
//! [`is_unborn`] returns whether a file is made. Of a made one [`recover`] returns the state, or the first rule that its
//! header breaks, or the first reason not to write to it, and writes nothing. [`clean`] releases the records that nothing
//! refers to: outdated headers of trees among them, and baskets that no header names.
//!
//! The definitions stand in `specs/`: `Recovered` (what is recovered and what is returned), `Whole` (the same of what the
//! keys say, over any host), `Trees` and `TreeTable` (the trees, in order of names), `Closable` (what a close needs of it),
//! `Cleaning` (what is left after a release) and `Causes` (why a call fails); `Walked`, `Keys`, `Names`, `Checks`, `Baskets`
//! and `Classes` are of the steps. Its tests stand in `rio_file_rows`.
#![tactic(auto)]

mod baskets;
mod classes;
mod cleaning;
mod fault;
mod header;
mod judge;
mod keys;
mod laws;
mod named;
mod names;
mod object;
mod recovery;
mod room;
mod rows;
mod tree;
mod trees;
mod unborn;
mod walked;

pub use cleaning::clean;
pub use fault::RecoverFault;
pub use header::stated_defs;
pub use laws::garbage_is_cleaned;
pub use recovery::{Recovered, recover};
pub use trees::{TreeAt, Trees};
pub use unborn::is_unborn;
