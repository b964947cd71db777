//! A session on one file: [`Session::open`] opens it, [`Session::apply`] does a command and prints its reply,
//! [`Session::apply_quiet`] does it and prints nothing, and [`Session::close`] closes the file. Each crash image while a command is done reads as the state from before it or after it. What is kept beside
//! the file stands for the state, so no command but `get` and `scan` reads the file again.
//!
//! A command changes the records of the file by a list of changes, one after the other, each the put of a record, that of
//! several by one word, or the release of one: a put adds a record, a batch one for each of its objects, a delete releases
//! one, that of a tree its header and then its baskets, and a class command adds the longer class list and then releases
//! the one before. One change of each list takes effect, or none of a fill, so no crash image
//! reads as anything between. Commands that only print, and refused ones, write nothing. Of each tree the
//! baskets that were written and the pending rows are kept; a close saves the trees that have some before it writes the key list.
//!
//! `specs/Session.antt` says what a session stands for, `specs/Kept.antt` what each command changes, `specs/Changing.antt`
//! which crash images there are meanwhile, `specs/Effects.antt` what they read as, and `specs/Marks.antt` which commands
//! find no room. The tests stand in `rio_file_rows`.
#![tactic(auto)]

mod bare_head;
mod baskets;
mod batch;
mod class;
mod close;
mod closing;
mod delete;
mod fault;
mod fill;
mod get;
mod header;
mod laws;
mod list;
mod made_file;
mod need;
mod new_file;
mod new_head;
mod open;
mod open_baskets;
mod open_tree;
mod open_trees;
mod place;
mod put;
mod release;
mod replace;
mod replies;
mod save;
mod say;
mod scan;
mod scan_rows;
mod session;
mod steps;
mod store;
mod tree;
mod work;

pub use fault::{OpenFault, SessionFault};
pub use laws::steps_follow_files;
pub use replies::Replies;
pub use session::Session;
