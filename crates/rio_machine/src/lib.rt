//! The machine that a file is: the commands that change its state, why one of them is refused, and the state that they
//! change. A state has declared classes, objects by name and cycle, and trees by name, and nothing of keys, records or
//! places. What a command does to it is defined above, where the texts of classes and values are.
//!
//! A `Command` ends in an `Outcome`: accepted, or refused for a `Refusal`, which `print_refusal` says with its `number` and
//! `name`. `specs/State.antt` has the state (law: `orders_are_total`), `Rows.antt` which rows fit a tree, `Limits.antt`
//! what is too large, too deep or too many, `Entries.antt` the row that one entry of each branch of a tree is; an
//! `EntryFault` says why there is none. Its tests stand in `rio_rows`.
#![tactic(auto)]

mod command;
mod entry_fault;
mod laws;
mod limits;
mod print;
mod refusal;

pub use command::{Command, Commands, Outcome, PutItem, Puts};
pub use entry_fault::EntryFault;
pub use laws::orders_are_total;
pub use limits::{BATCH_LIMIT, BRANCH_LIMIT, CYCLE_LIMIT, ITEM_LIMIT, LEAF_LIMIT, LIST_LIMIT};
pub use print::print_refusal;
pub use refusal::Refusal;
