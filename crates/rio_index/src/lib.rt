//! Scans of trees: which basket holds an entry, and the rows of a tree, one after the other.
//!
//! A branch of a tree keeps of each of its baskets where it stands and which entry it begins with. [`basket_of`] tells the
//! basket that holds an entry, by a search that halves the list; [`basket_from`] tells it to one that goes over the entries,
//! from the basket of an earlier entry on. A [`Scanner`] holds one basket of each branch, tells which basket it wants next,
//! and reads row after row of those that it is given. Which leaf counts which is found once for the tree
//! ([`TreeCounters`]). `specs/Scan.antt` has what a scan holds and wants and its next row, `specs/Given.antt` what a call
//! returns. Its tests stand in `rio_rows`.
#![tactic(auto)]

mod lane;
mod next;
mod scanner;
mod search;

pub use lane::{Held, Lane};
pub use rio_entry::{TreeCounters, basket_from};
pub use scanner::Scanner;
pub use search::{basket_of, entry_count};
