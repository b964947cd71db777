//! The branches of a tree and their leaves, and the text that lists leaves.
//!
//! A leaf has a name, a letter that tells what its values are, and a dimension: one value, a list of so many, or a list
//! that an earlier leaf counts. [`read_leaves`] reads a text as `n/I:list[n]/F`, or tells the first token that can't
//! stand; [`print_leaves`] writes the text, and what is read is written so and the other way round. [`are_stated`] tells
//! whether a tree may be declared with such branches, and [`is_counted_dim`] whether a counter counts a leaf's values. `==`
//! tells whether branches and what they hold are the same (`proofs/EqualLaws.antt`).
//!
//! `specs/Spelling.antt` says which text spells which leaves, by cases on the leaves, and `specs/Leaves.antt` which may
//! stand together; `specs/Reading.antt` reads from left to right. The two agree ([`spelled_leaves_are_read`],
//! [`read_leaves_are_spelled`]), and a text that isn't read has a first token that can't stand
//! ([`first_bad_leaf_tokens_are_told`], by `specs/ToldPlaces.antt`). `specs/Stated.antt` says which branches a tree may
//! be declared with. Its tests stand in `rio_rows`.
#![tactic(auto)]

mod branch;
mod dim;
mod fault;
mod laws;
mod leaf;
mod print;
mod read;
mod rules;
mod scan;
mod stated;

pub use branch::{BranchDef, BranchDefs, Shape};
pub use fault::LeafFault;
pub use laws::{first_bad_leaf_tokens_are_told, read_leaves_are_spelled, spelled_leaves_are_read};
pub use leaf::{Dim, Leaf, Leaves};
pub use print::{print_leaves, put_dim};
pub use read::read_leaves;
pub use rules::is_counted_dim;
pub use stated::{are_stated, leaves_of};
