//! The trees of a file as a session keeps them in memory: of each its name, its branches, and how many of its rows are saved
//! and pending. The cycle of a tree stands in the key of its header, which a session keeps among the other keys.
//!
//! A [`TreeTable`] is a map from name to [`KeptTree`], in order of names, in which a name is found by search.
//! `specs/Table.antt` has its order and what its calls find and change.
#![tactic(auto)]

mod table;

pub use table::{KeptTree, TreeTable};
