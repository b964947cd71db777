//! Values: what a user of the library imports. The code and its contracts stand in `rio_format`.
#![tactic(auto)]

pub use rio_format::{Part, Parts, Rows, Value, Values, copy, depth, longest_list, part_of};
