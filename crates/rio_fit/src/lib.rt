//! Which values fit which classes.
//!
//! `fits` tells whether a value is an object of a class with a part for each of its bases and members, of their kinds and
//! in their ranges, whose lists have the lengths that their counters say and whose pointers lead where they may: what can
//! be written. `can_be_put` tells which classes a put can have objects of.
//!
//! The definitions stand in `Fits`, `Slots` and `Bases` of `rio_format`; `specs/Fitting.antt` has the words of this
//! crate's contracts.
#![tactic(auto)]

mod derive;
mod fit;
mod fit_numbers;

pub use derive::can_be_put;
pub use fit::fits;
