//! Classes: what a user of the library imports. The code and its contracts stand in `rio_format`.
#![tactic(auto)]

pub use rio_format::{Base, Bases, ClassDef, Classes, Kind, Member, Members, Prim, Primitive};
