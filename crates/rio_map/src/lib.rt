//! Values in another kind, the zeros of kinds and of classes, and objects of a class in another version.
//!
//! `flat_as` gives a value of one kind in another one, where no object is in it; `stays` tells of objects and pointers
//! whether both kinds are of one class. `kind_zero` and `zero_of_class` give the value of a member or a base that isn't there,
//! of at most 1,000,000 values and 4,096 objects within one another: past that there is no memory.
//! `as_version` gives a value with each object of a class, at any depth, in another version of the class. Of classes that
//! scripts can declare, a value that fits stays as it is in a version in which the class is known and in which all its objects
//! in the value are (`same_version_stays`).
//!
//! The definitions stand in `Mapping` of `rio_model`; `specs/` has how the code cuts them up.
#![tactic(auto)]

mod convert;
mod lacking;
mod laws;
mod memory;
mod single;
mod version;
mod way;
mod zero;

pub use convert::{flat_as, stays};
pub use laws::same_version_stays;
pub use rio_model::MapFault;
pub use version::as_version;
pub use zero::{kind_zero, zero_of_class};
