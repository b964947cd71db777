//! The classes that are declared, and which may follow them. Its tests stand in `rio_rows`.
//!
//! A `Registry` holds the declared `classes` in their order. `declare` adds one with the versions of its bases, or answers
//! the first `DeclareFault`: a class that isn't known, a version that is there, an object that would hold one of its
//! own class, or one class too many. `judge` tells the same and adds nothing; `forget_last` takes the last one out again.
//!
//! What may be declared stands in `Declaring` of `rio_model`; `specs/Fronts.antt` and `Reaching.antt` say how a class is
//! judged without a look at all the others. `is_reserved_name` tells which names are left to the
//! classes that come with the format.
#![tactic(auto)]

mod judge;
mod names;
mod newest;
mod reach;
mod reached;
mod registry;

pub use names::is_reserved_name;
pub use registry::Registry;
pub use rio_model::DeclareFault;
