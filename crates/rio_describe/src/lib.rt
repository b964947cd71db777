//! What describes classes: the classes by which class lists are read and written, the classes of trees, and the elements
//! that are written for the bases and members of a class. `JudgedLists` are class lists of which it is known which of
//! their classes have a TObject among their bases, so that the element of a member takes a look-up and no search.
//! Its tests stand in `rio_rows`.
#![tactic(auto)]

mod class;
mod descriptions;
mod element;
mod judged;
mod members;
mod numbers;
mod reach;
mod trees;

pub use descriptions::description_classes;
pub use element::{Element, ElementClass, TypeName};
pub use judged::JudgedLists;
pub use members::{base_element, member_element};
pub use trees::tree_classes;
