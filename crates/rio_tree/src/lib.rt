//! Tree headers: the value of a tree's record, read and made.
//!
//! A tree is stored as a header, an object of the class TTree, and baskets that the header's branches name. A [`TreeHead`]
//! has what the header says of its branches: their leaves or class, where their baskets stand, and why a branch can't be
//! read.
//!
//! [`read_tree`] reads a header from any value, and returns the first member that a tree lacks. `specs/Header.antt` has what
//! a value says, `specs/Members.antt` what members say, `specs/Labels.antt` what pointers lead to, `specs/HeaderLeaves.antt`
//! the leaves and what counts them, `specs/Refusals.antt` the refusals in order, and `specs/Index.antt` which lists of
//! baskets are an index, and in which basket an entry is looked for. `specs/Tables.antt` and `specs/Results.antt` speak of
//! the code.
//!
//! [`tree_value`] makes the header that is written for a tree. It fits the class TTree among the classes of trees
//! ([`written_tree_fits`]) and is read as the same [`TreeHead`] ([`written_tree_is_read`]). How long it is follows from
//! name, branches and the number of baskets ([`header_length_is_known`]). `specs/WrittenTree.antt` has the value that is
//! written, `specs/WrittenLaws.antt` the laws, and `specs/HeaderLength.antt` the length. `specs/WrittenBaskets.antt` and
//! `specs/WrittenLabels.antt` speak of the code. Tests stand in `rio_rows`.
#![tactic(auto)]

mod basket_at;
mod branch;
mod branch_members;
mod fault;
mod head;
mod labels;
mod laws;
mod leaf;
mod leaves;
mod members;
mod met;
mod read;
mod refusal;
mod stored;
mod unread;
mod written;
mod written_baskets;
mod written_labels;
mod written_leaf;

pub use basket_at::{BasketAt, Baskets};
pub use branch::has_offsets;
pub use fault::TreeFault;
pub use head::{Branch, BranchNumbers, Branches, TreeHead};
pub use laws::{header_length_is_known, written_tree_fits, written_tree_is_read};
pub use read::read_tree;
pub use refusal::BranchRefusal;
pub use written::tree_value;
