//! Whether a command is refused by the state, for one of the reasons 1 to 18, and what it is to do
//! if it isn't. The state is known by what a session keeps of it, its classes, the keys of its objects
//! and trees, and its trees; no file is at hand. So whether an object, or the rows of a tree, can be had
//! in the version that a get or a scan asks for (13 and 14) is left to the caller, who reads them.
//!
//! [`judge_with_trees`] returns the first refusal, or the [`AnyWork`] of a command, with what is found on
//! the way: of a declaration the [`NewClass`], of a put the [`StoredObject`], of a batch several, of a tree that is made the
//! [`NewTree`], of a fill the [`NewRow`], and of the others the key of the object or tree. A fill takes a
//! second call: between the two the row's entries are made, and [`judge_row`] returns the refusals that
//! hang on them and on the row (12 and 15 to 18). [`judge`] serves a session without trees.
//!
//! `specs/Judging.antt` and `specs/Trees.antt` say what a right judgement is: for each state that the
//! keys and trees stand for it is the state's, and whatever they stand for, what is accepted can be done.
#![tactic(auto)]

mod batch;
mod class;
mod delete;
mod get;
mod judging;
mod key;
mod laws;
mod put;
mod row;
mod stop;
mod tree;
mod work;

pub use judging::{judge, judge_with_trees};
pub use laws::{items_have_states, keys_have_states};
pub use row::judge_row;
pub use tree::any_has_many_leaves;
pub use work::{
    AnyWork, Judged, JudgedWithTrees, NewClass, NewRow, NewTree, StoredObject, StoredObjects,
    TreeWork, Work,
};
