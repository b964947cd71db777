//! A large valid file is made from a number: the script of a tree `G` with 20 branches of integers, and the line that is
//! printed of the file.
//!
//! [`generated_script`] gives the commands of the script one by one, [`generated`] all of them. A [`Summary`] is what is read
//! of the closed file; [`add_integers`] sums up its rows.
//!
//! `specs/Generated.antt` has the script, `specs/Summary.antt` the line. A script can state the tree, each row fits it, and
//! the sum of all rows is known ([`generated_tree_is_stated`], [`generated_rows_fit`], [`generated_sum_is_known`]).
#![tactic(auto)]

mod laws;
mod script;
mod summary;

pub use laws::{generated_rows_fit, generated_sum_is_known, generated_tree_is_stated};
pub use script::{GeneratedScript, generated, generated_script};
pub use summary::{Summary, add_integers, print_summary};
