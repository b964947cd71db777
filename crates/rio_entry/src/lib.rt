//! Entries: the bytes of one row in one branch of a tree, and the walk over the rows of a tree in a file.
//!
//! A branch has leaves, whose values stand one behind the other, or one object of a class. [`write_entry`] writes the
//! values of a row that belong to the branch, or tells that they don't fit or are too long; [`read_entry`] reads them, or
//! tells the place of the first part that breaks. [`check_entry`] tells only that place, and [`entry_numbers`] one number
//! for each leaf besides: what it says where it is a single integer, and else 0. Beyond such numbers, by which leaves are
//! counted, neither makes a value of the row. What is written is read ([`written_entries_are_read`]), and the entry of a
//! branch is a part of a tree's row ([`entry_is_part_of_row`]).
//! Which leaf counts which is found once for a branch, [`LeafCounters`], by one that reads many of its entries: with them an
//! entry costs a time linear in its leaves.
//! [`read_row`] reads a whole row of one entry for each branch, and [`broken_branch`] tells the first branch whose entry
//! breaks; what is written for a row is read ([`written_rows_are_read`]).
//! A tree in a file is a [`FileTree`]. [`find_refusals`] goes over its baskets and then over its entries to find the
//! branches that can't be read, where it makes no values but numbers, one for each leaf: of branches that count leaves of
//! others, which it keeps up to the end of the row, and of a branch with counted leaves while its entry is checked.
//! [`read_tree_row`] reads a row, whose baskets it takes from [`Lane`]s: at most one basket of each branch is held, and one
//! that goes on in a branch comes from basket to basket by [`basket_from`]. Both are over any host, and only read.
//! `specs/TreeRecords.antt` has which tree a header's record represents, `specs/StoredEntries.antt` what baskets in a file
//! hold, `specs/BranchRows.antt` the rows, `specs/Refusals.antt` which branches are refused and why, `specs/Counters.antt`
//! and `specs/Counted.antt` what earlier branches count, `specs/Index.antt` which basket holds an entry. `specs/Sweeps.antt`,
//! `specs/Checked.antt`, `specs/Lanes.antt`, `specs/RowFaults.antt` and `specs/TreeCounters.antt` speak of the walk.
//!
//! What stands in the bytes of an entry, and the row that one entry of each branch is, stand in `rio_machine`.
//! `specs/Entries.antt` has what fits and the bytes, `specs/Reading.antt` what is read as relations, `specs/Rows.antt` the
//! branch that breaks, `specs/Laws.antt` the laws of entries. `specs/Leaves.antt`, `specs/Counting.antt`
//! and `specs/Bounds.antt` say of leaves alone what the code does. Its tests stand in `rio_rows`.
#![tactic(auto)]

mod check;
mod check_leaves;
mod checked;
mod counter;
mod counts;
mod fit;
mod fitting;
mod index;
mod lane;
mod laws;
mod leaf;
mod numbers;
mod part;
mod put;
mod read;
mod read_leaves;
mod records;
mod refusals;
mod row;
mod row_reader;
mod said_numbers;
mod saved;
mod stored;
mod tree_counters;
mod tree_row;
mod write;

pub use check::{check_entry, check_entry_with};
pub use checked::Made;
pub use counter::LeafCounters;
pub use fitting::{row_fits, value_count};
pub use index::basket_from;
pub use lane::{Lane, RowFault};
pub use laws::{
    broken_rows_have_a_branch, entries_have_one_answer, entry_is_part_of_row,
    read_heads_are_in_order, rows_stay_read, written_entries_are_read, written_rows_are_read,
};
pub use numbers::{Numbers, leaf_counts, note_leaves};
pub use part::RowPart;
pub use read::{read_entry, read_entry_with};
pub use refusals::{empty_lanes, find_refusals};
pub use rio_machine::EntryFault;
pub use row::{broken_branch, read_row};
pub use row_reader::{FileTree, fault_held, read_tree_row};
pub use said_numbers::{entry_numbers, entry_numbers_with};
pub use saved::{are_rows_saved, read_saved_row};
pub use stored::FoundBasket;
pub use tree_counters::TreeCounters;
pub use tree_row::{BranchRefusals, BranchRows, TreeRow};
pub use write::write_entry;
