//! Trees that are filled: rows come, baskets are written, and the tree is saved.
//!
//! A [`Filler`] holds what is pending of a tree: where the baskets stand that were written since the last save, and for each
//! branch an open basket with the entries behind them. It writes nothing itself. A caller has a row's entries made
//! ([`Filler::prepare`]) and asks which open baskets are to be written first ([`Filler::full`]); it takes all memory
//! ([`Filler::reserve`]), writes those baskets, tells where each stands ([`Filler::written`]), and adds the row
//! ([`Filler::add`]). For a save it writes every open basket that isn't empty, and the header ([`Filler::save_head`]).
//!
//! The rule by which entries are divided into baskets stands in `rio_key`. `specs/Fill.antt` has what a filler holds and how it
//! goes on, `specs/Prepare.antt` the entries of a row, `specs/Room.antt` the room that is made beforehand,
//! `specs/Heads.antt` which trees can be filled and the header of a save, and `specs/Laws.antt` the laws: the written baskets
//! and the open one are the pending entries of a branch, divided by that rule ([`rows_are_cut`]).
#![tactic(auto)]

mod branch;
mod filler;
mod flags;
mod laws;
mod places;
mod prepared;

pub use filler::Filler;
pub use flags::{Flags, is_flagged};
pub use laws::{
    flags_name_baskets, open_baskets_stay_small, prepared_rows_may_be_added, rows_are_cut,
};
pub use prepared::Prepared;
