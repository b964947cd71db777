//! What one record more, or less, in the chain of a file makes of what the file reads as. Each
//! law is the contract of a function that does nothing.
//!
//! - A put adds the record of its object: with it the file reads as the state after the put
//!   ([`put_takes_effect`]), the keys that are kept beside the file follow it ([`keys_follow`]),
//!   and what a close needs grows by what one key takes ([`need_grows`]).
//! - A batch adds the records of its objects, one after the other, by one word: with all of them the
//!   file reads as the state after the batch ([`batch_takes_effect`]).
//! - A delete releases the record of its object: without it the file reads as the state after the
//!   delete ([`delete_takes_effect`]), all other objects stay ([`delete_leaves_others`]), and a
//!   close needs no more ([`delete_needs_no_more`]).
//! - A class command adds the record of a class list with one class more: with it the file reads
//!   as the state after the command, all objects and keys stay, and nothing refers to the class
//!   list that counted before, which is released then ([`class_takes_effect`]).
//! - A tree adds its header, and a save the open baskets and then the next header: with it the file
//!   reads as the state with the tree and all its rows, and nothing refers to the header before
//!   ([`header_takes_effect`], [`headers_have_records`], [`baskets_are_read`]).
//! - A new tree is one header more among the keys and in what a close needs ([`new_header_counts`]),
//!   behind a class list where the file has none ([`tree_takes_effect`]). A fill puts baskets, with
//!   which the file stands for the same ([`baskets_are_put`]), and a row is pending more
//!   ([`fill_keeps_baskets`]). What a save does is one law ([`save_takes_effect`]), over that of the
//!   later header ([`later_header_replaces`]).
//! - The delete of a tree releases its header and then its baskets: without the header the file
//!   reads as the state without the tree, and nothing refers to the baskets
//!   ([`tree_delete_takes_effect`], [`tree_delete_needs_no_more`]), so that without them it reads as
//!   the same ([`garbage_is_released`]).
//!
//! The keys that are kept beside a file stand for its objects ([`keys_stand_for_state`]) and give
//! the next cycle of a name ([`keys_tell_next_cycle`]). A file that keeps its first 100 bytes
//! keeps its header ([`front_tells`]).
//!
//! Definitions are in `specs/`: the record of an object as a put writes it in
//! `ObjectRecord.antt`, that of a class list in `ClassRecord.antt`, and the laws in `Laws.antt`,
//! `Batches.antt`, `Deletes.antt` and `Classes.antt`. What a whole run makes of the records of a file, with each
//! place and byte, and which commands find no room, is one definition, `FileRuns.antt`: it speaks
//! of all commands, and of the saves of a close ([`runs_are_told`]).
#![tactic(auto)]

mod laws;

pub use laws::{
    baskets_are_put, baskets_are_read, batch_takes_effect, class_takes_effect,
    delete_leaves_others, delete_needs_no_more, delete_takes_effect, fill_keeps_baskets,
    front_tells, garbage_is_released, header_takes_effect, headers_have_records, items_stay,
    keys_follow, keys_stand_for_state, keys_tell_next_cycle, later_header_replaces, need_grows,
    new_header_counts, put_takes_effect, runs_are_told, save_takes_effect,
    tree_delete_needs_no_more, tree_delete_takes_effect, tree_takes_effect,
};
