//! Rows of library calls whose results no file and no script shows: places within an entry or a basket, bytes of objects
//! that no record has by itself (`rio_entry`, `rio_basket`, `rio_stream`, `rio_read`), headers of trees as values (`rio_tree`),
//! classes, values and leaf lists that are copied and compared (`rio_types`, `rio_value`, `rio_leaf`), classes that no script
//! declares (`rio_registry`, `rio_describe`, `rio_info`, `rio_valtext`), scans basket by basket (`rio_index`), and the fields of keys, headers and free records
//! (`rio_key`, `rio_head`, `rio_free`). All else is shown by the program, in `tests`.
//!
//! It has nothing but `rows`, and nothing stands on it: a crate is proved again with its tests, so tests cost little in a
//! crate that has nothing else.
#![tactic(auto)]

#[cfg(test)]
mod rows;
