//! Calls on files in memory whose results no file shows: the place of a record in a chain, and commands that are refused without
//! printing.
mod places;
mod quiet;
