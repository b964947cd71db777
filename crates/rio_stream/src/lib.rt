//! Objects in bytes, by the classes that a file describes: which values fit, what is written of them, and
//! what is read, or its first fault.
//!
//! A user of the library imports these calls from here. [`fits`] tests whether a value can be written as an object of a
//! class. [`written_length`] returns the length of what is written, [`write_object`] the bytes, and [`write_builtin`]
//! appends a TObject, TNamed, TObjString or TArray to an `ObjWriter`. [`read_object`] and [`read_builtin`] read them
//! back, or return the first fault with its place.
//!
//! The calls and their contracts stand in `rio_fit`, `rio_read` and `rio_write`; the rules of objects are in
//! `rio_format`.
#![tactic(auto)]

pub use rio_fit::fits;
pub use rio_read::{read_builtin, read_object};
pub use rio_write::{write_builtin, write_object, written_length};
