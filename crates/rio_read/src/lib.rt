//! Objects are read, or passed over, by the classes that a file describes.
//!
//! `read_object` reads the object that begins some data, or returns their first fault with its place. `read_next` does
//! the same where an `ObjReader` stands, which then stands behind the object, and `read_builtin` reads a TObject, TNamed,
//! TObjString or TArray. An object may be 256 deep. `read_number`, `read_times` and `read_text` read a number, so many of
//! them, and a text.
//!
//! `pass_next` passes over the object that `read_next` would read: the reader then stands where `read_next` would leave
//! it, and what breaks is told by the same fault. It makes no value, and keeps no more than the classes and places of
//! objects met before, and what the counters of the objects say that it is in. `pass_number` and `pass_numbers` do the
//! same for numbers, many of them in one step.
//!
//! The rules of objects stand once, as descriptions, in `Objects` and `Bodies` of `rio_format`; the files of `specs/` say
//! what the readers of this crate return by them (`Reading.antt`), which fault is the first (`FirstFault.antt`), and what
//! it is to keep nothing (`Passing.antt`). The tests are in `rio_rows`.
#![tactic(auto)]

mod bare;
mod builtin;
mod member;
mod numbers;
mod object;
mod pass;
mod read;
mod whole;

pub use numbers::{read_number, read_text, read_times};
pub use pass::{pass_next, pass_number, pass_numbers};
pub use read::{read_builtin, read_next, read_object};
