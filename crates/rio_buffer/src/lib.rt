//! Reading and writing of what stands around objects: what a user of the library imports. The code and its contracts stand in
//! `rio_format`.
#![tactic(auto)]

pub use rio_format::{Header, ObjFault, ObjReader, ObjWriter, Open, PointerWord};
