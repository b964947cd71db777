//! Objects are written, by the classes that a file describes.
//!
//! A value is walked once, by code that is generic over a [`Sink`]: the writer of objects takes the bytes, and [`Total`]
//! counts them. [`write_object`] and [`written_length`] are that walk into the one and the other; class lists and headers
//! of trees are values too, and the numbers of entries go into a sink by themselves. `specs/Sinks.antt` has what a sink
//! does, `specs/Measuring.antt` what it is to count.
#![tactic(auto)]

mod builtin;
mod laws;
mod measure;
mod numbers;
mod sink;
mod walk;
mod write;

pub use builtin::write_builtin;
pub use laws::small_builtins_are_alike;
pub use measure::Total;
pub use numbers::{write_bool, write_prim};
pub use sink::Sink;
pub use write::{write_object, written_length};
