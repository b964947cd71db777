//! Class lists in bytes, read and written: the classes that a file describes. `read_info` tells the classes of a list or
//! its first fault, `write_info` writes the list for declared classes, `info_length` and `info_length_with` tell its
//! length beforehand. The list is made as the value of a TList, which is written and measured as any object is. The
//! definitions stand in `rio_format`: `ClassList` and `Elements` of what is read, `TreeClasses`, `WrittenElements`,
//! `WrittenList` and `WrittenBytes` of what is written. Its tests stand in `rio_rows`.
#![tactic(auto)]

mod classes;
mod element;
mod element_value;
mod kind;
mod laws;
mod length;
mod members;
mod parts;
mod read;
mod value;
mod write;

pub use laws::{last_length_decides, written_lists_grow};
pub use length::{info_length, info_length_with};
pub use read::read_info;
pub use rio_describe::description_classes;
pub use write::write_info;
