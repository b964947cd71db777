//! The texts of values and of classes, printed and read, which classes may be declared, which lists of classes class
//! commands can make, the written class list, read again, and objects in another version of their class. Definitions that
//! contracts cite, in `specs/`, laws about them, and the faults that a declaration and a version are refused for,
//! `DeclareFault` and `MapFault`.
//!
//! A text has three files: how it is printed (`ValueText`, `ClassText`), how it is read (`ValueGrammar`, `ClassGrammar`)
//! and which tokens spell it (`ValueSpelling`, `ClassSpelling`). `printed_values_are_read`, `spelled_values_are_read`,
//! `read_values_are_spelled` and `first_bad_tokens_are_told` tie those of values, and three like the first
//! three those of classes (the fourth, `first_bad_class_tokens_are_told`, stands in `rio_step`).
//! `Declaring` has what may be declared, `StateClasses` the lists that come of it, and `Described` the written class
//! list, of which `written_bytes_are_read` and `written_list_is_spelled` tell. `Mapping` has objects in another version.
#![tactic(auto)]

mod class_laws;
mod declare;
mod laws;
mod list_laws;
mod map_fault;
mod newest;
mod read_laws;
mod spelling_laws;

pub use class_laws::{read_classes_are_spelled, spelled_classes_are_read};
pub use declare::{CLASS_LIMIT, DeclareFault, holding_is_reaching};
pub use laws::texts_are_one_line;
pub use list_laws::{
    described_have_numbers, descriptions_have_sums, tree_classes_are_stated,
    written_bytes_are_read, written_list_fits, written_list_is_read, written_list_is_spelled,
};
pub use map_fault::MapFault;
pub use newest::{built_in_version, is_known_version, newest_known};
pub use read_laws::{
    class_reading_goes_on, printed_classes_are_read, printed_values_are_read,
    read_classes_are_stated, value_reading_goes_on,
};
pub use spelling_laws::{
    first_bad_tokens_are_told, read_values_are_spelled, spelled_values_are_read,
};
