//! Scripts as bytes become commands. `read_script` gives one command for each line that counts, and
//! for a line that is no command the number of the line and the place of the first token that can't
//! stand there. It goes over the bytes once and copies no line. The names of a tree's branches and leaves
//! are kept beside them (`specs/Known.antt`), so that no look-up goes through the lists.
//!
//! The language is defined in `rio_step/specs/Script.antt`, the branches of a tree in its
//! `TreeGrammar.antt`. The words of the command line that state an import or a generated file are read by
//! `read_import_words` and `read_gen_words` (`specs/ImportWords.antt`), the branches by the same readers.
#![tactic(auto)]

mod batch;
mod branches;
mod command;
mod glued;
mod import_words;
mod known;
mod leaves;
mod lines;
mod script;
mod tree;

pub use import_words::{ImportWords, imports_are_stated, read_gen_words, read_import_words};
pub use script::read_script;
