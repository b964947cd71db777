//! The commands of a script, and what became of one.
use crate::Refusal;
use rio_format::{Base, ClassDef, Value, Values};
use rio_leaf::BranchDefs;
use rio_num::{Items, Name};

/// A command. An object of a value in a command may have the version 0, which stands for the newest, and in a base for
/// the one that the class has it in.
#[derive(Drop)]
pub enum Command {
    /// A line that is no command: its number, counted from 1, and the place in it of the first token that can't stand,
    /// counted from 0.
    Bad {
        line: u32,
        place: u32,
    },
    /// Declares a class.
    Class(ClassDef),
    /// Stores an object in the next cycle of the name.
    Put {
        name: Name,
        value: Value,
    },
    /// Stores several objects, each in the next cycle of its name: all of them, or none.
    Batch {
        puts: Puts,
    },
    /// Takes an object or a tree away.
    Delete {
        name: Name,
        cycle: u32,
    },
    /// Makes a tree without rows.
    Tree {
        name: Name,
        branches: BranchDefs,
    },
    /// Puts a row at the end of a tree. It is pending until the tree is saved.
    Fill {
        name: Name,
        row: Values,
    },
    /// Saves the pending rows of a tree.
    Save {
        name: Name,
    },
    /// Tells an object: the one of the greatest cycle, if none is named. A version asks for the object as its class
    /// has it in that version.
    Get {
        name: Name,
        cycle: Option<u32>,
        version: Option<i32>,
    },
    /// Tells the rows of a tree. A class asks for its objects in them as it has them in that version.
    Scan {
        name: Name,
        class: Option<Base>,
    },
    /// Tells the names of all objects and trees.
    Ls,
}

/// One put of a batch.
#[derive(Drop)]
pub struct PutItem {
    pub name: Name,
    pub value: Value,
}

/// The puts of a batch.
pub type Puts = Items<PutItem>;

/// A list of commands.
pub type Commands = Items<Command>;

/// What became of a command.
#[derive(Debug, Drop)]
pub enum Outcome {
    Accepted,
    Refused(Refusal),
}
