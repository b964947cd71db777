//! What commands are to do.
use rio_format::{Base, ClassDef, Value, Values};
use rio_key::KeyHead;
use rio_leaf::BranchDefs;
use rio_machine::Refusal;
use rio_num::{Items, Name};

/// An object that is to be stored.
#[derive(Drop)]
pub struct StoredObject {
    /// The name that it is stored under.
    pub name: Name,
    /// The class of the object.
    pub class: Name,
    /// The cycle that it gets: the next one of its name.
    pub cycle: u16,
    /// How many bytes are written of it, without the zero bytes after them.
    pub length: u32,
    /// The object, with a version in each object of it.
    pub value: Value,
}

/// Objects that are to be stored, one after the other.
pub type StoredObjects = Items<StoredObject>;

/// A class that is to be declared.
#[derive(Drop)]
pub struct NewClass {
    /// The class, with the newest version of each of its bases.
    pub class: ClassDef,
    /// How many bytes the class list has with it.
    pub length: u32,
}

/// What a command that isn't refused is to do.
#[derive(Drop)]
pub enum Work {
    /// Declares a class.
    Class(NewClass),
    /// Stores an object.
    Put(StoredObject),
    /// Stores objects, all of them or none.
    Batch(StoredObjects),
    /// Deletes the object of this key, which is there.
    Delete(KeyHead),
    /// Prints the object of this key, which is there: as it is, or in this version of its class.
    Get { head: KeyHead, version: Option<i32> },
    /// Prints the names of all objects and trees.
    Ls,
}

/// What is found of a command.
#[derive(Drop)]
pub enum Judged {
    /// It is refused for this reason, and changes nothing.
    Refused(Refusal),
    /// It is to do this. It isn't refused but for want of room, or where a get asks for a version that the
    /// object can't be had in.
    Accepted(Work),
}

/// A tree that is to be made, in cycle 1 and without rows.
#[derive(Drop)]
pub struct NewTree {
    pub name: Name,
    pub branches: BranchDefs,
}

/// A row that is to be added to a tree.
#[derive(Drop)]
pub struct NewRow {
    /// The name of the tree.
    pub name: Name,
    /// The cycle of the tree.
    pub cycle: u16,
    /// The row, with a version in each object of it.
    pub row: Values,
}

/// What a command that isn't refused is to do to a tree. The key is that of the tree's header, which is there.
#[derive(Drop)]
pub enum TreeWork {
    /// Makes a tree. No item has its name.
    Make(NewTree),
    /// Adds a row, if its entries can be made and [`crate::judge_row`] refuses none of it.
    Fill(NewRow),
    /// Saves the tree in the next cycle.
    Save(KeyHead),
    /// Deletes the tree with all its rows.
    Delete(KeyHead),
    /// Prints the rows of the tree: as they are, or with the objects of this class in this version, which is known. It is
    /// refused where the kind of a base or member has changed.
    Scan { head: KeyHead, class: Option<Base> },
}

/// What a command is to do, with an object, a class or a tree.
#[derive(Drop)]
pub enum AnyWork {
    Item(Work),
    Tree(TreeWork),
}

/// What is found of a command where trees are kept.
#[derive(Drop)]
pub enum JudgedWithTrees {
    /// It is refused for this reason, and changes nothing.
    Refused(Refusal),
    /// It is to do this. It isn't refused but for want of room, for what an object or the rows of a tree are in another
    /// version, or for the row that it adds.
    Accepted(AnyWork),
}
