//! What the bytes of a file mean: classes, values, the words that stand around objects, and the definitions and laws that
//! contracts of the crates above cite.
//!
//! **Classes.** A `ClassDef` is a class in one version: its `Base`s, and its `Member`s, each of which holds a `Kind`.
//! `Classes` is a list of them in the order in which they came. `find` and `find_sum` give the class that a search through
//! the list finds first, `newest` the newest of a name, by maps beside the list; `find_judged` and `find_sum_judged` also
//! return whether its members can be read, which was judged when it was put there. `last_named` and `same_name_before` lead
//! through the classes of one name. `specs/Classes.antt` says which class is found, `Members.antt` which members can be read;
//! `Chain.antt`, `Index.antt`, `Places.antt` and `CounterSet.antt` say how the maps represent the list.
//!
//! **Values.** A `Value` is an integer, the bits of a floating-point number, a truth value, a text, a list, an object with its
//! `Part`s, what a pointer leads to, or an object that isn't read. It is the value of contracts too: two are equal where
//! they hold the same, and `==` compares them so. `copy` makes an equal one. The methods of `Value` return what it holds:
//! `as_i32` and its like for numbers, texts and lists, `class`, `version`, `part` and `member` for objects
//! (`specs/Accessors.antt`, `PartsWithBases.antt`). `depth` returns how deep objects stand in one another (`Depth.antt`),
//! `longest_list` how many items the longest list has (`LongestList.antt`).
//!
//! **Around objects.** `ObjReader` stands in the data of objects and keeps the pointer words that it met. `header` reads a
//! `Header`, whose count is within the data, `finish` compares the count with the bytes that were used, and `pointer` reads a
//! `PointerWord`: null, an earlier object, or a new one with its class. Each returns an `ObjFault` with its place, and then
//! stays where it was; `put_text` of a fault prints it. `ObjWriter` grows by the same: `begin`, `begin_pointer` and `back`,
//! and `end` puts the count of what was begun. The rules stand once, as descriptions, in `specs/Frames.antt`, over what was
//! met (`ReaderState.antt`); `specs/Writer.antt` has what is written.
//!
//! **Objects.** What objects of a class consist of: their forms, bodies and parts, and which classes are among their bases. A
//! [`PartList`] makes the parts of an object, and [`titled_object`], [`array_object`] and [`list_object`] make objects of
//! built-in classes with it.
//!
//! `==` of kinds, members, bases, classes and lists of them compares what they hold (`proofs/ClassEqualLaws.antt`).
#![tactic(auto)]

mod accessors;
mod base_set;
mod bases;
mod body;
mod built_in;
mod chain;
mod class;
mod classes;
mod counters;
mod equal;
mod fault;
mod fault_text;
mod forget;
mod form;
mod index;
mod kind;
mod laws;
mod limits;
mod lists;
mod longest;
mod member;
mod members;
mod part_list;
mod reader;
mod slot;
mod value;
mod width;
mod words;
mod writer;

pub use accessors::part_of;
pub use base_set::BaseSet;
pub use bases::{derives_from, is_headed};
pub use body::{Body, BodyKind, body_of, declared_body, headed_version};
pub use built_in::BuiltIn;
pub use class::{Base, Bases, ClassDef, Member, Members};
pub use classes::Classes;
pub use counters::Counters;
pub use fault::ObjFault;
pub use form::{Form, form_of};
pub use kind::{Kind, Prim, Primitive};
pub use laws::{
    broken_is_fault, fault_is_broken, fault_is_not_spelled, fitting_values_stay_read,
    is_spelled_once, no_base_is_deeper, one_answer, read_is_spelled, read_stays, spelled_is_read,
    written_is_spelled,
};
pub use limits::{DEPTH_LIMIT, LENGTH_LIMIT};
pub use lists::ClassLists;
pub use longest::longest_list;
pub use part_list::{PartList, array_object, list_object, part_with, titled_object};
pub use reader::ObjReader;
pub use slot::{Field, Fields, FieldsKind, Slot, SlotKind, body_fields, fields_of, slot_of};
pub use value::{Part, Parts, Rows, Value, Values, copy, depth};
pub use width::width_of;
pub use words::{Header, PointerWord};
pub use writer::{ObjWriter, Open};
