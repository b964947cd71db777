//! The parts of objects that are made, and objects of built-in classes over them.
ghost use Rattle.std.specs.Prelude.{◌≡◌, IfOk};
ghost use Rattle.rio_format.specs.{Bodies.{part}, WrittenList.{array_object, list_object, plain_object, titled_object}};

use crate::{Part, Parts, Value, Values};
use rio_num::{Name, NoMemory};
use std::alloc::Global;
use std::marker::Model;

/// A part of this name. A base has an empty one.
pub fn part_with(alloc: Global, name: &[u8], value: Value) -> Result<Part, NoMemory>
    ensures { IfOk result (λ p. p ≡ part name.now value) }
{
    Ok(Part {
        name: Name::from_slice(alloc, name)?,
        value,
    })
}

/// The parts of an object, which are put one behind the other. Contracts see them in order.
#[derive(Drop)]
pub struct PartList {
    alloc: Global,
    parts: Parts,
}

impl Model for PartList {
    ghost use Rattle.std.specs.Coded.{codes};
    ghost use Rattle.std.specs.Prelude.{List};
    ghost use Rattle.rio_format.specs.contracts.value.Value as values;
    ghost use Rattle.rio_format.specs.declared.value.Part.{Part as ValuePart};

    ghost Value = { List ValuePart };

    ghost coded = { Prim.hlevel (codes, values.the_row.coded) };

    ghost view = { λ list. list.parts };
}

impl PartList {
    ghost use Rattle.std.specs.Prelude.{[], ◌∷◌, ◌++◌};
    ghost use Rattle.rio_format.specs.{declared.value.Value.{Int, Object, Text}, WrittenList.{number_part}};

    /// No parts.
    pub fn new(alloc: Global) -> PartList
        ensures { result ≡ [] }
    {
        PartList {
            alloc,
            parts: Parts::new(alloc),
        }
    }

    /// These parts with one more, of this name.
    pub fn with(self, name: &[u8], value: Value) -> Result<PartList, NoMemory>
        ensures { IfOk result (λ list. list ≡ self ++ part name.now value ∷ []) }
    {
        let PartList { alloc, mut parts } = self;
        parts.push(part_with(alloc, name, value)?)?;
        Ok(PartList { alloc, parts })
    }

    /// These parts with one more, which is a number without a sign.
    pub fn with_number(self, name: &[u8], number: u64) -> Result<PartList, NoMemory>
        ensures { IfOk result (λ list. list ≡ self ++ number_part name.now number ∷ []) }
    {
        self.with(name, Value::Int(i128::from(number)))
    }

    /// These parts with one more, which is a number.
    pub fn with_int(self, name: &[u8], number: i32) -> Result<PartList, NoMemory>
        ensures { IfOk result (λ list. list ≡ self ++ part name.now (Int number) ∷ []) }
    {
        self.with(name, Value::Int(i128::from(number)))
    }

    /// These parts with one more, which is a text.
    pub fn with_text(self, name: &[u8], text: &[u8]) -> Result<PartList, NoMemory>
        ensures { IfOk result (λ list. list ≡ self ++ part name.now (Text text.now) ∷ []) }
    {
        let text = Name::from_slice(self.alloc, text)?;
        self.with(name, Value::Text(text))
    }

    /// The object of the class in this version that has these parts.
    pub fn object(self, class: &[u8], version: i32) -> Result<Value, NoMemory>
        ensures { IfOk result (λ value. value ≡ Object class.now version self) }
    {
        let PartList { alloc, parts } = self;
        Ok(Value::Object {
            class: Name::from_slice(alloc, class)?,
            version,
            parts,
        })
    }
}

// A TObject.
#[tactic(auto, unfolding(crate::specs::WrittenList::plain_object))]
fn plain_object(alloc: Global) -> Result<Value, NoMemory>
    ensures { IfOk result (λ value. value ≡ plain_object) }
{
    PartList::new(alloc)
        .with_number(b"fUniqueID", 0)?
        .with_number(b"fBits", 0)?
        .object(b"TObject", 1)
}

/// A TNamed of this name and title.
#[tactic(auto, unfolding(crate::specs::WrittenList::titled_object))]
pub fn titled_object(alloc: Global, name: &[u8], title: Name) -> Result<Value, NoMemory>
    ensures { IfOk result (λ value. value ≡ titled_object name.now title) }
{
    PartList::new(alloc)
        .with(b"", plain_object(alloc)?)?
        .with_text(b"fName", name)?
        .with(b"fTitle", Value::Text(title))?
        .object(b"TNamed", 1)
}

/// A TObjArray of these items.
#[tactic(auto, unfolding(crate::specs::WrittenList::array_object))]
pub fn array_object(alloc: Global, items: Values) -> Result<Value, NoMemory>
    ensures { IfOk result (λ value. value ≡ array_object items) }
{
    PartList::new(alloc)
        .with(b"", plain_object(alloc)?)?
        .with_text(b"fName", b"")?
        .with_number(b"fLowerBound", 0)?
        .with(b"items", Value::List(items))?
        .object(b"TObjArray", 3)
}

/// A TList of these items.
#[tactic(auto, unfolding(crate::specs::WrittenList::list_object))]
pub fn list_object(alloc: Global, items: Values) -> Result<Value, NoMemory>
    ensures { IfOk result (λ value. value ≡ list_object items) }
{
    PartList::new(alloc)
        .with(b"", plain_object(alloc)?)?
        .with_text(b"fName", b"")?
        .with(b"items", Value::List(items))?
        .object(b"TList", 5)
}
