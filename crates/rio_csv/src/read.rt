//! The rows of records.
ghost use Rattle.std.specs.Prelude.{◌≡◌, ◌++◌, map, IfOk, OnOk};
ghost use Rattle.csv.specs.Records.{fields_of};
ghost use Rattle.rio_csv.specs.Rows.{letters_of, row_in, shape_letters, values_in};

use crate::field::value_in_field;
use csv::ByteRecord;
use rio_format::Values;
use rio_leaf::{BranchDef, Leaf, Shape};
use rio_num::{Name, NoMemory};
use std::alloc::Global;

fn push_leaves(leaves: &[Leaf], letters: &mut Name) -> Result<(), NoMemory>
    ensures { OnOk result (letters.new ≡ letters.old ++ map (λ leaf. leaf.letter) leaves.now) }
{
    for leaf in leaves {
        letters.push(leaf.letter)?;
    }
    Ok(())
}

fn push_letters(shape: &Shape, letters: &mut Name) -> Result<(), NoMemory>
    ensures { OnOk result (letters.new ≡ letters.old ++ shape_letters shape.now) }
{
    match shape {
        Shape::Leaves(leaves) => push_leaves(leaves.as_slice(), letters),
        Shape::Class(_) => Ok(()),
    }
}

// The letters of the leaves, in order.
pub(crate) fn letters_of(alloc: Global, branches: &[BranchDef]) -> Result<Name, NoMemory>
    ensures { IfOk result (λ letters. letters ≡ letters_of branches.now) }
{
    let mut letters = Name::new(alloc);
    for branch in branches {
        push_letters(&branch.shape, &mut letters)?;
    }
    Ok(letters)
}

// The values of a record's fields, where there is one for each letter, and it spells one of its letter.
fn values_in(alloc: Global, letters: &[u8], line: &ByteRecord) -> Result<Option<Values>, NoMemory>
    ensures { IfOk result (λ values. values ≡ values_in letters.now (fields_of line.now)) }
{
    if line.len() != letters.len() {
        return Ok(None);
    }
    let mut values = Values::with_capacity(alloc, letters.len())?;
    for i in 0..letters.len() {
        let Some(field) = line.get(i) else {
            return Ok(None);
        };
        match value_in_field(alloc, letters[i], field)? {
            Some(value) => values.push(value)?,
            None => return Ok(None),
        }
    }
    Ok(Some(values))
}

pub(crate) fn row_in(alloc: Global, letters: &[u8], line: &ByteRecord) -> Result<Values, NoMemory>
    ensures { IfOk result (λ row. row ≡ row_in letters.now (fields_of line.now)) }
{
    match values_in(alloc, letters, line)? {
        Some(values) => Ok(values),
        None => Ok(Values::new(alloc)),
    }
}
