//! Whether a row fits the branches of a tree.
ghost use Rattle.std.specs.Prelude.{◌≡◌, List, length, map, IfOk};
ghost use Rattle.rio_format.specs.{Bodies.{Counters}, Counts.{SaysAsFirst}, declared.class.ClassDef.{ClassDef as Class}};
ghost use Rattle.rio_machine.specs.Rows.{leaf_column, leaf_kind, row_fits, shape_columns, sized_kind};
ghost use Rattle.rio_tree.specs.WrittenLaws.{stated_defs};
ghost use Rattle.rio_entry.specs.Fitting.{TellsFit};
ghost use Rattle.rio_entry.specs.Leaves.{kind_fits};

use crate::fit::{counted_fits, list_fits, single_fits};
use crate::leaf::letter_kind;
use crate::numbers::{Numbers, number_said, put_number};
use rio_fit::fits;
use rio_format::{Classes, Prim, Value};
use rio_leaf::{Dim, Leaf, Shape};
use rio_num::NoMemory;
use rio_tree::Branch;
use std::alloc::Global;

// Whether the value fits a leaf of these numbers and this dimension, behind leaves that say such numbers.
fn sized_behind(of: Prim, dim: &Dim, numbers: &Numbers, value: &Value) -> bool
    ensures { (before : Counters) → SaysAsFirst numbers.now before
        → result ≡ kind_fits (sized_kind before of dim.now) value.now }
{
    match dim {
        Dim::One => single_fits(of, value),
        Dim::Fixed(n) => list_fits(of, u128::from(*n), value),
        Dim::Counted { counter, times } => match number_said(numbers, counter.as_slice()) {
            Some(count) => counted_fits(of, *times, count, value),
            None => false,
        },
    }
}

// Whether the value fits the leaf, behind leaves that say such numbers.
fn fits_behind(leaf: &Leaf, numbers: &Numbers, value: &Value) -> bool
    ensures { (before : Counters) → SaysAsFirst numbers.now before
        → result ≡ kind_fits (leaf_kind before leaf.now) value.now }
{
    match letter_kind(leaf.letter) {
        Some(of) => sized_behind(of, &leaf.dim, numbers, value),
        None => leaf.letter == b'C' && matches!(value, Value::Text(_)),
    }
}

// Whether the values fit the leaves, one for each, behind leaves that say such numbers. What they say is noted.
fn leaves_stand<'a>(
    leaves: &'a [Leaf],
    values: &[Value],
    numbers: &mut Numbers<'a>,
) -> Result<bool, NoMemory>
    ensures { (classes : List Class) (before : Counters) → SaysAsFirst numbers.old before
        → IfOk result (λ fit. TellsFit classes (map leaf_column leaves.now) values.now before
        fit numbers.new) }
{
    if leaves.len() != values.len() {
        return Ok(false);
    }
    for (k, leaf) in leaves.iter().enumerate() {
        let value = &values[k];
        if !fits_behind(leaf, numbers, value) {
            return Ok(false);
        }
        put_number(numbers, leaf.name.as_slice(), value.number())?;
    }
    Ok(true)
}

// Whether these values of a row fit the branch, behind leaves that say such numbers. What its leaves say is noted.
fn values_stand<'a>(
    alloc: Global,
    classes: &Classes,
    shape: &'a Shape,
    values: &[Value],
    numbers: &mut Numbers<'a>,
) -> Result<bool, NoMemory>
    ensures { (before : Counters) → SaysAsFirst numbers.old before
        → IfOk result (λ fit. TellsFit classes.now (shape_columns shape.now) values.now before
        fit numbers.new) }
{
    match shape {
        Shape::Leaves(leaves) => leaves_stand(leaves.as_slice(), values, numbers),
        Shape::Class(class) => match values {
            [value] => fits(alloc, classes, class.as_slice(), value),
            _ => Ok(false),
        },
    }
}

/// How many values of a row belong to the branch.
pub fn value_count(shape: &Shape) -> usize
    ensures { result ≡ length (shape_columns shape.now) }
{
    match shape {
        Shape::Leaves(leaves) => leaves.len(),
        Shape::Class(_) => 1,
    }
}

/// Whether the row fits the branches: one value for each leaf, or one object for a branch of a class, and it fits there,
/// where a leaf is counted by what the nearest leaf of its counter's name before it says.
pub fn row_fits(
    alloc: Global,
    classes: &Classes,
    branches: &[Branch],
    row: &[Value],
) -> Result<bool, NoMemory>
    ensures { IfOk result
        (λ fit. fit ≡ row_fits classes.now (stated_defs branches.now) row.now) }
{
    let mut numbers = Numbers::new(alloc);
    let mut rest = row;
    for branch in branches {
        let shape = &branch.def.shape;
        let (values, others) = rest.split_at(value_count(shape).min(rest.len()));
        if !values_stand(alloc, classes, shape, values, &mut numbers)? {
            return Ok(false);
        }
        rest = others;
    }
    Ok(rest.is_empty())
}
