//! Rows with the objects of a class in the version that is asked.
ghost use Rattle.std.specs.Prelude.{◌≡◌, length};
ghost use Rattle.rio_num.specs.Answers.{GivesUnless};
ghost use Rattle.rio_model.specs.declared.map_fault.MapFault.TheVariants.{NoMemory as OutOfMemory};
ghost use Rattle.rio_step.specs.Refusing.{row_seen_by, row_seen_in};
ghost use Rattle.rio_report.specs.RowTexts.{values_unrefused};
ghost use Rattle.rio_entry.specs.BranchRows.{read_values};
ghost use Rattle.rio_report.specs.Versions.{seen_behind, value_seen_in};

use crate::row_form::RowForm;
use rio_format::{Classes, Value, Values, copy};
use rio_map::{MapFault, as_version};
use rio_tree::BranchRefusal;
use std::alloc::Global;

// The value with the objects of the class in the version that is asked, or an equal one.
fn seen_value(
    alloc: Global,
    classes: &Classes,
    form: &RowForm,
    value: &Value,
) -> Result<Value, MapFault>
    ensures { GivesUnless OutOfMemory (λ v. v) result
        (value_seen_in classes.now form.now.class value.now) }
{
    match form.class {
        Some(asked) => as_version(alloc, classes, asked.name.as_slice(), asked.version, value),
        None => Ok(copy(alloc, value)?),
    }
}

// Puts values so at the end of a row.
fn push_seen(
    alloc: Global,
    classes: &Classes,
    form: &RowForm,
    values: &[Value],
    row: &mut Values,
) -> Result<(), MapFault>
    ensures { GivesUnless OutOfMemory (λ x. row.new) result (seen_behind row.old
        (row_seen_by (value_seen_in classes.now form.now.class) values.now)) }
{
    for value in values {
        row.push(seen_value(alloc, classes, form, value)?)?;
    }
    Ok(())
}

// Puts the values of a branch so at the end of a row, if it isn't refused.
fn push_branch_seen(
    alloc: Global,
    classes: &Classes,
    form: &RowForm,
    refusal: &Option<BranchRefusal>,
    values: &Values,
    row: &mut Values,
) -> Result<(), MapFault>
    ensures { GivesUnless OutOfMemory (λ x. row.new) result (seen_behind row.old
        (row_seen_by (value_seen_in classes.now form.now.class)
        (values_unrefused refusal.now values.now))) }
{
    if refusal.is_some() {
        return Ok(());
    }
    push_seen(alloc, classes, form, values.as_slice(), row)
}

// The values of the branches that aren't refused, each so.
fn seen_values(
    alloc: Global,
    classes: &Classes,
    form: &RowForm,
    refusals: &[Option<BranchRefusal>],
    values: &[Values],
) -> Result<Values, MapFault>
    requires { length values.now ≡ length refusals.now }
    ensures { GivesUnless OutOfMemory (λ row. row) result
        (row_seen_by (value_seen_in classes.now form.now.class)
        (read_values refusals.now values.now)) }
{
    let mut row = Values::new(alloc);
    for k in 0..refusals.len() {
        push_branch_seen(alloc, classes, form, &refusals[k], &values[k], &mut row)?;
    }
    Ok(row)
}

/// The row of these values of the branches that aren't refused, with the objects of the class in the version that is
/// asked, if one is asked.
pub(crate) fn seen_row(
    alloc: Global,
    classes: &Classes,
    form: &RowForm,
    refusals: &[Option<BranchRefusal>],
    values: &[Values],
) -> Result<Values, MapFault>
    requires { length values.now ≡ length refusals.now }
    ensures { GivesUnless OutOfMemory (λ row. row) result
        (row_seen_in classes.now form.now.class (read_values refusals.now values.now)) }
{
    seen_values(alloc, classes, form, refusals, values)
}
