//! The lines that are said of a tree.
ghost use Rattle.std.specs.Prelude.{◌≡◌, ◌++◌, codes, false, length, Err, IfOk, OnOk};
ghost use Rattle.rio_num.specs.Printed.{name_text};
ghost use Rattle.rio_entry.specs.BranchRows.{read_values};
ghost use Rattle.rio_entry.specs.RowFaults.{fault_of_lanes};
ghost use Rattle.rio_report.specs.RowForms.{numbered_row, row_text};
ghost use Rattle.rio_report.specs.RowTexts.{first_after, values_behind, values_unrefused};
ghost use Rattle.rio_report.specs.RowTexts.{had_line, map_fault_text};
ghost use Rattle.rio_report.specs.Scan.{count_line, refused_line, refused_lines};
ghost use Rattle.rio_model.specs.Lists.{separated};
ghost use Rattle.rio_model.specs.ValueText.{text_of_value};
ghost use Rattle.rio_step.specs.Refusing.{row_seen_in};
ghost use Rattle.rio_format.specs.declared.value.Value.{List as Listed};

use crate::row_form::RowForm;
use crate::versions::seen_row;
use rio_csv::print_row;
use rio_entry::{Lane, RowFault};
use rio_format::{Classes, Value, Values};
use rio_key::BasketFault;
use rio_map::MapFault;
use rio_num::{Bytes, NoMemory};
use rio_tree::{Branch, BranchRefusal};
use rio_valtext::print_value;
use std::alloc::Global;

// Puts the line of a branch at the end, if it isn't read.
fn put_refused_line(
    text: &mut Bytes,
    branch: &Branch,
    refusal: Option<BranchRefusal>,
) -> Result<(), NoMemory>
    ensures { OnOk result (text.new.bytes ≡ text.old.bytes ++ refused_line branch.now refusal) }
{
    if let Some(refusal) = refusal {
        text.put(b"branch ")?;
        text.put_name(branch.def.name.as_slice())?;
        text.put(b" refused ")?;
        text.put(refusal.name())?;
        text.put(b"\n")?;
    }
    Ok(())
}

/// Puts a line at the end for each branch that isn't read.
pub(crate) fn put_refused_lines(
    text: &mut Bytes,
    branches: &[Branch],
    refusals: &[Option<BranchRefusal>],
) -> Result<(), NoMemory>
    requires { length refusals.now ≡ length branches.now }
    ensures { OnOk result
        (text.new.bytes ≡ text.old.bytes ++ refused_lines branches.now refusals.now) }
{
    for (k, branch) in branches.iter().enumerate() {
        put_refused_line(text, branch, refusals[k])?;
    }
    Ok(())
}

/// Puts the tree's name and the number of its entries at the end, but not of CSV.
pub(crate) fn put_count(
    text: &mut Bytes,
    form: &RowForm,
    name: &[u8],
    entries: u64,
) -> Result<(), NoMemory>
    ensures { OnOk result
        (text.new.bytes ≡ text.old.bytes ++ count_line form.now.csv name.now entries) }
{
    if form.csv {
        return Ok(());
    }
    text.put(b"ok scan ")?;
    text.put_name(name)?;
    text.put(b" ")?;
    text.put_decimal(entries)?;
    text.put(b"\n")
}

// Puts values at the end, with a comma and a space before each that isn't the first of the row.
fn put_values(text: &mut Bytes, values: &[Value], first: bool) -> Result<(), NoMemory>
    ensures { OnOk result (text.new.bytes ≡ text.old.bytes ++ values_behind first values.now) }
{
    let mut first = first;
    for value in values {
        if !first {
            text.put(b", ")?;
        }
        print_value(value, text)?;
        first = false;
    }
    Ok(())
}

// Puts the values of a branch at the end, if it isn't refused, and tells whether those behind them stand at the front.
fn put_branch_values(
    text: &mut Bytes,
    refusal: &Option<BranchRefusal>,
    values: &Values,
    first: bool,
) -> Result<bool, NoMemory>
    ensures put { OnOk result (text.new.bytes ≡
        text.old.bytes ++ values_behind first (values_unrefused refusal.now values.now)) }
    ensures behind { IfOk result
        (λ behind. behind ≡ first_after first (values_unrefused refusal.now values.now)) }
{
    if refusal.is_some() {
        return Ok(first);
    }
    put_values(text, values.as_slice(), first)?;
    Ok(first && values.is_empty())
}

// Puts the values of the branches at the end that aren't refused.
fn put_read_values(
    text: &mut Bytes,
    refusals: &[Option<BranchRefusal>],
    values: &[Values],
) -> Result<(), NoMemory>
    requires { length values.now ≡ length refusals.now }
    ensures { OnOk result (text.new.bytes ≡
        text.old.bytes ++ separated text_of_value (read_values refusals.now values.now)) }
{
    let mut first = true;
    for k in 0..refusals.len() {
        first = put_branch_values(text, &refusals[k], &values[k], first)?;
    }
    Ok(())
}

// Puts a row at the end in square brackets.
fn put_brackets(
    text: &mut Bytes,
    refusals: &[Option<BranchRefusal>],
    values: &[Values],
) -> Result<(), NoMemory>
    requires { length values.now ≡ length refusals.now }
    ensures { let texts = separated text_of_value (read_values refusals.now values.now) in
        OnOk result (text.new.bytes ≡ text.old.bytes ++ (codes "[" ++ texts ++ codes "]")) }
{
    text.put(b"[")?;
    put_read_values(text, refusals, values)?;
    text.put(b"]")
}

// Puts a row at the end as a list is printed.
fn put_list(
    text: &mut Bytes,
    refusals: &[Option<BranchRefusal>],
    values: &[Values],
) -> Result<(), NoMemory>
    requires { length values.now ≡ length refusals.now }
    ensures { OnOk result (text.new.bytes ≡
        text.old.bytes ++ text_of_value (Listed (read_values refusals.now values.now))) }
{
    put_brackets(text, refusals, values)
}

// Puts the line of a row at the end, with all as it is.
fn put_plain_row(
    text: &mut Bytes,
    entry: u64,
    refusals: &[Option<BranchRefusal>],
    values: &[Values],
) -> Result<(), NoMemory>
    requires { length values.now ≡ length refusals.now }
    ensures { OnOk result (text.new.bytes ≡
        text.old.bytes ++ numbered_row entry (read_values refusals.now values.now)) }
{
    text.put_decimal(entry)?;
    text.put(b" ")?;
    put_list(text, refusals, values)?;
    text.put(b"\n")
}

// Puts the line of a row at the end that was made for it.
fn put_own_row(text: &mut Bytes, csv: bool, entry: u64, row: Values) -> Result<(), NoMemory>
    ensures { OnOk result (text.new.bytes ≡ text.old.bytes ++ row_text csv entry row) }
{
    if csv {
        return print_row(&row, text);
    }
    text.put_decimal(entry)?;
    text.put(b" ")?;
    print_value(&Value::List(row), text)?;
    text.put(b"\n")
}

fn put_changed(text: &mut Bytes, member: &[u8]) -> Result<(), NoMemory>
    ensures { OnOk result
        (text.new.bytes ≡ text.old.bytes ++ (codes "KindChanged " ++ name_text member.now)) }
{
    text.put(b"KindChanged ")?;
    text.put_name(member)
}

fn put_map_fault(text: &mut Bytes, fault: &MapFault) -> Result<(), NoMemory>
    ensures { OnOk result (text.new.bytes ≡ text.old.bytes ++ map_fault_text fault.now) }
{
    match fault {
        MapFault::KindChanged { member } => put_changed(text, member.as_slice()),
        MapFault::NoVersion => text.put(b"NoVersion"),
        MapFault::NoMemory => Err(NoMemory),
    }
}

// Puts the line of a row at the end that can't be had: its number and why.
fn put_unseen_row(text: &mut Bytes, entry: u64, fault: &MapFault) -> Result<(), NoMemory>
    ensures { OnOk result
        (text.new.bytes ≡ text.old.bytes ++ had_line false entry (Err fault.now)) }
{
    text.put_decimal(entry)?;
    text.put(b" fault ")?;
    put_map_fault(text, fault)?;
    text.put(b"\n")
}

/// Puts the line of a row at the end in its form.
pub(crate) fn put_row(
    alloc: Global,
    classes: &Classes,
    form: &RowForm,
    entry: u64,
    refusals: &[Option<BranchRefusal>],
    values: &[Values],
    text: &mut Bytes,
) -> Result<(), NoMemory>
    requires { length values.now ≡ length refusals.now }
    ensures { OnOk result (text.new.bytes ≡ text.old.bytes ++ had_line form.now.csv entry
        (row_seen_in classes.now form.now.class (read_values refusals.now values.now))) }
{
    if form.class.is_none() && !form.csv {
        return put_plain_row(text, entry, refusals, values);
    }
    match seen_row(alloc, classes, form, refusals, values) {
        Ok(row) => put_own_row(text, form.csv, entry, row),
        Err(MapFault::KindChanged { member }) => {
            put_unseen_row(text, entry, &MapFault::KindChanged { member })
        }
        Err(MapFault::NoVersion) => put_unseen_row(text, entry, &MapFault::NoVersion),
        Err(MapFault::NoMemory) => Err(NoMemory),
    }
}

/// The first fault of a row that isn't read any more.
pub(crate) fn row_fault(lanes: &[Lane]) -> RowFault
    ensures { result ≡ fault_of_lanes lanes.now }
{
    for lane in lanes {
        if let Some(fault) = lane.fault {
            return fault;
        }
    }
    RowFault::Basket(BasketFault::BadLast { place: 0 })
}
