//! What a scan prints of a tree.
ghost use Rattle.std.specs.Prelude.{◌≡◌, ◌++◌, Some, true, codes, OnOk};
ghost use Rattle.rio_model.specs.declared.map_fault.MapFault.TheVariants.{NoMemory as OutOfMemory};
ghost use Rattle.rio_num.specs.Answers.{GivesUnless};
ghost use Rattle.rio_step.specs.Refusing.{row_seen_by, row_seen_in};
ghost use Rattle.rio_step.specs.ReplyText.{row_text};
ghost use Rattle.rio_reply.specs.Scanned.{row_fault_line, row_fault_text, row_line, row_line_as, scan_start, seen_behind, values_behind};
ghost use Rattle.rio_model.specs.Mapping.{as_version};

use rio_entry::RowFault;
use rio_format::{Base, Classes, Value, Values};
use rio_map::as_version;
use rio_model::MapFault;
use rio_num::{Bytes, NoMemory};
use rio_valtext::print_value;
use std::alloc::Global;

/// Puts `ok scan NAME COUNT` at the end, the first line of a scan. The lines of the rows follow.
pub fn put_scan_start(text: &mut Bytes, name: &[u8], count: u64) -> Result<(), NoMemory>
    ensures { OnOk result (text.new.bytes ≡ text.old.bytes ++ scan_start name.now count) }
{
    text.put(b"ok scan ")?;
    text.put_name(name)?;
    text.put_numbered(count)?;
    text.put(b"\n")
}

// Puts values at the end, with a comma and a space before each but the first.
fn put_values(text: &mut Bytes, values: &[Value]) -> Result<(), NoMemory>
    ensures { OnOk result (text.new.bytes ≡ text.old.bytes ++ values_behind true values.now) }
{
    let mut first = true;
    for value in values {
        if !first {
            text.put(b", ")?;
        }
        print_value(value, text)?;
        first = false;
    }
    Ok(())
}

// Puts a row at the end in square brackets.
fn put_brackets(text: &mut Bytes, row: &[Value]) -> Result<(), NoMemory>
    ensures { OnOk result (text.new.bytes
        ≡ text.old.bytes ++ (codes "[" ++ values_behind true row.now ++ codes "]")) }
{
    text.put(b"[")?;
    put_values(text, row)?;
    text.put(b"]")
}

// Puts a row at the end as a list is printed.
fn put_row(text: &mut Bytes, row: &[Value]) -> Result<(), NoMemory>
    ensures { OnOk result (text.new.bytes ≡ text.old.bytes ++ row_text row.now) }
{
    put_brackets(text, row)
}

/// Puts the line of a row at the end: its number, and the row as a list.
pub fn put_row_line(text: &mut Bytes, number: u64, row: &[Value]) -> Result<(), NoMemory>
    ensures { OnOk result (text.new.bytes ≡ text.old.bytes ++ row_line number row.now) }
{
    text.put_decimal(number)?;
    text.put(b" ")?;
    put_row(text, row)?;
    text.put(b"\n")
}

// Puts values at the end of a row, with the objects of the class in the version.
fn push_seen(
    alloc: Global,
    classes: &Classes,
    asked: &Base,
    values: &[Value],
    row: &mut Values,
) -> Result<(), MapFault>
    ensures { GivesUnless OutOfMemory (λ _. row.new) result (seen_behind row.old
        (row_seen_by (as_version classes.now asked.now.name asked.now.version) values.now)) }
{
    for value in values {
        let name = asked.name.as_slice();
        row.push(as_version(alloc, classes, name, asked.version, value)?)?;
    }
    Ok(())
}

/// The row with the objects of the class in the version.
pub fn row_as(
    alloc: Global,
    classes: &Classes,
    asked: &Base,
    row: &[Value],
) -> Result<Values, MapFault>
    ensures { GivesUnless OutOfMemory (λ seen. seen) result
        (row_seen_in classes.now (Some asked.now) row.now) }
{
    let mut seen = Values::new(alloc);
    push_seen(alloc, classes, asked, row, &mut seen)?;
    Ok(seen)
}

/// Puts the line of a row at the end, with the objects of the class in the version; or why the row can't be had so.
pub fn put_row_line_as(
    alloc: Global,
    text: &mut Bytes,
    classes: &Classes,
    asked: &Base,
    number: u64,
    row: &[Value],
) -> Result<(), MapFault>
    ensures { GivesUnless OutOfMemory (λ _. text.new.bytes) result
        (row_line_as classes.now asked.now number text.old.bytes row.now) }
{
    let seen = row_as(alloc, classes, asked, row)?;
    Ok(put_row_line(text, number, seen.as_slice())?)
}

fn put_fault_text(text: &mut Bytes, fault: RowFault) -> Result<(), NoMemory>
    ensures { OnOk result (text.new.bytes ≡ text.old.bytes ++ row_fault_text fault) }
{
    match fault {
        RowFault::Basket(fault) => fault.put_text(text),
        RowFault::Entry { place } => text.put_with_number(b"BadEntry", place),
    }
}

/// Puts the line of a row at the end that isn't read: its number and why.
pub fn put_row_fault(text: &mut Bytes, number: u64, fault: RowFault) -> Result<(), NoMemory>
    ensures { OnOk result (text.new.bytes ≡ text.old.bytes ++ row_fault_line number fault) }
{
    text.put_decimal(number)?;
    text.put(b" fault ")?;
    put_fault_text(text, fault)?;
    text.put(b"\n")
}
