//! Rows as lines.
ghost use Rattle.std.specs.Prelude.{◌≡◌, [], ◌∷◌, ◌++◌, map, IfOk, OnOk, OnErr};
ghost use Rattle.csv.specs.Records.{fields_of, partial_of};
ghost use Rattle.csv.specs.Writing.{default_writer, row_text};
ghost use Rattle.rio_num.specs.Room.{with_more};
ghost use Rattle.rio_csv.specs.Fields.{field_of};
ghost use Rattle.rio_csv.specs.Rows.{line_of};

use csv::{ByteRecord, WriterBuilder};
use rio_format::{Value, Values};
use rio_num::{Bytes, NoMemory};
use rio_valtext::print_value;
use std::alloc::Global;

// Puts the value's field at the end of a record. The text is for use here.
fn push_value(line: &mut ByteRecord, value: &Value, text: &mut Bytes) -> Result<(), NoMemory>
    ensures fields { OnOk result (partial_of line.old ≡ []
        → fields_of line.new ≡ fields_of line.old ++ field_of value.now ∷ []) }
    ensures partial { OnOk result (partial_of line.new ≡ []) }
{
    match value.as_text() {
        Some(bytes) => line.push_field(bytes)?,
        None => {
            text.clear();
            print_value(value, text)?;
            line.push_field(text.as_slice())?;
        }
    }
    Ok(())
}

// The fields of a row.
fn record_of(alloc: Global, row: &[Value]) -> Result<ByteRecord, NoMemory>
    ensures { IfOk result (λ line. fields_of line ≡ map field_of row.now) }
{
    let mut line = ByteRecord::new(alloc);
    let mut text = Bytes::new(alloc);
    for value in row {
        push_value(&mut line, value, &mut text)?;
    }
    Ok(line)
}

// The line that is written of the fields.
fn written(alloc: Global, line: &ByteRecord) -> Result<Vec<u8>, NoMemory>
    ensures { IfOk result (λ text. text.items ≡ row_text default_writer (fields_of line.now)) }
{
    let mut writer = WriterBuilder::new().from_writer(Vec::new(alloc));
    if writer.write_byte_record(line).is_err() {
        return Err(NoMemory);
    }
    match writer.into_inner() {
        Ok(text) => Ok(text),
        Err(_) => Err(NoMemory),
    }
}

/// Puts the line of a row at the end, with the line feed that ends it: the fields of its values with commas between them, in
/// double quotes where they have to be. Without memory nothing is put.
pub fn print_row(row: &Values, into: &mut Bytes) -> Result<(), NoMemory>
    ensures ok { OnOk result (into.new ≡ with_more into.old (line_of row.now)) }
    ensures err { OnErr result (into.new ≡ into.old) }
{
    let line = record_of(into.allocator(), row.as_slice())?;
    let text = written(into.allocator(), &line)?;
    into.put(text.as_slice())
}
