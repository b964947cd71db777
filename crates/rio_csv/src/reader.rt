//! Rows of a text, one by one or all.
ghost use Rattle.std.specs.Prelude.{◌≡◌, None, Some, IfOk, OnErr};
ghost use Rattle.csv.specs.Reading.{NotLengths, default_config, error_kind, records, strip_bom};
ghost use Rattle.csv.specs.Records.{fields_of};
ghost use Rattle.rio_csv.specs.Rows.{rows_in};
ghost use Rattle.rio_csv.specs.Unread.{ReadsRecords, TakesFirst, TakesRecord, records_of};

use crate::read::{letters_of, row_in};
use csv::{ByteRecord, Error, Reader, ReaderBuilder};
use rio_format::{Rows, Values};
use rio_leaf::BranchDef;
use rio_num::{Name, NoMemory};
use std::alloc::Global;
use std::marker::Model;

/// How far a reader of rows is.
#[derive(Clone, Copy, Debug, PartialEq, Eq)]
pub(crate) enum Progress {
    /// There may be more rows.
    Reading,
    /// There are no more rows.
    Ended,
    /// A row was lost for want of memory.
    Failed,
}

/// Reads the rows of a CSV text one by one. Contracts see the rows that are left, or None after a call that found no
/// memory: each further call returns `NoMemory` then.
#[derive(Drop)]
pub struct RowReader<'a> {
    alloc: Global,
    letters: Name,
    reader: Reader<&'a [u8]>,
    line: ByteRecord,
    progress: Progress,
}

impl<'a> Model for RowReader<'a> {
    ghost use Rattle.std.specs.Coded.{codes};
    ghost use Rattle.std.specs.Prelude.{List, Option};
    ghost use Rattle.rio_format.specs.contracts.value.Value as values;
    ghost use Rattle.rio_format.specs.declared.value.Value.{Value as Field};
    ghost use Rattle.rio_csv.specs.Unread.{IsAtRow, rows_left};

    ghost Value = { Option (List (List Field)) };

    ghost coded = { Prim.hlevel (codes, values.the_row.coded) };

    ghost view = { λ rows. rows_left rows.progress rows.letters rows.reader };

    ghost invariant = { λ rows. IsAtRow rows.progress rows.reader };
}

// A reader that takes records of any length fails only for want of memory: its bytes are in memory already.
fn no_memory(_error: &Error) -> NoMemory
    requires { NotLengths (error_kind _error.now) }
{
    NoMemory
}

// Reads the next record into `line`, if there is one.
fn read_record(reader: &mut Reader<&[u8]>, line: &mut ByteRecord) -> Result<bool, NoMemory>
    requires { ReadsRecords reader.old }
    ensures { IfOk result (λ found.
        TakesRecord reader.old found (fields_of line.new) reader.new) }
{
    match reader.read_byte_record(line) {
        Ok(found) => Ok(found),
        Err(error) => Err(no_memory(&error)),
    }
}

// A reader of the records of a text, which has no header and whose records may differ in length.
fn records_in<'a>(alloc: Global, bytes: &'a [u8]) -> Reader<&'a [u8]>
    ensures reads { ReadsRecords result }
    ensures records { records_of result ≡ Some (records default_config (strip_bom bytes.now)) }
{
    ReaderBuilder::new()
        .has_headers(false)
        .flexible(true)
        .from_reader(alloc, bytes)
}

impl<'a> RowReader<'a> {
    /// The rows of a CSV text, for trees of these branches, as [`read_rows`] gives them.
    pub fn new(
        alloc: Global,
        bytes: &'a [u8],
        branches: &[BranchDef],
    ) -> Result<RowReader<'a>, NoMemory>
        ensures { IfOk result (λ rows. rows ≡ Some (rows_in branches.now bytes.now)) }
    {
        Ok(RowReader {
            alloc,
            letters: letters_of(alloc, branches)?,
            reader: records_in(alloc, bytes),
            line: ByteRecord::new(alloc),
            progress: Progress::Reading,
        })
    }

    /// The next row, or None where there are no more. A bad row is empty.
    pub fn next_row(&mut self) -> Result<Option<Values>, NoMemory>
        ensures row { IfOk result (λ row. TakesFirst self.old row self.new) }
        ensures failed { OnErr result (self.new ≡ None) }
    {
        match self.progress {
            Progress::Reading => {}
            Progress::Ended => return Ok(None),
            Progress::Failed => return Err(NoMemory),
        }
        self.progress = Progress::Failed;
        if !read_record(&mut self.reader, &mut self.line)? {
            self.progress = Progress::Ended;
            return Ok(None);
        }
        let row = row_in(self.alloc, self.letters.as_slice(), &self.line)?;
        self.progress = Progress::Reading;
        Ok(Some(row))
    }
}

/// The rows of a CSV text, which has no header: for each record a row of one value for each leaf of the branches. A field is
/// an integer for the letters B, b, S, s, I, i, L and l, `true` or `false` for O, `0x` and 8 or 16 hexadecimal digits for F
/// and D, and its own bytes for C. Where a field is anything else, or there are more or fewer fields than leaves, the row is
/// empty. Lists of values and objects have no fields. Any bytes are a text.
pub fn read_rows(alloc: Global, bytes: &[u8], branches: &[BranchDef]) -> Result<Rows, NoMemory>
    ensures { IfOk result (λ rows. rows ≡ rows_in branches.now bytes.now) }
{
    let mut reader = RowReader::new(alloc, bytes, branches)?;
    let mut rows = Rows::new(alloc);
    while let Some(row) = reader.next_row()? {
        rows.push(row)?;
    }
    Ok(rows)
}
