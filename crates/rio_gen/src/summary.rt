//! What is printed of a generated file.
ghost use Rattle.std.specs.Prelude.{◌≡◌, ◌++◌, ◌+ℤ◌, OnOk, OnErr};
ghost use Rattle.std.specs.Fmt.{decimal};
ghost use Rattle.std.specs.Int.{int_wrap, w128};
ghost use Rattle.rio_num.specs.Room.{with_more};
ghost use Rattle.rio_gen.specs.Summary.{sum_of_row, summary_text};
ghost use Rattle.rio_format.specs.{Accessors.{number_in}, declared.value.Value.{out-Value}};

use rio_format::Value;
use rio_num::{Bytes, NoMemory};

/// A generated file: how many entries it was asked for, how many baskets its tree has, and the sum of all integers in the
/// rows of the tree.
#[derive(Clone, Copy, Debug, PartialEq, Eq)]
pub struct Summary {
    pub entries: u32,
    pub baskets: u64,
    pub sum: i128,
}

fn number_in(value: &Value) -> i128
    ensures { result ≡ number_in (out-Value value.now) }
{
    match value {
        Value::Int(n) => *n,
        _ => 0,
    }
}

/// The sum with the integers of a row, modulo 2^128.
pub fn add_integers(sum: i128, row: &[Value]) -> i128
    ensures { result ≡ int_wrap w128 (sum +ℤ sum_of_row row.now) }
{
    let mut total = sum;
    for value in row {
        total = total.wrapping_add(number_in(value));
    }
    total
}

// A number with a word before it and one behind it.
fn put_between(text: &mut Bytes, before: &[u8], n: u64, behind: &[u8]) -> Result<(), NoMemory>
    ensures { OnOk result (text.new.bytes ≡
        text.old.bytes ++ (before.now ++ (decimal n ++ behind.now))) }
{
    text.put(before)?;
    text.put_decimal(n)?;
    text.put(behind)
}

fn put_summary(text: &mut Bytes, summary: &Summary) -> Result<(), NoMemory>
    ensures { OnOk result (text.new.bytes ≡ text.old.bytes ++ summary_text summary.now) }
{
    put_between(
        text,
        b"gen ",
        u64::from(summary.entries),
        b" entries 20 branches ",
    )?;
    put_between(text, b"", summary.baskets, b" baskets sum ")?;
    text.put_integer(summary.sum)?;
    text.put(b"\n")
}

/// Puts the line of a summary at the end: `gen N entries 20 branches B baskets sum S`. Without memory nothing is put.
pub fn print_summary(summary: &Summary, into: &mut Bytes) -> Result<(), NoMemory>
    ensures ok { OnOk result (into.new ≡ with_more into.old (summary_text summary.now)) }
    ensures err { OnErr result (into.new ≡ into.old) }
{
    let mut text = Bytes::new(into.allocator());
    put_summary(&mut text, summary)?;
    into.put(text.as_slice())
}
