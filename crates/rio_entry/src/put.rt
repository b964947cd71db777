//! The values of leaves go into a sink: one walk writes them, and tells how long they are.
ghost use Rattle.std.specs.Prelude.{◌≡◌, ◌<◌, ◌^◌, length, min, IfOk, IsTrue};
ghost use Rattle.std.specs.List.{flat_map};
ghost use Rattle.rio_num.specs.Room.{room_of};
ghost use Rattle.rio_write.specs.Measuring.{too_long};
ghost use Rattle.rio_write.specs.Sinks.{SinkTakes};
ghost use Rattle.rio_entry.specs.Leaves.{leaves_bytes, single_bytes, value_bytes};

use crate::leaf::letter_kind;
use rio_format::{ObjWriter, Prim, Value};
use rio_leaf::Leaf;
use rio_num::{Bytes, NoMemory};
use rio_write::{Sink, Total, write_bool, write_prim};
use std::alloc::Global;

fn put_single<S: Sink>(sink: &mut S, of: Prim, value: &Value) -> Result<(), NoMemory>
    ensures { SinkTakes S.stands (single_bytes of value.now) result sink.old sink.new }
{
    match value {
        Value::Int(n) => write_prim(sink, *n, of),
        Value::Bits32(bits) => sink.take_u32(*bits),
        Value::Bits64(bits) => sink.take_u64(*bits),
        Value::Bool(b) => write_bool(sink, *b),
        _ => Ok(()),
    }
}

fn put_list<S: Sink>(sink: &mut S, of: Prim, values: &[Value]) -> Result<(), NoMemory>
    ensures { SinkTakes S.stands (flat_map (single_bytes of) values.now) result sink.old sink.new }
{
    for value in values {
        put_single(sink, of, value)?;
    }
    Ok(())
}

// A value of a leaf, by the kind of its single values; without one it is a text.
fn put_value<S: Sink>(sink: &mut S, of: Option<Prim>, value: &Value) -> Result<(), NoMemory>
    requires { IsTrue S.bounded → length (value_bytes of value.now) < 2 ^ 32 }
    ensures { SinkTakes S.stands (value_bytes of value.now) result sink.old sink.new }
{
    match of {
        Some(of) => match value {
            Value::List(items) => put_list(sink, of, items.as_slice()),
            _ => put_single(sink, of, value),
        },
        None => match value {
            Value::Text(text) => sink.take_text(text.as_slice()),
            _ => Ok(()),
        },
    }
}

// The values of leaves, one behind the other.
fn put_leaves<S: Sink>(sink: &mut S, leaves: &[Leaf], row: &[Value]) -> Result<(), NoMemory>
    requires one_each { length leaves.now ≡ length row.now }
    requires short { IsTrue S.bounded → length (leaves_bytes leaves.now row.now) < 2 ^ 32 }
    ensures { SinkTakes S.stands (leaves_bytes leaves.now row.now) result sink.old sink.new }
{
    for (k, leaf) in leaves.iter().enumerate() {
        put_value(sink, letter_kind(leaf.letter), &row[k])?;
    }
    Ok(())
}

/// How many bytes the values of leaves have, or 16,777,217 where they have more than 16,777,216.
pub(crate) fn leaves_length(leaves: &[Leaf], row: &[Value]) -> Result<u64, NoMemory>
    requires { length leaves.now ≡ length row.now }
    ensures { IfOk result (λ n. n ≡ min (length (leaves_bytes leaves.now row.now)) too_long) }
{
    let mut total = Total { bytes: 0 };
    put_leaves(&mut total, leaves, row)?;
    Ok(total.bytes)
}

/// The bytes of the values of leaves.
pub(crate) fn leaves_written(
    alloc: Global,
    leaves: &[Leaf],
    row: &[Value],
) -> Result<Bytes, NoMemory>
    requires one_each { length leaves.now ≡ length row.now }
    requires short { length (leaves_bytes leaves.now row.now) < 2 ^ 32 }
    ensures { IfOk result (λ b. b ≡ room_of (leaves_bytes leaves.now row.now)) }
{
    let mut writer = ObjWriter::new(alloc, 0);
    put_leaves(&mut writer, leaves, row)?;
    Ok(writer.into_bytes())
}
