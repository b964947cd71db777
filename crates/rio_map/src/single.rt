//! Single values in another kind, and lists of them.
ghost use Rattle.std.specs.Prelude.{◌≡◌, pos, IfOk, option_and_then};
ghost use Rattle.std.specs.Int.{int_rem_euclid, int_wrap, w8, w16, w32, w64};
ghost use Rattle.std.specs.Option.{option_map};
ghost use Rattle.rio_model.specs.Mapping.{bits_as, converts, each_as, is_numeric, list_as, number_as, number_of_kind, single_as};
ghost use Rattle.rio_format.specs.{declared.kind.Primitive.TheVariants.{Bool as Truth, I64}, declared.value.Value.{Int, List as Items, out-Value}};

use rio_format::{Prim, Value, Values};
use rio_num::NoMemory;
use std::alloc::Global;

fn low_8(number: i128) -> u8
    ensures { pos result ≡ int_rem_euclid number (pos 256) }
{
    number.rem_euclid(256) as u8
}

fn low_16(number: i128) -> u16
    ensures { pos result ≡ int_rem_euclid number (pos 65536) }
{
    number.rem_euclid(65_536) as u16
}

fn low_32(number: i128) -> u32
    ensures { pos result ≡ int_rem_euclid number (pos 4294967296) }
{
    number.rem_euclid(4_294_967_296) as u32
}

fn low_64(number: i128) -> u64
    ensures { pos result ≡ int_rem_euclid number (pos 18446744073709551616) }
{
    number.rem_euclid(18_446_744_073_709_551_616) as u64
}

fn wrapped_8(number: i128) -> i8
    ensures { result ≡ int_wrap w8 number }
{
    low_8(number).cast_signed()
}

fn wrapped_16(number: i128) -> i16
    ensures { result ≡ int_wrap w16 number }
{
    low_16(number).cast_signed()
}

fn wrapped_32(number: i128) -> i32
    ensures { result ≡ int_wrap w32 number }
{
    low_32(number).cast_signed()
}

fn wrapped_64(number: i128) -> i64
    ensures { result ≡ int_wrap w64 number }
{
    low_64(number).cast_signed()
}

// A number in the kind: modulo the width, and as a truth value whether it isn't zero.
fn number_as(prim: Prim, number: i128) -> Option<Value>
    ensures { result ≡ number_as prim number }
{
    match prim {
        Prim::I8 => Some(Value::Int(i128::from(wrapped_8(number)))),
        Prim::I16 => Some(Value::Int(i128::from(wrapped_16(number)))),
        Prim::I32 => Some(Value::Int(i128::from(wrapped_32(number)))),
        Prim::I64 => Some(Value::Int(i128::from(wrapped_64(number)))),
        Prim::U8 => Some(Value::Int(i128::from(low_8(number)))),
        Prim::U16 => Some(Value::Int(i128::from(low_16(number)))),
        Prim::U32 => Some(Value::Int(i128::from(low_32(number)))),
        Prim::U64 => Some(Value::Int(i128::from(low_64(number)))),
        Prim::Bool => Some(Value::Bool(number != 0)),
        Prim::F32 | Prim::F64 => None,
    }
}

fn number_in_truth(value: &Value) -> Option<i128>
    ensures { result ≡ number_of_kind Truth (out-Value value.now) }
{
    match value {
        Value::Bool(true) => Some(1),
        Value::Bool(false) => Some(0),
        _ => None,
    }
}

fn number_in(value: &Value) -> Option<i128>
    ensures { result ≡ number_of_kind I64 (out-Value value.now) }
{
    match value {
        Value::Int(number) => Some(*number),
        _ => None,
    }
}

// The number that a value of the kind stands for.
fn number_of_kind(prim: Prim, value: &Value) -> Option<i128>
    ensures { result ≡ number_of_kind prim (out-Value value.now) }
{
    match prim {
        Prim::Bool => number_in_truth(value),
        Prim::F32 | Prim::F64 => None,
        _ => number_in(value),
    }
}

fn number_between(from: Prim, to: Prim, value: &Value) -> Option<Value>
    ensures { result ≡ option_and_then (number_as to) (number_of_kind from (out-Value value.now)) }
{
    match number_of_kind(from, value) {
        Some(number) => number_as(to, number),
        None => None,
    }
}

// A bit pattern of the kind.
fn bits_as(prim: Prim, value: &Value) -> Option<Value>
    ensures { result ≡ bits_as prim (out-Value value.now) }
{
    match (prim, value) {
        (Prim::F32, Value::Bits32(bits)) => Some(Value::Bits32(*bits)),
        (Prim::F64, Value::Bits64(bits)) => Some(Value::Bits64(*bits)),
        _ => None,
    }
}

/// A single value of one kind in another. Bit patterns stay in their kind.
pub(crate) fn single_as(from: Prim, to: Prim, value: &Value) -> Option<Value>
    ensures { result ≡ single_as from to value.now }
{
    match (from, to) {
        (Prim::F32, Prim::F32) => bits_as(Prim::F32, value),
        (Prim::F64, Prim::F64) => bits_as(Prim::F64, value),
        _ => number_between(from, to, value),
    }
}

fn is_numeric(prim: Prim) -> bool
    ensures { result ≡ is_numeric prim }
{
    !matches!(prim, Prim::F32 | Prim::F64)
}

// Whether there is a conversion, whatever the value.
fn converts(from: Prim, to: Prim) -> bool
    ensures { result ≡ converts from to }
{
    match (from, to) {
        (Prim::F32, Prim::F32) | (Prim::F64, Prim::F64) => true,
        _ => is_numeric(from) && is_numeric(to),
    }
}

fn each_as(alloc: Global, from: Prim, to: Prim, items: &[Value]) -> Result<Option<Values>, NoMemory>
    ensures { IfOk result (λ o. o ≡ each_as from to items.now) }
{
    let mut converted = Values::new(alloc);
    for item in items {
        let Some(value) = single_as(from, to, item) else {
            return Ok(None);
        };
        converted.push(value)?;
    }
    Ok(Some(converted))
}

fn items_as(alloc: Global, from: Prim, to: Prim, items: &[Value]) -> Result<Option<Value>, NoMemory>
    ensures { IfOk result (λ o. o ≡ option_map Items (each_as from to items.now)) }
{
    match each_as(alloc, from, to, items)? {
        Some(items) => Ok(Some(Value::List(items))),
        None => Ok(None),
    }
}

/// A list, value by value.
pub(crate) fn list_as(
    alloc: Global,
    from: Prim,
    to: Prim,
    value: &Value,
) -> Result<Option<Value>, NoMemory>
    ensures { IfOk result (λ o. o ≡ list_as from to value.now) }
{
    match value {
        Value::List(items) if converts(from, to) => items_as(alloc, from, to, items.as_slice()),
        _ => Ok(None),
    }
}
