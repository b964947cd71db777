//! Values of one kind in another: without the objects in them, and whether the kinds of objects and pointers agree.
ghost use Rattle.std.specs.Prelude.{◌≡◌, IfOk};
ghost use Rattle.rio_map.specs.Converting.{counted_in, fixed_in, flat_as, inline_stays, pointer_stays, single_in, stays, text_in};
ghost use Rattle.rio_model.specs.Mapping.{is_list_of, is_object_value, is_pointer_value};
ghost use Rattle.rio_format.specs.{declared.kind.Kind.TheVariants.{Text as Texts}, declared.value.Value.{out-Value}};

use crate::single::{list_as, single_as};
use rio_format::{Kind, Prim, Value, copy};
use rio_num::NoMemory;
use std::alloc::Global;

fn single_in(from: Prim, to: &Kind, value: &Value) -> Option<Value>
    ensures { result ≡ single_in from to.now value.now }
{
    match to {
        Kind::Plain { of } => single_as(from, *of, value),
        Kind::Counter => single_as(from, Prim::I32, value),
        _ => None,
    }
}

fn is_list_of(count: u32, value: &Value) -> bool
    ensures { result ≡ is_list_of count (out-Value value.now) }
{
    match value {
        Value::List(items) => items.len() == count as usize,
        _ => false,
    }
}

fn fixed_in(
    alloc: Global,
    from: Prim,
    count: u32,
    to: &Kind,
    value: &Value,
) -> Result<Option<Value>, NoMemory>
    ensures { IfOk result (λ o. o ≡ fixed_in from count to.now value.now) }
{
    match to {
        Kind::Fixed { of, count: wanted } if count == *wanted && is_list_of(count, value) => {
            list_as(alloc, from, *of, value)
        }
        _ => Ok(None),
    }
}

fn counted_in(
    alloc: Global,
    from: Prim,
    to: &Kind,
    value: &Value,
) -> Result<Option<Value>, NoMemory>
    ensures { IfOk result (λ o. o ≡ counted_in from to.now value.now) }
{
    match to {
        Kind::Counted { of, .. } => list_as(alloc, from, *of, value),
        _ => Ok(None),
    }
}

fn text_copied(alloc: Global, value: &Value) -> Result<Option<Value>, NoMemory>
    ensures { IfOk result (λ o. o ≡ text_in Texts value.now) }
{
    match value {
        Value::Text(_) => Ok(Some(copy(alloc, value)?)),
        _ => Ok(None),
    }
}

fn text_in(alloc: Global, to: &Kind, value: &Value) -> Result<Option<Value>, NoMemory>
    ensures { IfOk result (λ o. o ≡ text_in to.now value.now) }
{
    match to {
        Kind::Text => text_copied(alloc, value),
        _ => Ok(None),
    }
}

/// A value without objects in it in another kind, or `None` where there is no conversion or the value hasn't the form of its
/// kind.
pub fn flat_as(
    alloc: Global,
    from: &Kind,
    to: &Kind,
    value: &Value,
) -> Result<Option<Value>, NoMemory>
    ensures { IfOk result (λ o. o ≡ flat_as from.now to.now value.now) }
{
    match from {
        Kind::Plain { of } => Ok(single_in(*of, to, value)),
        Kind::Counter => Ok(single_in(Prim::I32, to, value)),
        Kind::Fixed { of, count } => fixed_in(alloc, *of, *count, to, value),
        Kind::Counted { of, .. } => counted_in(alloc, *of, to, value),
        Kind::Text => text_in(alloc, to, value),
        Kind::Inline { .. } | Kind::Pointer { .. } | Kind::Other { .. } => Ok(None),
    }
}

fn is_object(value: &Value) -> bool
    ensures { result ≡ is_object_value (out-Value value.now) }
{
    matches!(value, Value::Object { .. } | Value::Opaque { .. })
}

fn is_pointer(value: &Value) -> bool
    ensures { result ≡ is_pointer_value (out-Value value.now) }
{
    matches!(value, Value::Pointed { .. } | Value::Null | Value::Back(_))
}

fn inline_stays(class: &[u8], to: &Kind, value: &Value) -> bool
    ensures { result ≡ inline_stays class.now to.now value.now }
{
    match to {
        Kind::Inline { class: other } => class == other.as_slice() && is_object(value),
        _ => false,
    }
}

fn pointer_stays(class: &[u8], to: &Kind, value: &Value) -> bool
    ensures { result ≡ pointer_stays class.now to.now value.now }
{
    match to {
        Kind::Pointer { class: other } => class == other.as_slice() && is_pointer(value),
        _ => false,
    }
}

/// Whether both kinds are objects of one class, or pointers to such, and the value has the form of its kind.
pub fn stays(from: &Kind, to: &Kind, value: &Value) -> bool
    ensures { result ≡ stays from.now to.now value.now }
{
    match from {
        Kind::Inline { class } => inline_stays(class.as_slice(), to, value),
        Kind::Pointer { class } => pointer_stays(class.as_slice(), to, value),
        _ => false,
    }
}
