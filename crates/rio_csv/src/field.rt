//! Fields as the values that they spell.
ghost use Rattle.std.specs.Prelude.{◌≡◌, IfOk};
ghost use Rattle.rio_csv.specs.Fields.{field_kind, is_number_letter, truth_in, value_in_field, value_of_kind};

use rio_format::Value;
use rio_num::{Name, NoMemory};
use rio_token::{Bits, parse_bits, parse_number};
use std::alloc::Global;

/// What the fields of a leaf spell.
#[derive(Clone, Copy, Debug, PartialEq, Eq)]
pub(crate) enum FieldKind {
    /// An integer.
    Number,
    /// `true` or `false`.
    Truth,
    /// The bits of a floating-point number of 4 bytes.
    FourBytes,
    /// The bits of a floating-point number of 8 bytes.
    EightBytes,
    /// A text: the field's own bytes.
    Text,
}

fn is_number_letter(letter: u8) -> bool
    ensures { result ≡ is_number_letter letter }
{
    matches!(
        letter,
        b'B' | b'b' | b'S' | b's' | b'I' | b'i' | b'L' | b'l'
    )
}

// What the fields of the letter spell.
fn field_kind(letter: u8) -> Option<FieldKind>
    ensures { result ≡ field_kind letter }
{
    match letter {
        b'O' => Some(FieldKind::Truth),
        b'F' => Some(FieldKind::FourBytes),
        b'D' => Some(FieldKind::EightBytes),
        b'C' => Some(FieldKind::Text),
        _ if is_number_letter(letter) => Some(FieldKind::Number),
        _ => None,
    }
}

fn truth_in(field: &[u8]) -> Option<Value>
    ensures { result ≡ truth_in field.now }
{
    match field {
        b"true" => Some(Value::Bool(true)),
        b"false" => Some(Value::Bool(false)),
        _ => None,
    }
}

fn value_of_kind(alloc: Global, kind: FieldKind, field: &[u8]) -> Result<Option<Value>, NoMemory>
    ensures { IfOk result (λ value. value ≡ value_of_kind kind field.now) }
{
    let value = match (kind, parse_bits(field)) {
        (FieldKind::Number, _) => parse_number(field).map(Value::Int),
        (FieldKind::Truth, _) => truth_in(field),
        (FieldKind::FourBytes, Some(Bits::Four(n))) => Some(Value::Bits32(n)),
        (FieldKind::EightBytes, Some(Bits::Eight(n))) => Some(Value::Bits64(n)),
        (FieldKind::FourBytes | FieldKind::EightBytes, _) => None,
        (FieldKind::Text, _) => Some(Value::Text(Name::from_slice(alloc, field)?)),
    };
    Ok(value)
}

/// The value that the field spells for a leaf of the letter, if it spells one.
pub(crate) fn value_in_field(
    alloc: Global,
    letter: u8,
    field: &[u8],
) -> Result<Option<Value>, NoMemory>
    ensures { IfOk result (λ value. value ≡ value_in_field letter field.now) }
{
    match field_kind(letter) {
        Some(kind) => value_of_kind(alloc, kind, field),
        None => Ok(None),
    }
}
