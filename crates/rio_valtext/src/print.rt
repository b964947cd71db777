//! Values printed as texts.
ghost use Rattle.std.specs.Prelude.{◌≡◌, ◌++◌, codes, map, OnOk, OnErr};
ghost use Rattle.std.specs.Fmt.{decimal};
ghost use Rattle.rio_num.specs.Printed.{name_text};
ghost use Rattle.rio_num.specs.Room.{with_more};
ghost use Rattle.rio_model.specs.Lists.{separated};
ghost use Rattle.rio_model.specs.ValueText.{between_braces, bits_text, class_text, label_text, may_be_base, part_text, printed_part, printed_value, text_of_value, truth_text};

use rio_format::{Part, Value};
use rio_num::{Bytes, NoMemory};

fn put_bits32(text: &mut Bytes, bits: u32) -> Result<(), NoMemory>
    ensures { OnOk result (text.new.bytes ≡ text.old.bytes ++ bits_text 4 bits) }
{
    text.put(b"0x")?;
    text.put_hex8(bits)
}

fn put_bits64(text: &mut Bytes, bits: u64) -> Result<(), NoMemory>
    ensures { OnOk result (text.new.bytes ≡ text.old.bytes ++ bits_text 8 bits) }
{
    text.put(b"0x")?;
    text.put_hex16(bits)
}

fn put_truth(text: &mut Bytes, truth: bool) -> Result<(), NoMemory>
    ensures { OnOk result (text.new.bytes ≡ text.old.bytes ++ truth_text truth) }
{
    if truth {
        text.put(b"true")
    } else {
        text.put(b"false")
    }
}

fn put_class(text: &mut Bytes, class: &[u8], version: i32) -> Result<(), NoMemory>
    ensures { OnOk result (text.new.bytes ≡ text.old.bytes ++ class_text class.now version) }
{
    text.put_name(class)?;
    text.put(b"#")?;
    text.put_integer(i128::from(version))
}

fn put_label(text: &mut Bytes, label: u32) -> Result<(), NoMemory>
    ensures { OnOk result (text.new.bytes ≡ text.old.bytes ++ label_text label) }
{
    text.put(b"@")?;
    text.put_decimal(u64::from(label))
}

fn put_opaque(text: &mut Bytes, class: &[u8], length: u32) -> Result<(), NoMemory>
    ensures { let inside = name_text class.now ++ codes ", " ++ decimal length in
        OnOk result (text.new.bytes ≡ text.old.bytes ++ (codes "opaque(" ++ inside ++ codes ")")) }
{
    text.put(b"opaque(")?;
    text.put_name(class)?;
    text.put(b", ")?;
    text.put_decimal(u64::from(length))?;
    text.put(b")")
}

// Whether the value is an object, or one that isn't read.
#[tactic(auto, unfolding(rio_model::specs::ValueText::printed_value))]
fn is_object(value: &Value) -> bool
    ensures { result ≡ (printed_value value.now).is_object }
{
    match value {
        Value::Object { .. } | Value::Opaque { .. } => true,
        _ => false,
    }
}

fn may_be_base(part: &Part) -> bool
    ensures { result ≡ may_be_base (printed_part part.now) }
{
    part.name.is_empty() && is_object(&part.value)
}

#[cycle(put)]
#[tactic(auto, unfolding(rio_model::specs::ValueText::text_of_value, rio_model::specs::ValueText::printed_value))]
fn put_value(text: &mut Bytes, value: &Value) -> Result<(), NoMemory>
    ensures { OnOk result (text.new.bytes ≡ text.old.bytes ++ text_of_value value.now) }
{
    match value {
        Value::Int(n) => text.put_integer(*n),
        Value::Bits32(bits) => put_bits32(text, *bits),
        Value::Bits64(bits) => put_bits64(text, *bits),
        Value::Bool(truth) => put_truth(text, *truth),
        Value::Text(string) => text.put_string(string.as_slice()),
        Value::List(items) => put_list(text, items.as_slice()),
        Value::Object {
            class,
            version,
            parts,
        } => put_object(text, class.as_slice(), *version, parts.as_slice()),
        Value::Pointed { label, object } => put_pointed(text, *label, object.get()),
        Value::Null => text.put(b"null"),
        Value::Back(label) => put_label(text, *label),
        Value::Opaque { class, length } => put_opaque(text, class.as_slice(), *length),
    }
}

#[cycle(put)]
fn put_list(text: &mut Bytes, items: &[Value]) -> Result<(), NoMemory>
    ensures { let texts = separated text_of_value items.now in
        OnOk result (text.new.bytes ≡ text.old.bytes ++ (codes "[" ++ texts ++ codes "]")) }
{
    text.put(b"[")?;
    put_items(text, items)?;
    text.put(b"]")
}

#[cycle(put)]
fn put_items(text: &mut Bytes, items: &[Value]) -> Result<(), NoMemory>
    ensures { OnOk result (text.new.bytes ≡ text.old.bytes ++ separated text_of_value items.now) }
{
    if let [first, rest @ ..] = items {
        put_value(text, first)?;
        for item in rest {
            text.put(b", ")?;
            put_value(text, item)?;
        }
    }
    Ok(())
}

#[cycle(put)]
fn put_object(text: &mut Bytes, class: &[u8], version: i32, parts: &[Part]) -> Result<(), NoMemory>
    ensures { let between = between_braces (map printed_part parts.now) in
        OnOk result (text.new.bytes ≡
        text.old.bytes ++ (class_text class.now version ++ codes "{" ++ between ++ codes "}")) }
{
    put_class(text, class, version)?;
    text.put(b"{")?;
    put_parts(text, parts)?;
    text.put(b"}")
}

// The bases stand alone: the parts at the front that can be one.
#[cycle(put)]
fn put_parts(text: &mut Bytes, parts: &[Part]) -> Result<(), NoMemory>
    ensures { OnOk result
        (text.new.bytes ≡ text.old.bytes ++ between_braces (map printed_part parts.now)) }
{
    if let [first, rest @ ..] = parts {
        let mut alone = may_be_base(first);
        put_part(text, first, alone)?;
        for part in rest {
            text.put(b", ")?;
            alone = alone && may_be_base(part);
            put_part(text, part, alone)?;
        }
    }
    Ok(())
}

#[cycle(put)]
#[tactic(auto, unfolding(rio_model::specs::ValueText::text_of_value))]
fn put_part(text: &mut Bytes, part: &Part, alone: bool) -> Result<(), NoMemory>
    ensures { OnOk result
        (text.new.bytes ≡ text.old.bytes ++ part_text alone (printed_part part.now)) }
{
    if !alone {
        text.put_name(part.name.as_slice())?;
        text.put(b": ")?;
    }
    put_value(text, &part.value)
}

#[cycle(put)]
fn put_pointed(text: &mut Bytes, label: u32, object: &Value) -> Result<(), NoMemory>
    ensures { OnOk result (text.new.bytes ≡
        text.old.bytes ++ (label_text label ++ codes "=" ++ text_of_value object.now)) }
{
    put_label(text, label)?;
    text.put(b"=")?;
    put_value(text, object)
}

/// Puts a value at the end as it is printed, on one line: integers in decimal, the bits of a
/// floating-point number as `0x` and 8 or 16 hexadecimal digits, texts in double quotes as
/// `put_string` of `Bytes` says, lists as `[VALUE, VALUE]`, pointers as `null`, `@LABEL=OBJECT` where the object
/// begins and `@LABEL` back to it, an object that isn't read as `opaque(CLASS, LENGTH)`, and objects as
/// `CLASS#VERSION{NAME: VALUE, NAME: VALUE}`. The bases of an object are printed without a name: the parts
/// without one at its front that are objects, or aren't read. Any other part without a name has `""` for
/// it. Names are printed as `put_name` says. It goes as deep as the value. Without memory nothing is
/// put.
pub fn print_value(value: &Value, into: &mut Bytes) -> Result<(), NoMemory>
    ensures ok { OnOk result (into.new ≡ with_more into.old (text_of_value value.now)) }
    ensures err { OnErr result (into.new ≡ into.old) }
{
    let mut text = Bytes::new(into.allocator());
    put_value(&mut text, value)?;
    into.put(text.as_slice())
}
