//! What the members of an object in a header say.
ghost use Rattle.std.specs.Prelude.{◌≡◌, take};
ghost use Rattle.std.specs.Option.{option_copied};
ghost use Rattle.std.specs.List.{list_all};
ghost use Rattle.rio_tree.specs.Members.{if_pointers, integer_member, integers_in, integers_member, is_integer, is_pointer, name_member, pointers_in, pointers_member, truth_member};

use rio_format::Value;

fn are_i32(items: &[Value]) -> bool
    ensures { result ≡ list_all (is_integer 32) items.now }
{
    items.iter().all(|item| item.as_i32().is_some())
}

fn are_i64(items: &[Value]) -> bool
    ensures { result ≡ list_all (is_integer 64) items.now }
{
    items.iter().all(|item| item.as_i64().is_some())
}

// The first items, so many, or all of them where there are fewer.
#[tactic(auto, using(std::proofs::lemmas::List::take_min))]
fn first_items(items: &[Value], n: usize) -> &[Value]
    ensures { result.now ≡ take n items.now }
{
    &items[..n.min(items.len())]
}

fn i32s_in(used: usize, value: &Value) -> Option<&[Value]>
    ensures { option_copied result ≡ integers_in 32 used value.now }
{
    let items = value.as_list()?;
    if are_i32(first_items(items, used)) {
        Some(items)
    } else {
        None
    }
}

fn i64s_in(used: usize, value: &Value) -> Option<&[Value]>
    ensures { option_copied result ≡ integers_in 64 used value.now }
{
    let items = value.as_list()?;
    if are_i64(first_items(items, used)) {
        Some(items)
    } else {
        None
    }
}

fn is_pointer(value: &Value) -> bool
    ensures { result ≡ is_pointer value.now }
{
    matches!(value, Value::Null | Value::Pointed { .. } | Value::Back(_))
}

fn are_pointers(items: &[Value]) -> bool
    ensures { result ≡ list_all is_pointer items.now }
{
    items.iter().all(|item| is_pointer(item))
}

fn if_pointers(items: &[Value]) -> Option<&[Value]>
    ensures { option_copied result ≡ if_pointers items.now }
{
    if are_pointers(items) {
        Some(items)
    } else {
        None
    }
}

fn pointers_in(value: &Value) -> Option<&[Value]>
    ensures { option_copied result ≡ pointers_in value.now }
{
    if value.class() == b"TObjArray".as_slice() {
        if_pointers(value.part(b"items")?.as_list()?)
    } else {
        None
    }
}

/// The integer that a member is, if an `i32` holds it.
pub(crate) fn i32_member(name: &[u8], value: &Value) -> Option<i32>
    ensures { result ≡ integer_member 32 name.now value.now }
{
    value.member(name)?.as_i32()
}

/// The integer that a member is, if an `i64` holds it.
pub(crate) fn i64_member(name: &[u8], value: &Value) -> Option<i64>
    ensures { result ≡ integer_member 64 name.now value.now }
{
    value.member(name)?.as_i64()
}

/// The truth value that a member is.
pub(crate) fn truth_member(name: &[u8], value: &Value) -> Option<bool>
    ensures { result ≡ truth_member name.now value.now }
{
    value.member(name)?.as_bool()
}

/// The bytes of the text that a member is.
pub(crate) fn name_member<'a>(name: &[u8], value: &'a Value) -> Option<&'a [u8]>
    ensures { option_copied result ≡ name_member name.now value.now }
{
    value.member(name)?.as_text()
}

/// The items of a member that is a list whose first items, so many, are integers that an `i32` holds.
pub(crate) fn i32s_member<'a>(name: &[u8], used: usize, value: &'a Value) -> Option<&'a [Value]>
    ensures { option_copied result ≡ integers_member 32 name.now used value.now }
{
    i32s_in(used, value.member(name)?)
}

/// The items of a member that is a list whose first items, so many, are integers that an `i64` holds.
pub(crate) fn i64s_member<'a>(name: &[u8], used: usize, value: &'a Value) -> Option<&'a [Value]>
    ensures { option_copied result ≡ integers_member 64 name.now used value.now }
{
    i64s_in(used, value.member(name)?)
}

/// The items of a member that is a TObjArray, if all of them are pointers.
pub(crate) fn pointers_member<'a>(name: &[u8], value: &'a Value) -> Option<&'a [Value]>
    ensures { option_copied result ≡ pointers_member name.now value.now }
{
    pointers_in(value.member(name)?)
}
