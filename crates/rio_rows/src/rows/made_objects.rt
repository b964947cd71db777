//! An object that is made of its parts, which are found by their names.
use rio_format::{PartList, Value};
use rio_num::NoMemory;
use std::alloc::Global;

fn event(alloc: Global) -> Result<Value, NoMemory> {
    PartList::new(alloc)
        .with(b"good", Value::Bool(true))?
        .with_number(b"run", 18446744073709551615)?
        .with_int(b"charge", -2147483648)?
        .with_text(b"run type", b"cosmic")?
        .object(b"Event", 7)
}

fn number_in(value: &Value, name: &[u8]) -> Option<i128> {
    value.member(name).map(|number| number.number())
}

fn text_in<'a>(value: &'a Value, name: &[u8]) -> Option<&'a [u8]> {
    match value.member(name) {
        Some(text) => text.as_text(),
        None => None,
    }
}

fn truth_in(value: &Value, name: &[u8]) -> Option<bool> {
    match value.part(name) {
        Some(part) => part.as_bool(),
        None => None,
    }
}

fn is_event(value: &Value) -> bool {
    value.class() == b"Event".as_slice()
        && value.version() == 7
        && value.parts().len() == 4
        && truth_in(value, b"good") == Some(true)
        && number_in(value, b"run") == Some(18446744073709551615)
        && text_in(value, b"run type") == Some(b"cosmic".as_slice())
        && number_in(value, b"charge") == Some(-2147483648)
        && number_in(value, b"run time").is_none()
}

fn has_its_parts(alloc: Global) -> bool {
    match event(alloc) {
        Ok(value) => is_event(&value),
        Err(_) => false,
    }
}

#[test]
fn parts_are_found_by_their_names(rt: HostRuntime) {
    assert!(rt; has_its_parts(rt.alloc()));
}
