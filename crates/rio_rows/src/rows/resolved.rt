//! Values of classes that aren't known: they come back as they were.
use crate::rows::classes::{ClassRow, classes_of, is_text};
use rio_format::{Classes, Value};
use rio_num::{Bytes, NoMemory};
use rio_valtext::{ResolveFault, TextFault, print_value, read_value, resolve};
use std::alloc::Global;

static DECLARED: [ClassRow; 1] = [ClassRow {
    name: "A",
    version: 1,
    sum: 0,
    bases: &[],
    members: &[],
    title: "",
}];

// Values, and the text of what comes back: of a class, and of a version, that isn't known.
static ROWS: [(&str, &str); 2] = [("[A{}, Odd{}]", "[A#0{}, Odd#0{}]"), ("A#3{}", "A#3{}")];

fn text_of(alloc: Global, value: &Value) -> Result<Bytes, NoMemory> {
    let mut text = Bytes::new(alloc);
    print_value(value, &mut text)?;
    Ok(text)
}

fn value_in(alloc: Global, text: &str) -> Result<Value, TextFault> {
    if text.len() > 1000 {
        return Err(TextFault::NoMemory);
    }
    let (value, _end) = read_value(alloc, text.as_bytes(), 0)?;
    Ok(value)
}

fn comes_back(alloc: Global, classes: &Classes, value: Value, text: &str) -> bool {
    match resolve(alloc, classes, value) {
        Ok(_) => false,
        Err((told, value)) => {
            told == ResolveFault::NoSuchClass && is_text(text_of(alloc, &value), text)
        }
    }
}

fn holds(alloc: Global, value: &str, text: &str) -> bool {
    match (classes_of(alloc, &DECLARED), value_in(alloc, value)) {
        (Ok(classes), Ok(value)) => comes_back(alloc, &classes, value, text),
        _ => false,
    }
}

#[test]
fn gives_a_value_back(rt: HostRuntime) {
    for (value, text) in &ROWS {
        assert!(rt; holds(rt.alloc(), value, text), "{}", value);
    }
}
