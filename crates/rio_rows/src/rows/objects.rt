//! Objects that no record has by itself, read and written, and a class that no pointer may lead to.

mod builtin;

use crate::rows::classes::{ClassRow, Holds, classes_of, name_of};
use crate::rows::hex::hex_bytes;
use rio_format::{Classes, ObjFault, Part, Parts, Value};
use rio_num::{Boxed, Bytes, NoMemory};
use rio_stream::{fits, read_object, write_object, written_length};
use std::alloc::Global;

// Objects of built-in classes as they are written.
static WRITTEN: [(&str, &str); 5] = [
    ("TObject", "0001 00000005 00000000"),
    ("TArrayC", "00000002 07FF"),
    ("TArrayS", "00000001 FFFE"),
    ("TArrayI", "00000002 00000001 FFFFFFFF"),
    ("TArrayD", "00000001 3FF0000000000000"),
];

// The bytes that are written for the value, whose length is told before.
fn written(alloc: Global, classes: &Classes, value: &Value) -> Result<Option<Bytes>, NoMemory> {
    let length = written_length(alloc, classes, value)?;
    if length > 16_777_216 {
        return Ok(None);
    }
    let bytes = write_object(alloc, classes, value, 34)?;
    if bytes.len() as u64 != length {
        return Ok(None);
    }
    Ok(Some(bytes))
}

// The bytes that are written for a value, where it fits the class.
fn written_where_it_fits(
    alloc: Global,
    classes: &Classes,
    class: &str,
    value: &Value,
) -> Result<Option<Bytes>, NoMemory> {
    if fits(alloc, classes, class.as_bytes(), value)? {
        written(alloc, classes, value)
    } else {
        Ok(None)
    }
}

// What is written for the object that the bytes spell, where it fits its class.
fn rewritten(alloc: Global, class: &str, bytes: &[u8]) -> Result<Option<Bytes>, ObjFault> {
    if bytes.len() > 10_000 {
        return Ok(None);
    }
    let classes = Classes::new(alloc);
    let value = read_object(alloc, &classes, class.as_bytes(), bytes, 34)?;
    Ok(written_where_it_fits(alloc, &classes, class, &value)?)
}

fn is_written(alloc: Global, class: &str, text: &str) -> bool {
    match hex_bytes(alloc, text) {
        Ok(bytes) => match rewritten(alloc, class, bytes.as_slice()) {
            Ok(Some(again)) => again.as_slice() == bytes.as_slice(),
            _ => false,
        },
        Err(_) => false,
    }
}

#[test]
fn writes_what_is_read(rt: HostRuntime) {
    for (class, text) in &WRITTEN {
        assert!(rt; is_written(rt.alloc(), class, text), "{}", text);
    }
}

// A class with a pointer, and classes that it may lead to. A class word can't have the name of the last one.
static POINTED: [ClassRow; 2] = [
    ClassRow {
        name: "Zero",
        version: 1,
        sum: 7,
        bases: &[],
        members: &[("p", Holds::Pointer("Zero"))],
        title: "",
    },
    ClassRow {
        name: "Ze\0ro",
        version: 1,
        sum: 7,
        bases: &[],
        members: &[("p", Holds::Pointer("Ze\0ro"))],
        title: "",
    },
];

// An object of the class with this pointer.
fn with_pointer(alloc: Global, class: &str, value: Value) -> Result<Value, NoMemory> {
    let mut parts = Parts::new(alloc);
    parts.push(Part {
        name: name_of(alloc, "p")?,
        value,
    })?;
    Ok(Value::Object {
        class: name_of(alloc, class)?,
        version: 1,
        parts,
    })
}

// Whether an object fits that points to another of its class.
fn fits_itself(alloc: Global, class: &str) -> Result<bool, NoMemory> {
    let classes = classes_of(alloc, &POINTED)?;
    let object = Boxed::new(alloc, with_pointer(alloc, class, Value::Null)?)?;
    let value = with_pointer(alloc, class, Value::Pointed { label: 0, object })?;
    fits(alloc, &classes, class.as_bytes(), &value)
}

#[test]
fn no_pointer_leads_to_a_class_with_a_zero_byte(rt: HostRuntime) {
    assert!(rt; fits_itself(rt.alloc(), "Zero") == Ok(true));
    assert!(rt; fits_itself(rt.alloc(), "Ze\0ro") == Ok(false));
}
