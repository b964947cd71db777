//! A copy of a value.
use crate::rows::hex::hex_bytes;
use rio_format::{Classes, ObjFault, Value, copy, depth, longest_list};
use rio_stream::read_object;
use std::alloc::Global;

// A TObjArray with a name, of a pointer to an object that isn't read, and null.
const ARRAY: &str = "40000030 0003 0001 00000000 00000000 02 6869 00000002 00000000 \
     40000011 FFFFFFFF 4E6F626F647900 40000002 0001 00000000";

fn array_in(alloc: Global, bytes: &[u8]) -> Result<Value, ObjFault> {
    if bytes.len() > 100 {
        return Err(ObjFault::NoMemory);
    }
    read_object(alloc, &Classes::new(alloc), b"TObjArray", bytes, 34)
}

fn array(alloc: Global) -> Result<Value, ObjFault> {
    let bytes = hex_bytes(alloc, ARRAY)?;
    array_in(alloc, bytes.as_slice())
}

fn is_same(copied: &Value, value: &Value) -> bool {
    copied == value && *copied != Value::Null && depth(copied) == 2 && longest_list(copied) == 2
}

fn is_copied(alloc: Global, value: &Value) -> bool {
    match copy(alloc, value) {
        Ok(copied) => is_same(&copied, value),
        Err(_) => false,
    }
}

fn array_is_copied(alloc: Global) -> bool {
    match array(alloc) {
        Ok(value) => is_copied(alloc, &value),
        Err(_) => false,
    }
}

#[test]
fn copies_a_value(rt: HostRuntime) {
    assert!(rt; array_is_copied(rt.alloc()));
}
