//! Bytes that a row gives in hexadecimal digits.
use rio_num::{Bytes, NoMemory};
use std::alloc::Global;

fn digit_of(c: u8) -> u8 {
    match c {
        b'0'..=b'9' => c - b'0',
        b'A'..=b'F' => c - b'A' + 10,
        _ => 0,
    }
}

// Appends the bytes that a text gives in hexadecimal digits, with blanks between them.
fn put_hex(bytes: &mut Bytes, text: &str) -> Result<(), NoMemory> {
    let mut high: Option<u8> = None;
    for c in text.as_bytes() {
        if *c == b' ' {
            continue;
        }
        match high {
            Some(first) => {
                bytes.push(first.wrapping_mul(16).wrapping_add(digit_of(*c)))?;
                high = None;
            }
            None => high = Some(digit_of(*c)),
        }
    }
    Ok(())
}

/// The bytes that a text gives in hexadecimal digits.
pub(crate) fn hex_bytes(alloc: Global, text: &str) -> Result<Bytes, NoMemory> {
    let mut bytes = Bytes::new(alloc);
    put_hex(&mut bytes, text)?;
    Ok(bytes)
}

/// Whether the digits give these bytes.
pub(crate) fn is_hex_of(alloc: Global, text: &str, bytes: &[u8]) -> bool {
    match hex_bytes(alloc, text) {
        Ok(wanted) => wanted.as_slice() == bytes,
        Err(_) => false,
    }
}
