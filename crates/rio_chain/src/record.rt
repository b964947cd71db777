//! A record is put together.
ghost use Rattle.std.specs.Prelude.{◌≡◌, ◌≤◌, length, IfOk};
ghost use Rattle.rio_chain.specs.Segments.{IsRecord};
ghost use Rattle.rio_chain.specs.Record.{FitsWords, new_key, record_bytes};

use crate::KeyWords;
use rio_key::{KeyHead, key_length, write_key};
use rio_num::{Bytes, NoMemory, padded};
use std::alloc::Global;

/// A record for a place of a file, which isn't put there yet.
#[derive(Debug, Drop)]
pub struct NewRecord {
    pub head: KeyHead,
    /// The whole record, with four bytes spare.
    pub bytes: Bytes,
}

// The key of a record with `n` bytes of data.
fn key_of(words: KeyWords, n: u64) -> KeyHead
    requires { FitsWords words n }
    ensures { result ≡ new_key words n }
{
    let mut head = KeyHead {
        nbytes: 0,
        version: 4,
        objlen: 0,
        datime: words.datime,
        keylen: 0,
        cycle: words.cycle,
        seek: words.place,
        pdir: words.directory,
        class: words.class,
        name: words.name,
        title: words.title,
    };
    let keylen = key_length(&head);
    let objlen = padded(keylen + n) - keylen;
    head.nbytes = (keylen + objlen) as i32;
    head.objlen = objlen as u32;
    head.keylen = keylen as u16;
    head
}

/// The record with these data: a key that says these words, the data, and the zero bytes behind
/// them. Its numbers fit their fields.
pub fn new_record(alloc: Global, words: KeyWords, contents: &[u8]) -> Result<NewRecord, NoMemory>
    requires { FitsWords words (length contents.now) }
    ensures head { IfOk result (λ made. made.head ≡ new_key words (length contents.now)) }
    ensures bytes { IfOk result (λ made. made.bytes.bytes ≡ record_bytes words contents.now) }
    ensures spare { IfOk result (λ made. 4 ≤ made.bytes.spare) }
    ensures whole { IfOk result (λ made. IsRecord words.place made.bytes.bytes) }
{
    let head = key_of(words, contents.len() as u64);
    let mut bytes = Bytes::new(alloc);
    bytes.reserve(u64::from(head.keylen) + u64::from(head.objlen) + 4)?;
    write_key(&head, &mut bytes)?;
    bytes.put(contents)?;
    bytes.pad4()?;
    Ok(NewRecord { head, bytes })
}
