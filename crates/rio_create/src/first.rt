//! The first record of a file.
ghost use Rattle.std.specs.Prelude.{◌≡◌, ◌≤◌, ◌<◌, ◌+◌, length, IfOk};
ghost use Rattle.rio_create.specs.NewFile.{file_texts, first_length, first_record, first_words, nbytes_name_of, new_directory};

use rio_chain::{KeyWords, new_record};
use rio_head::{DirRecord, write_dir};
use rio_num::{Bytes, Name, NoMemory};
use std::alloc::Global;

// The first record of a file, and how long its key and the two texts behind it are.
#[derive(Drop)]
pub(crate) struct First {
    pub bytes: Bytes,
    pub nbytes_name: u32,
}

// The directory record of a new file.
fn directory_of(uuid: [u8; 18], datime: u32) -> DirRecord
    ensures { result ≡ new_directory uuid datime }
{
    DirRecord {
        version: 5,
        created: datime,
        changed: 0,
        nbytes_keys: 0,
        nbytes_name: 0,
        seek_dir: 0,
        seek_parent: 0,
        seek_keys: 0,
        uuid,
    }
}

// What the first record's key says.
fn words_of(alloc: Global, name: &[u8], datime: u32) -> Result<KeyWords, NoMemory>
    ensures { IfOk result (λ words. words ≡ first_words name.now datime) }
{
    Ok(KeyWords {
        place: 100,
        directory: 0,
        datime,
        cycle: 1,
        class: Name::from_slice(alloc, b"TFile")?,
        name: Name::from_slice(alloc, name)?,
        title: Name::new(alloc),
    })
}

// The file's name and its empty title.
fn texts_of(alloc: Global, name: &[u8]) -> Result<Bytes, NoMemory>
    requires { length name.now ≤ 200 }
    ensures { IfOk result (λ texts. texts.bytes ≡ file_texts name.now) }
{
    let mut texts = Bytes::new(alloc);
    texts.put_text(name)?;
    texts.put_text(b"")?;
    Ok(texts)
}

// The first record of a file of this name and with this identifier.
pub(crate) fn first_of(
    alloc: Global,
    name: &[u8],
    uuid: &[u8; 18],
    datime: u32,
) -> Result<First, NoMemory>
    requires { length name.now ≤ 200 }
    ensures bytes { IfOk result
        (λ first. first.bytes.bytes ≡ first_record name.now uuid.now datime) }
    ensures size { IfOk result (λ first. length first.bytes.bytes ≡ first_length name.now) }
    ensures name { IfOk result (λ first. first.nbytes_name ≡ nbytes_name_of name.now) }
{
    let words = words_of(alloc, name, datime)?;
    let mut contents = texts_of(alloc, name)?;
    let texts = contents.len() as u32;
    write_dir(&directory_of(*uuid, datime), &mut contents)?;
    let record = new_record(alloc, words, contents.as_slice())?;
    Ok(First {
        nbytes_name: u32::from(record.head.keylen) + texts,
        bytes: record.bytes,
    })
}
