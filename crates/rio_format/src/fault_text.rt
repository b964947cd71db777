//! Faults as they are printed.
ghost use Rattle.std.specs.Prelude.{◌≡◌, ◌++◌, OnOk};
ghost use Rattle.rio_format.specs.Texts.{object_fault_text};
ghost use Rattle.rio_num.specs.Printed.{with_number};

use crate::ObjFault;
use rio_num::{Bytes, NoMemory};

fn put_two(text: &mut Bytes, word: &[u8], n: u64, m: u64) -> Result<(), NoMemory>
    ensures { OnOk result (text.new.bytes ≡
        text.old.bytes ++ with_number (with_number word.now n) m) }
{
    text.put_with_number(word, n)?;
    text.put_numbered(m)
}

fn put_unknown(text: &mut Bytes, kind: &[u8], place: u64, word: u32) -> Result<(), NoMemory>
    ensures { OnOk result (text.new.bytes ≡
        text.old.bytes ++ with_number (with_number kind.now place) word) }
{
    put_two(text, kind, place, u64::from(word))
}

fn put_mismatch(text: &mut Bytes, place: u64, said: u32, used: u32) -> Result<(), NoMemory>
    ensures { OnOk result (text.new.bytes ≡
        text.old.bytes ++ object_fault_text (ObjFault.CountMismatch place said used)) }
{
    put_two(text, b"CountMismatch", place, u64::from(said))?;
    text.put_numbered(u64::from(used))
}

impl ObjFault {
    /// Puts its kind at the end, and its numbers.
    pub fn put_text(&self, into: &mut Bytes) -> Result<(), NoMemory>
        ensures { OnOk result (into.new.bytes ≡ into.old.bytes ++ object_fault_text self.now) }
    {
        match self {
            ObjFault::Short { place, wanted } => put_two(into, b"Short", *place, *wanted),
            ObjFault::BadCount { place } => into.put_with_number(b"BadCount", *place),
            ObjFault::UnknownClassWord { place, word } => {
                put_unknown(into, b"UnknownClassWord", *place, *word)
            }
            ObjFault::UnknownRef { place, word } => put_unknown(into, b"UnknownRef", *place, *word),
            ObjFault::NoCount { place } => into.put_with_number(b"NoCount", *place),
            ObjFault::BadFlag { place } => into.put_with_number(b"BadFlag", *place),
            ObjFault::CountMismatch { place, said, used } => {
                put_mismatch(into, *place, *said, *used)
            }
            ObjFault::TooDeep { place } => into.put_with_number(b"TooDeep", *place),
            ObjFault::NoMemory => into.put(b"NoMemory"),
        }
    }
}
