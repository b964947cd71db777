//! A key is read at its place.
ghost use Rattle.std.specs.Prelude.{◌≡◌, ◌+◌, ◌<◌, ◌^◌, ◌++◌, ℕ, List, Ok, length, IfOk};
ghost use Rattle.rio_num.specs.Answers.{GivesUnless, ReadsUnless, TellsUnless};
ghost use Rattle.rio_num.specs.At.{GoesOn, place_len_of, standing_at};
ghost use Rattle.rio_num.specs.Reading.{Takes, number_at};
ghost use Rattle.rio_num.specs.Meanings.{read};
ghost use Rattle.rio_num.specs.Plain.{IsSpelledIn, plain};
ghost use Rattle.rio_key.specs.{Key.{BreaksKey, SpellsKey, key_at, key_fields, key_head_at}, declared.fault.KeyFault.TheVariants.{NoMemory as OutOfMemory}};

use crate::{KeyFault, KeyHead};
use rio_num::{Cursor, Name, Short};
use std::alloc::Global;

// A place in the file, as long as keys of this version have it.
fn take_place(cursor: &mut Cursor, version: u16) -> Result<u64, Short>
    ensures exact { Takes (λ x. x) result (number_at (place_len_of version) cursor.old) cursor.old
        cursor.new }
    ensures goes { GoesOn cursor.old cursor.new }
{
    if version > 1000 {
        cursor.take_u64()
    } else {
        Ok(u64::from(cursor.take_u32()?))
    }
}

#[tactic(auto, unfolding(crate::specs::Key::key_fields))]
fn read_fields(alloc: Global, cursor: &mut Cursor) -> Result<KeyHead, KeyFault>
    ensures { ReadsUnless OutOfMemory (λ x. x) result (read key_fields (plain cursor.old))
        (plain cursor.new) }
{
    let nbytes = cursor.take_u32()?.cast_signed();
    let version = cursor.take_u16()?;
    let objlen = cursor.take_u32()?;
    let datime = cursor.take_u32()?;
    let keylen = cursor.take_u16()?;
    let cycle = cursor.take_u16()?;
    let seek = take_place(cursor, version)?;
    let pdir = take_place(cursor, version)?;
    let class = cursor.take_text()?;
    let name = cursor.take_text()?;
    let title = cursor.take_text()?;
    Ok(KeyHead {
        nbytes,
        version,
        objlen,
        datime,
        keylen,
        cycle,
        seek,
        pdir,
        class: Name::from_slice(alloc, class)?,
        name: Name::from_slice(alloc, name)?,
        title: Name::from_slice(alloc, title)?,
    })
}

// The next key, which takes the bytes up to its title's end.
#[tactic(auto, unfolding(crate::specs::Key::key_layout))]
pub(crate) fn take_key(alloc: Global, cursor: &mut Cursor) -> Result<KeyHead, KeyFault>
    ensures { ReadsUnless OutOfMemory (λ x. x) result (key_head_at cursor.old) (plain cursor.new) }
{
    let place = cursor.place();
    let head = read_fields(alloc, cursor)?;
    if head.nbytes < i32::from(head.keylen) {
        return Err(KeyFault::BadLength { place });
    }
    if u64::from(head.keylen) < cursor.place().saturating_sub(place) {
        return Err(KeyFault::BadKeyLen { place });
    }
    Ok(head)
}

/// The key at `place` of bytes whose first has the place `base`. Short comes at the first field that
/// isn't whole, then BadLength where the record is shorter than its key, then BadKeyLen where the key
/// ends before its title, both at the key's place. Outside the bytes nothing is left.
pub fn read_key(alloc: Global, bytes: &[u8], base: u64, place: u64) -> Result<KeyHead, KeyFault>
    requires { base + length bytes.now < 2 ^ 64 }
    ensures exact { GivesUnless OutOfMemory (λ head. head) result
        (key_at (standing_at base place bytes.now)) }
    ensures found { IfOk result (λ head.
        IsSpelledIn (SpellsKey head) (standing_at base place bytes.now).rest) }
    ensures broken { TellsUnless OutOfMemory (BreaksKey (standing_at base place bytes.now))
        result }
    ensures only { (head : KeyHead) (front rest : List ℕ)
        → (standing_at base place bytes.now).rest ≡ front ++ rest → SpellsKey head front
        → GivesUnless OutOfMemory (λ x. x) result (Ok head) }
{
    take_key(alloc, &mut Cursor::at(bytes, base, place))
}
