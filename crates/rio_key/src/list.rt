//! Lists of key heads are read.
ghost use Rattle.std.specs.Prelude.{◌≡◌, ◌+◌, ◌<◌, ◌^◌, ◌++◌, ℕ, List, Ok, length, IfOk};
ghost use Rattle.rio_key.specs.{declared.head.KeyHead.{KeyHead as Head}, KeyList.{BreaksKeyList, SpellsKeyList, head_count, key_list_at, list_memory, listed_key}};
ghost use Rattle.rio_num.specs.Answers.{GivesUnless, ReadsUnless, TellsUnless};
ghost use Rattle.rio_num.specs.Layout.{times};
ghost use Rattle.rio_num.specs.Meanings.{read};
ghost use Rattle.rio_num.specs.Plain.{IsSpelledIn, plain, value_of};

use crate::read::take_key;
use crate::{KeyFault, KeyHead, ListFault};
use rio_num::{Cursor, Items, NoMemory};
use std::alloc::Global;

/// A list of key heads.
pub type Heads = Items<KeyHead>;

// The next head of a list.
#[tactic(auto, using(crate::proofs::Retold::told_in_list))]
fn take_head(alloc: Global, cursor: &mut Cursor) -> Result<KeyHead, ListFault>
    ensures { ReadsUnless list_memory (λ x. x) result (read listed_key (plain cursor.old))
        (plain cursor.new) }
{
    let place = cursor.place();
    match take_key(alloc, cursor) {
        Ok(head) => Ok(head),
        Err(KeyFault::NoMemory) => Err(ListFault::from(NoMemory)),
        Err(fault) => Err(ListFault {
            head: Some(place),
            fault,
        }),
    }
}

// How many heads follow.
fn take_count(cursor: &mut Cursor) -> Result<u32, ListFault>
    ensures { ReadsUnless list_memory (λ x. x) result (read head_count (plain cursor.old))
        (plain cursor.new) }
{
    match cursor.take_u32() {
        Ok(count) => Ok(count),
        Err(short) => Err(ListFault {
            head: None,
            fault: KeyFault::from(short),
        }),
    }
}

// So many heads, one behind the other.
fn take_heads(alloc: Global, cursor: &mut Cursor, count: u32) -> Result<Heads, ListFault>
    ensures { ReadsUnless list_memory (λ x. x) result
        (read (times count listed_key) (plain cursor.old)) (plain cursor.new) }
{
    let mut heads = Heads::new(alloc);
    'heads: for k in 0..count {
        let head = take_head(alloc, cursor)?;
        heads.push(head)?;
    }
    Ok(heads)
}

#[tactic(auto, unfolding(crate::specs::KeyList::key_list_layout))]
fn take_key_list(alloc: Global, cursor: &mut Cursor) -> Result<Heads, ListFault>
    ensures { ReadsUnless list_memory (λ x. x) result (key_list_at cursor.old)
        (plain cursor.new) }
{
    let count = take_count(cursor)?;
    take_heads(alloc, cursor, count)
}

/// The key heads that a key list's data give: a count and so many heads, one behind the other. `base`
/// is the place of the first byte. What stands behind the last head is ignored. Each fault is the
/// first, with the place of the head that is unreadable, or None for the count; with NoMemory there
/// is no place.
pub fn read_heads(alloc: Global, bytes: &[u8], base: u64) -> Result<Heads, ListFault>
    requires { base + length bytes.now < 2 ^ 64 }
    ensures exact { GivesUnless list_memory (λ heads. heads) result
        (value_of (key_list_at (record { place = base; rest = bytes.now }))) }
    ensures found { IfOk result (λ heads. IsSpelledIn (SpellsKeyList heads) bytes.now) }
    ensures broken { TellsUnless list_memory
        (BreaksKeyList (record { place = base; rest = bytes.now })) result }
    ensures only { (heads : List Head) (front rest : List ℕ) → bytes.now ≡ front ++ rest
        → SpellsKeyList heads front → GivesUnless list_memory (λ x. x) result (Ok heads) }
{
    take_key_list(alloc, &mut Cursor::new(bytes, base))
}
