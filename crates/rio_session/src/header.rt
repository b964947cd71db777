//! The record of a tree's header.
ghost use Rattle.std.specs.Prelude.{◌≡◌, ◌+◌, ◌-◌, ◌^◌, ◌<◌, ◌≤◌, IfOk, length};
ghost use Rattle.rio_num.specs.Room.{room_of};
ghost use Rattle.rio_chain.specs.Segments.{IsRecord};
ghost use Rattle.rio_effect.specs.TreeRecords.{header_key, header_record, header_words};
ghost use Rattle.rio_format.specs.{TreeClasses.{tree_classes}, Written.{written_form}};
ghost use Rattle.rio_tree.specs.HeaderLength.{basket_count, header_length, header_size};
ghost use Rattle.rio_tree.specs.WrittenLaws.{stated_defs};
ghost use Rattle.rio_tree.specs.WrittenTree.{tree_value_of};

use crate::place::key_length;
use rio_chain::{KeyWords, NewRecord, new_record};
use rio_describe::tree_classes;
use rio_key::FIRST_PLACE;
use rio_num::{Bytes, Name, NoMemory};
use rio_tree::{TreeHead, tree_value};
use rio_write::write_object;
use std::alloc::Global;

/// The class of a tree's key.
pub(crate) const TREE_CLASS: &[u8] = b"TTree";

// The header as it is written behind a key of this length.
fn header_data(alloc: Global, start: u64, name: &[u8], head: &TreeHead) -> Result<Bytes, NoMemory>
    requires { start
        + header_length name.now (stated_defs head.now.branches) (basket_count head.now)
        < 2 ^ 30 - 2 }
    ensures exact { IfOk result (λ made. made
        ≡ room_of (written_form tree_classes start (tree_value_of name.now head.now))) }
    ensures long { IfOk result (λ made. length made.bytes
        ≡ header_length name.now (stated_defs head.now.branches) (basket_count head.now)) }
{
    let classes = tree_classes(alloc)?;
    let value = tree_value(alloc, name, head)?;
    write_object(alloc, &classes, &value, start)
}

// How many baskets the header names.
fn basket_count(head: &TreeHead) -> u64
    requires { basket_count head.now < 2 ^ 64 }
    ensures { result ≡ basket_count head.now }
{
    let mut baskets = 0;
    for branch in head.branches.as_slice() {
        baskets += branch.baskets.len() as u64;
    }
    baskets
}

/// How long the value of a header is, without the baskets that it names: so long is each header of the tree.
pub(crate) fn header_bytes(alloc: Global, name: &[u8], head: &TreeHead) -> Result<u64, NoMemory>
    requires { header_length name.now (stated_defs head.now.branches) (basket_count head.now)
        < 2 ^ 30 - 2 }
    ensures { IfOk result (λ bytes. bytes
        ≡ header_size name.now (stated_defs head.now.branches)) }
{
    let data = header_data(alloc, 0, name, head)?;
    Ok(data.len() as u64 - 20 * basket_count(head))
}

// What the key of a header says.
fn header_words(
    alloc: Global,
    place: u64,
    datime: u32,
    name: &[u8],
    cycle: u16,
) -> Result<KeyWords, NoMemory>
    ensures { IfOk result (λ words. words ≡ header_words place datime name.now cycle) }
{
    Ok(KeyWords {
        place,
        directory: FIRST_PLACE,
        datime,
        cycle,
        class: Name::from_slice(alloc, TREE_CLASS)?,
        name: Name::from_slice(alloc, name)?,
        title: Name::new(alloc),
    })
}

/// The record of a header, for this place.
pub(crate) fn header_record(
    alloc: Global,
    place: u64,
    datime: u32,
    name: &[u8],
    cycle: u16,
    head: &TreeHead,
) -> Result<NewRecord, NoMemory>
    requires place { place < 2 ^ 32 }
    requires name { length name.now ≤ 100 }
    requires short { header_length name.now (stated_defs head.now.branches) (basket_count head.now)
        < 2 ^ 30 - 200 }
    ensures head { IfOk result (λ made. made.head
        ≡ header_key place datime name.now cycle head.now) }
    ensures bytes { IfOk result (λ made. made.bytes.bytes
        ≡ header_record place datime name.now cycle head.now) }
    ensures spare { IfOk result (λ made. 4 ≤ made.bytes.spare) }
    ensures whole { IfOk result (λ made. IsRecord place made.bytes.bytes) }
{
    let words = header_words(alloc, place, datime, name, cycle)?;
    let start = key_length(TREE_CLASS, name);
    let contents = header_data(alloc, start, name, head)?;
    new_record(alloc, words, contents.as_slice())
}
