//! Replies to commands, as they are said.
ghost use Rattle.std.specs.Prelude.{◌≡◌, map, IfOk};
ghost use Rattle.rio_machine.specs.State.{State};
ghost use Rattle.rio_step.specs.ItemKeys.{AreKeysOfState};
ghost use Rattle.rio_step.specs.KeptItems.{AreItemsOfState, item_of_key};
ghost use Rattle.rio_step.specs.ReplyText.{text_of};
ghost use Rattle.rio_step.specs.Step.{class_declared, item_deleted, items_listed, items_of, object_put, objects_put, refused, row_added, rows_saved, tree_made};
ghost use Rattle.rio_reply.specs.Told.{item_listing_of, listing_of};

use crate::item::{put_item, put_items, put_listed, put_names};
use rio_key::KeyHead;
use rio_machine::{Refusal, print_refusal};
use rio_num::{Boxed, Bytes, NoMemory};
use rio_tree_table::TreeTable;
use std::alloc::Global;

/// What is said of a refused command: `no NUMBER NAME`, and for some the numbers or the name behind it.
#[tactic(auto, unfolding(rio_step::specs::ReplyText::text_of))]
pub fn refusal_reply(alloc: Global, refusal: &Refusal) -> Result<Bytes, NoMemory>
    ensures { IfOk result (λ text. text.bytes ≡ text_of (refused refusal.now)) }
{
    let mut text = Bytes::new(alloc);
    print_refusal(refusal, &mut text)?;
    Ok(text)
}

/// What is said of an object that was put: `ok put NAME;CYCLE`.
#[tactic(auto, unfolding(rio_step::specs::ReplyText::text_of))]
pub fn put_reply(alloc: Global, name: &[u8], cycle: u16) -> Result<Bytes, NoMemory>
    ensures { IfOk result (λ text. text.bytes ≡ text_of (object_put name.now cycle)) }
{
    let mut text = Bytes::new(alloc);
    text.put(b"ok put ")?;
    put_item(&mut text, name, cycle)?;
    text.put(b"\n")?;
    Ok(text)
}

/// What is said of the objects of a batch, by their keys in the order of its puts: `ok batch`, and for each ` NAME;CYCLE`.
#[tactic(auto, unfolding(rio_step::specs::ReplyText::text_of))]
pub fn batch_reply(alloc: Global, heads: &[KeyHead]) -> Result<Bytes, NoMemory>
    ensures { IfOk result
        (λ text. text.bytes ≡ text_of (objects_put (map item_of_key heads.now))) }
{
    let mut text = Bytes::new(alloc);
    text.put(b"ok batch")?;
    put_names(&mut text, heads)?;
    text.put(b"\n")?;
    Ok(text)
}

/// What is said of a class that was declared: `ok class NAME VERSION`.
#[tactic(auto, unfolding(rio_step::specs::ReplyText::text_of))]
pub fn class_reply(alloc: Global, name: &[u8], version: i32) -> Result<Bytes, NoMemory>
    ensures { IfOk result (λ text. text.bytes ≡ text_of (class_declared name.now version)) }
{
    let mut text = Bytes::new(alloc);
    text.put(b"ok class ")?;
    text.put_name(name)?;
    text.put(b" ")?;
    text.put_integer(i128::from(version))?;
    text.put(b"\n")?;
    Ok(text)
}

/// What is said of an object that was deleted: `ok delete NAME;CYCLE`.
#[tactic(auto, unfolding(rio_step::specs::ReplyText::text_of))]
pub fn delete_reply(alloc: Global, name: &[u8], cycle: u16) -> Result<Bytes, NoMemory>
    ensures { IfOk result (λ text. text.bytes ≡ text_of (item_deleted name.now cycle)) }
{
    let mut text = Bytes::new(alloc);
    text.put(b"ok delete ")?;
    put_item(&mut text, name, cycle)?;
    text.put(b"\n")?;
    Ok(text)
}

/// What is said of a tree that was made: `ok tree NAME;1`.
#[tactic(auto, unfolding(rio_step::specs::ReplyText::text_of))]
pub fn tree_reply(alloc: Global, name: &[u8]) -> Result<Bytes, NoMemory>
    ensures { IfOk result (λ text. text.bytes ≡ text_of (tree_made name.now 1)) }
{
    let mut text = Bytes::new(alloc);
    text.put(b"ok tree ")?;
    put_item(&mut text, name, 1)?;
    text.put(b"\n")?;
    Ok(text)
}

/// What is said of a row that was added: `ok fill NAME ENTRY`, where the entries of the tree are counted from 0.
#[tactic(auto, unfolding(rio_step::specs::ReplyText::text_of))]
pub fn fill_reply(alloc: Global, name: &[u8], entry: u64) -> Result<Bytes, NoMemory>
    ensures { IfOk result (λ text. text.bytes ≡ text_of (row_added name.now entry)) }
{
    let mut text = Bytes::new(alloc);
    text.put(b"ok fill ")?;
    text.put_name(name)?;
    text.put_numbered(entry)?;
    text.put(b"\n")?;
    Ok(text)
}

/// What is said of a tree that was saved: `ok save NAME;CYCLE ENTRIES`, with its new cycle and the number of its entries.
#[tactic(auto, unfolding(rio_step::specs::ReplyText::text_of))]
pub fn save_reply(alloc: Global, name: &[u8], cycle: u16, entries: u64) -> Result<Bytes, NoMemory>
    ensures { IfOk result (λ text. text.bytes ≡ text_of (rows_saved name.now cycle entries)) }
{
    let mut text = Bytes::new(alloc);
    text.put(b"ok save ")?;
    put_item(&mut text, name, cycle)?;
    text.put_numbered(entries)?;
    text.put(b"\n")?;
    Ok(text)
}

// How many objects there are, and a line for each.
#[tactic(auto, unfolding(crate::specs::Told::listing_of))]
fn listed_reply(alloc: Global, heads: &[Boxed<KeyHead>]) -> Result<Bytes, NoMemory>
    ensures { IfOk result (λ text. text.bytes ≡ listing_of heads.now) }
{
    let mut text = Bytes::new(alloc);
    text.put(b"ok ls")?;
    text.put_numbered(heads.len() as u64)?;
    text.put(b"\n")?;
    for head in heads {
        put_listed(&mut text, head.get())?;
    }
    Ok(text)
}

/// What is said of all objects, by their keys in the order of the key list: `ok ls COUNT`, and for each `NAME;CYCLE CLASS`.
pub fn listing_reply(alloc: Global, heads: &[Boxed<KeyHead>]) -> Result<Bytes, NoMemory>
    ensures listed { IfOk result (λ text. (m : State) → AreKeysOfState heads.now m
        → text.bytes ≡ text_of (items_listed (items_of m))) }
    ensures text { IfOk result (λ text. text.bytes ≡ listing_of heads.now) }
{
    listed_reply(alloc, heads)
}

// How many items there are, and a line for each.
#[tactic(auto, unfolding(crate::specs::Told::item_listing_of))]
fn items_reply(
    alloc: Global,
    heads: &[Boxed<KeyHead>],
    trees: &TreeTable,
) -> Result<Bytes, NoMemory>
    ensures { IfOk result (λ text. text.bytes ≡ item_listing_of trees.now.trees heads.now) }
{
    let mut text = Bytes::new(alloc);
    text.put(b"ok ls")?;
    text.put_numbered(heads.len() as u64)?;
    text.put(b"\n")?;
    put_items(&mut text, heads, trees)?;
    Ok(text)
}

/// What is said of all objects and trees, by their keys in the order of the key list and what is kept of the trees:
/// `ok ls COUNT`, and for each `NAME;CYCLE CLASS`, or `NAME;CYCLE TTree SAVED PENDING`.
pub fn item_listing_reply(
    alloc: Global,
    heads: &[Boxed<KeyHead>],
    trees: &TreeTable,
) -> Result<Bytes, NoMemory>
    ensures listed { IfOk result (λ text. (m : State)
        → AreItemsOfState heads.now trees.now.trees m
        → text.bytes ≡ text_of (items_listed (items_of m))) }
    ensures text { IfOk result
        (λ text. text.bytes ≡ item_listing_of trees.now.trees heads.now) }
{
    items_reply(alloc, heads, trees)
}
