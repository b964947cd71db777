//! Whether the replies of commands are printed.
ghost use Rattle.std.specs.Prelude.{◌≡◌, map, IfOk};
ghost use Rattle.rio_session.specs.Replying.{printed_of, reply_text};
ghost use Rattle.rio_step.specs.KeptItems.{item_of_key};
ghost use Rattle.rio_step.specs.Step.{class_declared, item_deleted, object_put, objects_put, refused, row_added, rows_saved, tree_made};

use rio_key::KeyHead;
use rio_machine::Refusal;
use rio_num::{Bytes, NoMemory};
use rio_reply::{
    batch_reply, class_reply, delete_reply, fill_reply, put_reply, refusal_reply, save_reply,
    tree_reply,
};
use std::alloc::Global;

/// Whether the replies of commands are printed.
#[derive(Clone, Copy, Debug, PartialEq, Eq)]
pub enum Replies {
    /// The reply of each command is printed.
    Printed,
    /// Nothing is printed: neither what a command did nor why it is refused.
    Omitted,
}

/// What is printed of a text.
pub(crate) fn printed_part(replies: Replies, text: &[u8]) -> &[u8]
    ensures { result.now ≡ printed_of replies text.now }
{
    match replies {
        Replies::Printed => text,
        Replies::Omitted => &[],
    }
}

/// What is printed of a refusal.
pub(crate) fn refusal_text(
    alloc: Global,
    replies: Replies,
    refusal: &Refusal,
) -> Result<Bytes, NoMemory>
    ensures { IfOk result (λ text. text.bytes ≡ reply_text replies (refused refusal.now)) }
{
    match replies {
        Replies::Printed => refusal_reply(alloc, refusal),
        Replies::Omitted => Ok(Bytes::new(alloc)),
    }
}

/// What is printed of an object that was put.
pub(crate) fn put_text(
    alloc: Global,
    replies: Replies,
    name: &[u8],
    cycle: u16,
) -> Result<Bytes, NoMemory>
    ensures { IfOk result (λ text. text.bytes ≡ reply_text replies (object_put name.now cycle)) }
{
    match replies {
        Replies::Printed => put_reply(alloc, name, cycle),
        Replies::Omitted => Ok(Bytes::new(alloc)),
    }
}

/// What is printed of the objects of a batch, by their keys in the order of its puts.
pub(crate) fn batch_text(
    alloc: Global,
    replies: Replies,
    heads: &[KeyHead],
) -> Result<Bytes, NoMemory>
    ensures { IfOk result (λ text. text.bytes
        ≡ reply_text replies (objects_put (map item_of_key heads.now))) }
{
    match replies {
        Replies::Printed => batch_reply(alloc, heads),
        Replies::Omitted => Ok(Bytes::new(alloc)),
    }
}

/// What is printed of a class that was declared.
pub(crate) fn class_text(
    alloc: Global,
    replies: Replies,
    name: &[u8],
    version: i32,
) -> Result<Bytes, NoMemory>
    ensures { IfOk result
        (λ text. text.bytes ≡ reply_text replies (class_declared name.now version)) }
{
    match replies {
        Replies::Printed => class_reply(alloc, name, version),
        Replies::Omitted => Ok(Bytes::new(alloc)),
    }
}

/// What is printed of an object or a tree that was deleted.
pub(crate) fn delete_text(
    alloc: Global,
    replies: Replies,
    name: &[u8],
    cycle: u16,
) -> Result<Bytes, NoMemory>
    ensures { IfOk result
        (λ text. text.bytes ≡ reply_text replies (item_deleted name.now cycle)) }
{
    match replies {
        Replies::Printed => delete_reply(alloc, name, cycle),
        Replies::Omitted => Ok(Bytes::new(alloc)),
    }
}

/// What is printed of a tree that was made.
pub(crate) fn tree_text(alloc: Global, replies: Replies, name: &[u8]) -> Result<Bytes, NoMemory>
    ensures { IfOk result (λ text. text.bytes ≡ reply_text replies (tree_made name.now 1)) }
{
    match replies {
        Replies::Printed => tree_reply(alloc, name),
        Replies::Omitted => Ok(Bytes::new(alloc)),
    }
}

/// What is printed of a row that was added.
pub(crate) fn fill_text(
    alloc: Global,
    replies: Replies,
    name: &[u8],
    entry: u64,
) -> Result<Bytes, NoMemory>
    ensures { IfOk result (λ text. text.bytes ≡ reply_text replies (row_added name.now entry)) }
{
    match replies {
        Replies::Printed => fill_reply(alloc, name, entry),
        Replies::Omitted => Ok(Bytes::new(alloc)),
    }
}

/// What is printed of a tree that was saved.
pub(crate) fn save_text(
    alloc: Global,
    replies: Replies,
    name: &[u8],
    cycle: u16,
    entries: u64,
) -> Result<Bytes, NoMemory>
    ensures { IfOk result
        (λ text. text.bytes ≡ reply_text replies (rows_saved name.now cycle entries)) }
{
    match replies {
        Replies::Printed => save_reply(alloc, name, cycle, entries),
        Replies::Omitted => Ok(Bytes::new(alloc)),
    }
}
