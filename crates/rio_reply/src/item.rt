//! Parts of replies: names with their cycles.
ghost use Rattle.std.specs.Prelude.{◌≡◌, ◌++◌, codes, map, OnOk};
ghost use Rattle.rio_num.specs.Printed.{item_text};
ghost use Rattle.std.specs.List.{flat_map};
ghost use Rattle.rio_step.specs.KeptItems.{item_of_key};
ghost use Rattle.rio_reply.specs.Told.{item_line, listed_line, tree_line};

use rio_key::KeyHead;
use rio_num::{Boxed, Bytes, NoMemory};
use rio_tree_table::{KeptTree, TreeTable};

/// Puts `NAME;CYCLE` at the end.
pub fn put_item(text: &mut Bytes, name: &[u8], cycle: u16) -> Result<(), NoMemory>
    ensures { OnOk result (text.new.bytes ≡ text.old.bytes ++ item_text name.now cycle) }
{
    text.put_name(name)?;
    text.put(b";")?;
    text.put_decimal(u64::from(cycle))
}

// ` NAME;CYCLE` of each of these keys.
pub(crate) fn put_names(text: &mut Bytes, heads: &[KeyHead]) -> Result<(), NoMemory>
    ensures { OnOk result (text.new.bytes ≡ text.old.bytes
        ++ flat_map (λ item. codes " " ++ item_text item.0 item.1) (map item_of_key heads.now)) }
{
    for head in heads {
        text.put(b" ")?;
        put_item(text, head.name.as_slice(), head.cycle)?;
    }
    Ok(())
}

// The line of an object in a listing.
pub(crate) fn put_listed(text: &mut Bytes, head: &KeyHead) -> Result<(), NoMemory>
    ensures { OnOk result (text.new.bytes ≡ text.old.bytes ++ listed_line head.now) }
{
    put_item(text, head.name.as_slice(), head.cycle)?;
    text.put(b" ")?;
    text.put_name(head.class.as_slice())?;
    text.put(b"\n")
}

// The line of a tree in a listing.
fn put_tree(text: &mut Bytes, head: &KeyHead, tree: &KeptTree) -> Result<(), NoMemory>
    ensures { OnOk result
        (text.new.bytes ≡ text.old.bytes ++ tree_line head.now tree.now) }
{
    put_item(text, head.name.as_slice(), head.cycle)?;
    text.put(b" TTree")?;
    text.put_numbered(tree.saved)?;
    text.put_numbered(tree.pending)?;
    text.put(b"\n")
}

// The line of an object or a tree in a listing.
fn put_listed_item(text: &mut Bytes, head: &KeyHead, trees: &TreeTable) -> Result<(), NoMemory>
    ensures { OnOk result
        (text.new.bytes ≡ text.old.bytes ++ item_line trees.now.trees head.now) }
{
    match trees.find(head.name.as_slice()) {
        Some(tree) => put_tree(text, head, tree),
        None => put_listed(text, head),
    }
}

// The lines of all objects and trees.
pub(crate) fn put_items(
    text: &mut Bytes,
    heads: &[Boxed<KeyHead>],
    trees: &TreeTable,
) -> Result<(), NoMemory>
    ensures { OnOk result (text.new.bytes
        ≡ text.old.bytes ++ flat_map (item_line trees.now.trees) heads.now) }
{
    for head in heads {
        put_listed_item(text, head.get(), trees)?;
    }
    Ok(())
}
