//! One branch of a header.
ghost use Rattle.std.specs.Prelude.{◌≡◌, [], IfOk, OnOk};
ghost use Rattle.std.specs.List.{list_any};
ghost use Rattle.std.specs.Option.{option_copied};
ghost use Rattle.std.specs.Result.{result_err, result_unwrap_or};
ghost use Rattle.rio_tree.specs.BranchMembers.{class_version_said};
ghost use Rattle.rio_tree.specs.Header.{branch_in, branch_known, branch_refused, entries_said, has_offsets, met_behind, shape_said, varies_in_length};
ghost use Rattle.rio_tree.specs.HeaderLeaves.{name_said};
ghost use Rattle.rio_tree.specs.Refusals.{listed_baskets};
ghost use Rattle.rio_tree.specs.Tables.{branch_of, labels_of, leaves_said, met_of};

use crate::branch_members::{BranchSaid, class_version_said, leaf_items, readable_branch};
use crate::labels::LabelTable;
use crate::leaves::{BranchLeaves, read_leaves};
use crate::met::{MetTable, name_said};
use crate::stored::listed_baskets;
use crate::unread::Unread;
use crate::{Baskets, Branch, BranchNumbers, BranchRefusal, Branches};
use rio_format::Value;
use rio_leaf::{BranchDef, Leaf, Leaves, Shape, is_counted_dim};
use rio_num::{Name, NoMemory};
use std::alloc::Global;

// A branch that is refused before its leaves are known.
fn branch_refused(alloc: Global, name: &[u8], why: BranchRefusal) -> Result<Branch, NoMemory>
    ensures { IfOk result (λ branch. branch ≡ branch_refused name.now why) }
{
    Ok(Branch {
        def: BranchDef {
            name: Name::from_slice(alloc, name)?,
            shape: Shape::Leaves(Leaves::new(alloc)),
        },
        class_version: 0,
        entries: 0,
        offsets: false,
        baskets: Baskets::new(alloc),
        counted_by: BranchNumbers::new(alloc),
        refused: Some(why),
    })
}

// Whether a leaf may have values of different lengths.
fn varies_in_length(leaf: &Leaf) -> bool
    ensures { result ≡ varies_in_length leaf.now }
{
    leaf.letter == b'C' || is_counted_dim(&leaf.dim)
}

fn have_offsets(leaves: &[Leaf]) -> bool
    ensures { result ≡ list_any varies_in_length leaves.now }
{
    leaves.iter().any(|leaf| varies_in_length(leaf))
}

/// Whether entries of a branch of this shape may have different lengths. Its baskets have a table of offsets then.
pub fn has_offsets(shape: &Shape) -> bool
    ensures { result ≡ has_offsets shape.now }
{
    match shape {
        Shape::Leaves(leaves) => have_offsets(leaves.as_slice()),
        Shape::Class(_) => true,
    }
}

fn shape_said(alloc: Global, class: Option<&[u8]>, leaves: Leaves) -> Result<Shape, NoMemory>
    ensures { IfOk result (λ shape. shape ≡ shape_said (option_copied class.entry) leaves) }
{
    match class {
        Some(class) => Ok(Shape::Class(Name::from_slice(alloc, class)?)),
        None => Ok(Shape::Leaves(leaves)),
    }
}

fn entries_said(entries: i64) -> u64
    ensures { result ≡ entries_said entries }
{
    u64::try_from(entries).unwrap_or(0)
}

// Where the baskets of a branch stand, or no baskets and why that can't be told.
fn stored_or_refused(
    alloc: Global,
    entries: u64,
    said: &BranchSaid,
) -> Result<(Baskets, Option<BranchRefusal>), NoMemory>
    ensures { let stored = listed_baskets entries (branch_of said.now) in
        IfOk result (λ p. p ≡ (result_unwrap_or stored [], result_err stored)) }
{
    match listed_baskets(alloc, entries, said) {
        Ok(baskets) => Ok((baskets, None)),
        Err(Unread::Refused(why)) => Ok((Baskets::new(alloc), Some(why))),
        Err(Unread::NoMemory) => Err(NoMemory),
    }
}

// A branch whose leaves are known.
fn branch_known(
    alloc: Global,
    entries: u64,
    object: Option<&Value>,
    said: &BranchSaid,
    read: BranchLeaves,
) -> Result<Branch, NoMemory>
    ensures { let o = option_copied object.entry in
        IfOk result (λ branch. branch ≡ branch_known (name_said o) (class_version_said o)
        (branch_of said.now) (leaves_said read)
        (listed_baskets entries (branch_of said.now))) }
{
    let (baskets, refused) = stored_or_refused(alloc, entries, said)?;
    let shape = shape_said(alloc, said.class, read.leaves)?;
    let offsets = has_offsets(&shape);
    Ok(Branch {
        def: BranchDef {
            name: Name::from_slice(alloc, name_said(object))?,
            shape,
        },
        class_version: class_version_said(object),
        entries: entries_said(said.entries),
        offsets,
        baskets,
        counted_by: read.counted_by,
        refused,
    })
}

/// A branch of a tree of so many entries, behind these branches, in a table of the leaves before. Afterwards the table has
/// its leaves too.
#[tactic(auto, unfolding(crate::specs::Header::branch_in, crate::specs::Header::known_branch))]
pub(crate) fn read_branch<'a>(
    alloc: Global,
    entries: u64,
    labels: &LabelTable<'a>,
    branches: &Branches,
    met: &mut MetTable<'a>,
    item: &'a Value,
) -> Result<Branch, NoMemory>
    ensures branch { IfOk result (λ branch. branch
        ≡ branch_in entries (labels_of labels.now) branches.now (met_of met.old) item.now) }
    ensures leaves { OnOk result (met_of met.new
        ≡ met_behind (labels_of labels.now) branches.now (met_of met.old) item.now) }
{
    let object = labels.object_behind(item);
    let leaves = leaf_items(object);
    match readable_branch(labels, item) {
        Ok(said) => match read_leaves(alloc, labels, branches, leaves, met) {
            Ok(read) => branch_known(alloc, entries, object, &said, read),
            Err(Unread::Refused(why)) => branch_refused(alloc, name_said(object), why),
            Err(Unread::NoMemory) => Err(NoMemory),
        },
        Err(why) => {
            met.note_leaves(labels, branches.len(), leaves)?;
            branch_refused(alloc, name_said(object), why)
        }
    }
}
