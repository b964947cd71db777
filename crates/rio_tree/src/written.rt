//! The header that is written for a tree.
ghost use Rattle.std.specs.Prelude.{◌≡◌, ◌++◌, [], IfOk, OnOk};
ghost use Rattle.rio_leaf.specs.Stated.{leaves_of};
ghost use Rattle.rio_leaf.specs.declared.branch.Shape.TheVariants.{Class};
ghost use Rattle.rio_tree.specs.Header.{branch_leaves};
ghost use Rattle.rio_tree.specs.WrittenTree.{backs_from, basket_arrays, branch_numbers, branch_object, branch_pointers, labels_behind, leaf_backs, leaf_pointers, plain_branch_object, shaped_object, title_of_branch, tree_value_of};

use crate::written_baskets::{BasketNumber, basket_numbers};
use crate::written_labels::{LeafLabels, label_behind};
use crate::written_leaf::leaf_pointers;
use crate::{Branch, TreeHead};
use rio_format::{PartList, Value, Values, array_object, titled_object};
use rio_leaf::{Leaf, Shape, leaves_of, print_leaves};
use rio_num::{Boxed, Bytes, Name, NoMemory};
use std::alloc::Global;

fn branch_title(alloc: Global, shape: &Shape) -> Result<Name, NoMemory>
    ensures { IfOk result (λ title. title ≡ title_of_branch shape.now) }
{
    match shape {
        Shape::Leaves(leaves) => {
            let mut text = Bytes::new(alloc);
            print_leaves(leaves, &mut text)?;
            Name::from_slice(alloc, text.as_slice())
        }
        Shape::Class(class) => class.copy(),
    }
}

// What a TBranch says of itself.
fn branch_numbers(alloc: Global, branch: &Branch) -> Result<PartList, NoMemory>
    ensures { IfOk result (λ list. list ≡ branch_numbers branch.now) }
{
    let title = branch_title(alloc, &branch.def.shape)?;
    let named = titled_object(alloc, branch.def.name.as_slice(), title)?;
    let count = branch.baskets.len() as u64;
    let room = Value::Int(i128::from(count) + 1);
    PartList::new(alloc)
        .with(b"", named)?
        .with_number(b"fEntryOffsetLen", if branch.offsets { 1000 } else { 0 })?
        .with_number(b"fWriteBasket", count)?
        .with(b"fMaxBaskets", room)?
        .with_number(b"fEntries", branch.entries)
}

// These parts, and behind them where the baskets stand.
fn with_baskets(parts: PartList, alloc: Global, branch: &Branch) -> Result<PartList, NoMemory>
    ensures { IfOk result (λ list. list ≡ parts ++ basket_arrays branch.now) }
{
    let baskets = branch.baskets.as_slice();
    parts
        .with(
            b"fBasketBytes",
            basket_numbers(alloc, BasketNumber::Bytes, baskets, 0)?,
        )?
        .with(
            b"fBasketEntry",
            basket_numbers(alloc, BasketNumber::First, baskets, branch.entries)?,
        )?
        .with(
            b"fBasketSeek",
            basket_numbers(alloc, BasketNumber::Seek, baskets, 0)?,
        )
}

#[tactic(auto, unfolding(crate::specs::WrittenTree::plain_branch_object))]
fn plain_branch_object(
    alloc: Global,
    known: &mut LeafLabels,
    first: u32,
    branch: &Branch,
) -> Result<Value, NoMemory>
    ensures object { IfOk result
        (λ value. value ≡ plain_branch_object known.old first branch.now) }
    ensures known { OnOk result
        (known.new ≡ labels_behind known.old first (branch_leaves branch.now)) }
{
    let leaves = leaves_of(&branch.def.shape);
    let parts = branch_numbers(alloc, branch)?
        .with(b"fBranches", array_object(alloc, Values::new(alloc))?)?
        .with(
            b"fLeaves",
            array_object(alloc, leaf_pointers(alloc, known, first, leaves)?)?,
        )?
        .with(b"fBaskets", array_object(alloc, Values::new(alloc))?)?;
    with_baskets(parts, alloc, branch)?.object(b"TBranch", 113)
}

// A TBranchElement of the class with this TBranch as its base.
fn object_branch(
    alloc: Global,
    plain: Value,
    branch: &Branch,
    class: &Name,
) -> Result<Value, NoMemory>
    ensures { IfOk result (λ value. value ≡ shaped_object plain branch.now (Class class.now)) }
{
    PartList::new(alloc)
        .with(b"", plain)?
        .with_text(b"fClassName", class.as_slice())?
        .with_int(b"fClassVersion", branch.class_version)?
        .object(b"TBranchElement", 110)
}

// A TBranch, or a TBranchElement where its entries are objects.
#[tactic(auto, unfolding(crate::specs::WrittenTree::branch_object))]
fn branch_object(
    alloc: Global,
    known: &mut LeafLabels,
    first: u32,
    branch: &Branch,
) -> Result<Value, NoMemory>
    ensures object { IfOk result (λ value. value ≡ branch_object known.old first branch.now) }
    ensures known { OnOk result
        (known.new ≡ labels_behind known.old first (branch_leaves branch.now)) }
{
    let plain = plain_branch_object(alloc, known, first, branch)?;
    match &branch.def.shape {
        Shape::Leaves(_) => Ok(plain),
        Shape::Class(class) => object_branch(alloc, plain, branch, class),
    }
}

// Pointers to the branches, which have the labels from 0 on, each with its leaves behind it.
#[tactic(auto, unfolding(crate::specs::WrittenTree::branch_pointers))]
fn branch_pointers(alloc: Global, branches: &[Branch]) -> Result<Values, NoMemory>
    ensures { IfOk result (λ list. list ≡ branch_pointers [] 0 branches.now) }
{
    let mut known = LeafLabels::new(alloc);
    let mut pointers = Values::new(alloc);
    let mut label: u32 = 0;
    for branch in branches {
        let first = label_behind(label, 1)?;
        let object = branch_object(alloc, &mut known, first, branch)?;
        let object = Boxed::new(alloc, object)?;
        pointers.push(Value::Pointed { label, object })?;
        label = label_behind(first, leaves_of(&branch.def.shape).len())?;
    }
    Ok(pointers)
}

// What points to the leaves, which have the labels from this one on, is put at the end.
#[tactic(auto, unfolding(crate::specs::WrittenTree::backs_from))]
fn put_backs(pointers: &mut Values, first: u32, leaves: &[Leaf]) -> Result<(), NoMemory>
    ensures { OnOk result (pointers.new ≡ pointers.old ++ backs_from first leaves.now) }
{
    let mut label = first;
    for _leaf in leaves {
        pointers.push(Value::Back(label))?;
        label = label_behind(label, 1)?;
    }
    Ok(())
}

// What points to the leaves of all branches.
#[tactic(auto, unfolding(crate::specs::WrittenTree::leaf_backs))]
fn leaf_backs(alloc: Global, branches: &[Branch]) -> Result<Values, NoMemory>
    ensures { IfOk result (λ list. list ≡ leaf_backs 0 branches.now) }
{
    let mut pointers = Values::new(alloc);
    let mut label: u32 = 0;
    for branch in branches {
        let leaves = leaves_of(&branch.def.shape);
        let first = label_behind(label, 1)?;
        put_backs(&mut pointers, first, leaves)?;
        label = label_behind(first, leaves.len())?;
    }
    Ok(pointers)
}

/// The header that is written for a tree of this name: the value of a TTree. Where the pointers to its branches and leaves
/// are too many for labels of 32 bits, there is no memory for it.
#[tactic(auto, unfolding(crate::specs::WrittenTree::tree_value_of))]
pub fn tree_value(alloc: Global, name: &[u8], head: &TreeHead) -> Result<Value, NoMemory>
    ensures { IfOk result (λ value. value ≡ tree_value_of name.now head.now) }
{
    let branches = head.branches.as_slice();
    let named = titled_object(alloc, name, Name::new(alloc))?;
    PartList::new(alloc)
        .with(b"", named)?
        .with_number(b"fEntries", head.entries)?
        .with(
            b"fBranches",
            array_object(alloc, branch_pointers(alloc, branches)?)?,
        )?
        .with(
            b"fLeaves",
            array_object(alloc, leaf_backs(alloc, branches)?)?,
        )?
        .object(b"TTree", 120)
}
