//! The leaves of a header that is written.
ghost use Rattle.std.specs.Prelude.{◌≡◌, ◌++◌, IfOk, OnOk};
ghost use Rattle.rio_leaf.specs.Spelling.{text_of_dim};
ghost use Rattle.rio_tree.specs.WrittenTree.{class_of_letter, counter_pointer, is_unsigned_letter, labels_behind, leaf_object, leaf_pointers, plain_leaf_object, width_of_letter, written_count};

use crate::written_labels::{LeafLabels, label_behind};
use rio_format::{PartList, Value, Values, titled_object};
use rio_leaf::{Dim, Leaf, put_dim};
use rio_num::{Boxed, Bytes, Name, NoMemory};
use std::alloc::Global;

fn class_of_letter(letter: u8) -> &'static [u8]
    ensures { result.now ≡ class_of_letter letter }
{
    match letter {
        b'B' | b'b' => b"TLeafB",
        b'S' | b's' => b"TLeafS",
        b'I' | b'i' => b"TLeafI",
        b'L' | b'l' => b"TLeafL",
        b'F' => b"TLeafF",
        b'D' => b"TLeafD",
        b'O' => b"TLeafO",
        _ => b"TLeafC",
    }
}

fn width_of_letter(letter: u8) -> u64
    ensures { result ≡ width_of_letter letter }
{
    match letter {
        b'L' | b'l' | b'D' => 8,
        b'I' | b'i' | b'F' => 4,
        b'S' | b's' => 2,
        _ => 1,
    }
}

fn is_unsigned(letter: u8) -> bool
    ensures { result ≡ is_unsigned_letter letter }
{
    b"bsil".contains(&letter)
}

fn count_of(dim: &Dim) -> u64
    ensures { result ≡ written_count dim.now }
{
    match dim {
        Dim::Fixed(count) => u64::from(*count),
        _ => 1,
    }
}

fn counter_pointer(known: &LeafLabels, dim: &Dim) -> Value
    ensures { result ≡ counter_pointer known.now dim.now }
{
    match dim {
        Dim::Counted { counter, .. } => match known.label(counter.as_slice()) {
            Some(label) => Value::Back(label),
            None => Value::Null,
        },
        _ => Value::Null,
    }
}

// What lists the leaf, without its letter.
fn leaf_title(alloc: Global, leaf: &Leaf) -> Result<Name, NoMemory>
    ensures { IfOk result (λ title. title ≡ leaf.now.name ++ text_of_dim leaf.now.dim) }
{
    let mut text = Bytes::new(alloc);
    text.put(leaf.name.as_slice())?;
    put_dim(&leaf.dim, &mut text)?;
    Name::from_slice(alloc, text.as_slice())
}

#[tactic(auto, unfolding(crate::specs::WrittenTree::plain_leaf_object))]
fn plain_leaf_object(alloc: Global, known: &LeafLabels, leaf: &Leaf) -> Result<Value, NoMemory>
    ensures { IfOk result (λ value. value ≡ plain_leaf_object known.now leaf.now) }
{
    let named = titled_object(alloc, leaf.name.as_slice(), leaf_title(alloc, leaf)?)?;
    PartList::new(alloc)
        .with(b"", named)?
        .with_number(b"fLen", count_of(&leaf.dim))?
        .with_number(b"fLenType", width_of_letter(leaf.letter))?
        .with(b"fIsUnsigned", Value::Bool(is_unsigned(leaf.letter)))?
        .with(b"fLeafCount", counter_pointer(known, &leaf.dim))?
        .object(b"TLeaf", 102)
}

#[tactic(auto, unfolding(crate::specs::WrittenTree::leaf_object))]
fn leaf_object(alloc: Global, known: &LeafLabels, leaf: &Leaf) -> Result<Value, NoMemory>
    ensures { IfOk result (λ value. value ≡ leaf_object known.now leaf.now) }
{
    PartList::new(alloc)
        .with(b"", plain_leaf_object(alloc, known, leaf)?)?
        .object(class_of_letter(leaf.letter), 101)
}

/// Pointers to the leaves, which have the labels from this one on. All of them are known then.
#[tactic(auto, unfolding(crate::specs::WrittenTree::leaf_pointers, crate::specs::WrittenTree::labels_behind))]
pub(crate) fn leaf_pointers(
    alloc: Global,
    known: &mut LeafLabels,
    first: u32,
    leaves: &[Leaf],
) -> Result<Values, NoMemory>
    ensures pointers { IfOk result (λ list. list ≡ leaf_pointers known.old first leaves.now) }
    ensures known { OnOk result (known.new ≡ labels_behind known.old first leaves.now) }
{
    let mut pointers = Values::new(alloc);
    let mut label = first;
    for leaf in leaves {
        let object = Boxed::new(alloc, leaf_object(alloc, known, leaf)?)?;
        pointers.push(Value::Pointed { label, object })?;
        known.note(leaf.name.copy()?, label)?;
        label = label_behind(label, 1)?;
    }
    Ok(pointers)
}
