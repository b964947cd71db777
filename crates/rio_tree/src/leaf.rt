//! What a leaf in a header says.
ghost use Rattle.std.specs.Prelude.{◌≡◌, Some, if◌then◌else◌};
ghost use Rattle.std.specs.Str.{bytes_eq};
ghost use Rattle.rio_tree.specs.HeaderLeaves.{counter_member, is_plain_number, leaf_at_pointer, leaf_said, least_one, letter_of_class, uncounted_dim};
ghost use Rattle.rio_tree.specs.Tables.{labels_of};

use crate::labels::LabelTable;
use crate::members::{i32_member, name_member, truth_member};
use rio_format::Value;
use rio_leaf::Dim;
use std::marker::Model;

/// What a leaf says that has all members that are needed: its name, its letter, its length, and the label of the leaf
/// that counts it.
#[derive(Drop)]
pub(crate) struct LeafSaid<'a> {
    pub(crate) name: &'a [u8],
    pub(crate) letter: u8,
    pub(crate) len: i32,
    pub(crate) counter: Option<u32>,
}

impl<'a> Model for LeafSaid<'a> {
    ghost use Rattle.rio_tree.specs.HeaderLeaves.{LeafSaid as Said};

    ghost Value = { Said };

    ghost view = { λ leaf. record {
      name = leaf.name.now;
      letter = leaf.letter;
      len = leaf.len;
      counter = leaf.counter;
    } };
}

// One of two letters, of which the second is for integers without a sign.
fn letter_if(unsigned: bool, letter: u8, without_sign: u8) -> u8
    ensures { result ≡ (if unsigned then without_sign else letter) }
{
    if unsigned { without_sign } else { letter }
}

// The letter where the class has this name, or else the other one.
fn letter_or(class: &[u8], name: &[u8], letter: u8, other: Option<u8>) -> Option<u8>
    ensures { result ≡ (if bytes_eq class.now name.now then Some letter else other) }
{
    if class == name { Some(letter) } else { other }
}

// The letter of a class of leaves.
fn letter_of_class(class: &[u8], unsigned: bool) -> Option<u8>
    ensures { result ≡ letter_of_class class.now unsigned }
{
    let other = letter_or(class, b"TLeafC", b'C', None);
    let other = letter_or(class, b"TLeafO", b'O', other);
    let other = letter_or(class, b"TLeafD", b'D', other);
    let other = letter_or(class, b"TLeafF", b'F', other);
    let other = letter_or(class, b"TLeafL", letter_if(unsigned, b'L', b'l'), other);
    let other = letter_or(class, b"TLeafI", letter_if(unsigned, b'I', b'i'), other);
    let other = letter_or(class, b"TLeafS", letter_if(unsigned, b'S', b's'), other);
    letter_or(class, b"TLeafB", letter_if(unsigned, b'B', b'b'), other)
}

// The label that a member is, or no label where it is null; None for another value.
fn counter_member(name: &[u8], value: &Value) -> Option<Option<u32>>
    ensures { result ≡ counter_member name.now value.now }
{
    match value.member(name)? {
        Value::Null => Some(None),
        Value::Pointed { label, .. } => Some(Some(*label)),
        Value::Back(label) => Some(Some(*label)),
        _ => None,
    }
}

/// What a leaf says. None where its class isn't one of those of leaves, or a member is lacking.
#[tactic(auto, unfolding(crate::specs::HeaderLeaves::leaf_said))]
pub(crate) fn leaf_said(value: &Value) -> Option<LeafSaid<'_>>
    ensures { result ≡ leaf_said value.now }
{
    let name = name_member(b"fName", value)?;
    let len = i32_member(b"fLen", value)?;
    let unsigned = truth_member(b"fIsUnsigned", value)?;
    let counter = counter_member(b"fLeafCount", value)?;
    let letter = letter_of_class(value.class(), unsigned)?;
    Some(LeafSaid {
        name,
        letter,
        len,
        counter,
    })
}

/// What the object says that a pointer leads to. None where there is none, or it is no leaf that has all members that are
/// needed.
pub(crate) fn leaf_at_pointer<'a>(labels: &LabelTable<'a>, item: &'a Value) -> Option<LeafSaid<'a>>
    ensures { result ≡ leaf_at_pointer (labels_of labels.now) item.now }
{
    leaf_said(labels.object_behind(item)?)
}

/// How many values a leaf of this length has that isn't counted.
pub(crate) fn uncounted_dim(len: i32) -> Dim
    ensures { result ≡ uncounted_dim len }
{
    if len > 1 {
        Dim::Fixed(len.unsigned_abs())
    } else {
        Dim::One
    }
}

/// How many values a leaf of this length has for each that is counted.
pub(crate) fn least_one(len: i32) -> u32
    ensures { result ≡ least_one len }
{
    if len > 1 { len.unsigned_abs() } else { 1 }
}

/// Whether a leaf is a signed integer of 4 bytes without a dimension.
pub(crate) fn is_plain_number(said: &LeafSaid) -> bool
    ensures { result ≡ is_plain_number said.now }
{
    said.letter == b'I' && said.counter.is_none() && said.len <= 1
}
