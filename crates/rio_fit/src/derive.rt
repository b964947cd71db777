//! Which classes may be pointed to.
ghost use Rattle.std.specs.Prelude.{◌≡◌, ◌==◌, IfOk};
ghost use Rattle.std.specs.List.{list_any};
ghost use Rattle.rio_format.specs.{Slots.{can_be_put, can_be_word}, Fits.{is_pointer, may_point}};

use rio_format::{BuiltIn, ClassLists, Classes, Slot, SlotKind, derives_from, is_headed};
use rio_num::NoMemory;
use std::alloc::Global;
use std::marker::Model;

fn has_zero(bytes: &[u8]) -> bool
    ensures { result ≡ list_any (λ b. b == 0) bytes.now }
{
    bytes.iter().any(|byte| *byte == 0)
}

// Whether a class word can spell the name.
fn can_be_word(class: &[u8]) -> bool
    ensures { result ≡ can_be_word class.now }
{
    !has_zero(class)
}

/// Whether a put can have an object of this class as its value: one whose objects begin with a header and
/// that is described, or TNamed, TObjString, TList or TObjArray.
pub fn can_be_put(classes: &Classes, class: &[u8]) -> bool
    ensures { result ≡ can_be_put classes.now class.now }
{
    (is_headed(class) && classes.newest(class).is_some()) || BuiltIn::headed(class).is_some()
}

/// The class of an object, and its version.
#[derive(Drop)]
pub(crate) struct Owner<'a> {
    pub(crate) class: &'a [u8],
    pub(crate) version: i32,
}

impl<'a> Model for Owner<'a> {
    ghost use Rattle.std.specs.Prelude.{ℕ, ℤ, List};

    ghost Value = { List ℕ × ℤ };

    ghost view = { λ owner. (owner.class.now, owner.version) };
}

/// Whether a pointer in the slot may point to an object of this class and version.
pub(crate) fn may_point(
    alloc: Global,
    classes: &Classes,
    owner: &Owner,
    slot: &Slot,
) -> Result<bool, NoMemory>
    ensures { IfOk result (λ b. b ≡ may_point classes.now owner.now slot.now) }
{
    let (class, version) = (owner.class, owner.version);
    if !can_be_word(class) {
        return Ok(false);
    }
    match slot.0 {
        SlotKind::Pointer(target) => {
            derives_from(alloc, &ClassLists::One(classes), target, class, version)
        }
        SlotKind::AnyPointer => Ok(can_be_put(classes, class)),
        _ => Ok(false),
    }
}

pub(crate) fn is_pointer(slot: &Slot) -> bool
    ensures { result ≡ is_pointer slot.now }
{
    matches!(slot.0, SlotKind::Pointer(_) | SlotKind::AnyPointer)
}
