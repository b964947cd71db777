//! How long class lists are, without writing them.
ghost use Rattle.std.specs.Prelude.{◌≡◌, [], ◌∷◌, ◌++◌, ℕ, length, IfOk};
ghost use Rattle.rio_format.specs.{Lists.{listed}, WrittenBytes.{class_list_bytes, told_length, written_list}};

use crate::value::class_list_value;
use rio_describe::{JudgedLists, description_classes, tree_classes};
use rio_format::{ClassDef, ClassLists, Classes};
use rio_num::NoMemory;
use rio_write::written_length;
use std::alloc::Global;

// The length of the list of these classes, as far as it is told.
fn list_length(alloc: Global, classes: &ClassLists) -> Result<u64, NoMemory>
    ensures { IfOk result (λ n. (start : ℕ) → n
        ≡ told_length (length (class_list_bytes start (listed classes.now)))) }
{
    let judged = JudgedLists::new(alloc, *classes)?;
    let list = class_list_value(alloc, &judged)?;
    let descriptions = description_classes(alloc)?;
    written_length(alloc, &descriptions, &list)
}

/// The length of the class list that is written for these declared classes, or 16,777,217 where it is more than
/// 16,777,216. The list's value is made and measured, and nothing is written: it takes memory in proportion to the list as
/// it would be written.
pub fn info_length(alloc: Global, classes: &Classes) -> Result<u64, NoMemory>
    ensures { IfOk result (λ n. (start : ℕ) → n
        ≡ told_length (length (written_list start classes.now))) }
{
    let trees = tree_classes(alloc)?;
    list_length(alloc, &ClassLists::Two(&trees, classes))
}

/// The same length with one class more, which stands behind the declared ones and counts as one of them: where it is
/// a new version it decides, for each member of its class, which element is written. The value of that
/// list is made and measured.
pub fn info_length_with(alloc: Global, classes: &Classes, class: &ClassDef) -> Result<u64, NoMemory>
    ensures { IfOk result (λ n. (start : ℕ) → n
        ≡ told_length (length (written_list start (classes.now ++ class.now ∷ [])))) }
{
    let trees = tree_classes(alloc)?;
    list_length(alloc, &ClassLists::With(&trees, classes, class))
}
