//! Class lists are written.
ghost use Rattle.std.specs.Prelude.{◌≡◌, ◌≤◌, ◌++◌, ℕ, List, true, length, Ok, IfOk};
ghost use Rattle.std.specs.List.{list_all};
ghost use Rattle.rio_num.specs.Room.{room_of};
ghost use Rattle.rio_format.specs.{ClassList.{class_list_at}, declared.class.ClassDef.{ClassDef as Class}, TreeClasses.{written_classes}, WrittenBytes.{length_limit, written_list}};
ghost use Rattle.rio_model.specs.Described.{is_described};

use crate::value::class_list_value;
use rio_describe::{JudgedLists, description_classes, tree_classes};
use rio_format::{ClassLists, Classes};
use rio_num::{Bytes, NoMemory};
use rio_write::write_object;
use std::alloc::Global;

/// The class list that is written for these declared classes: it describes the classes of trees and then these. Its
/// first byte has the place `start`.
pub fn write_info(alloc: Global, classes: &Classes, start: u64) -> Result<Bytes, NoMemory>
    requires length { length (written_list start classes.now) ≤ length_limit }
    requires start { start ≤ 65535 }
    ensures exact { IfOk result (λ b. b ≡ room_of (written_list start classes.now)) }
    // It is read as the classes of trees and these, whatever follows, if declarations can give these.
    ensures read { list_all is_described classes.now ≡ true → IfOk result (λ b. (more : List ℕ)
        → class_list_at start (b.bytes ++ more) ≡ Ok (written_classes classes.now)) }
{
    let trees = tree_classes(alloc)?;
    let judged = JudgedLists::new(alloc, ClassLists::Two(&trees, classes))?;
    let list = class_list_value(alloc, &judged)?;
    let descriptions = description_classes(alloc)?;
    write_object(alloc, &descriptions, &list, start)
}
