//! An item of a file, as a word of the command line names it.
use rio_num::{Name, NoMemory};
use rio_report::Item;
use std::alloc::Global;
use std::marker::Model;

/// An item as a word names it.
#[derive(Debug, Drop)]
pub struct ItemWord<'a> {
    pub name: &'a [u8],
    pub cycle: Option<u32>,
}

impl<'a> Model for ItemWord<'a> {
    ghost use Rattle.rio_report.specs.declared.item.Item.{Item};

    ghost Value = { Item };

    ghost view = { λ word. record { name = word.name.now; cycle = word.cycle } };
}

impl<'a> ItemWord<'a> {
    ghost use Rattle.std.specs.Prelude.{◌≡◌, IfOk};

    /// The item itself.
    pub fn to_item(&self, alloc: Global) -> Result<Item, NoMemory>
        ensures { IfOk result (λ item. item ≡ self.now) }
    {
        Ok(Item {
            name: Name::from_slice(alloc, self.name)?,
            cycle: self.cycle,
        })
    }
}
