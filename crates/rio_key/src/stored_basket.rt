//! A basket as it is stored, with its entries in place.
use crate::BasketFault;
use crate::basket_entries::laid_entry;
use crate::basket_layout::Layout;
use crate::basket_offsets::read_sound_layout;
use std::alloc::Global;
use std::marker::Model;

/// A basket as it is stored, which contracts see as the list of its entries. The entries stand in the basket's bytes, so
/// a scan that holds one makes no copy of it.
#[derive(Drop)]
pub struct StoredBasket {
    bytes: Vec<u8>,
    offsets: bool,
    layout: Layout,
}

impl Model for StoredBasket {
    ghost use Rattle.std.specs.Prelude.{ℕ, List};
    ghost use Rattle.rio_key.specs.{BasketEntries.{laid_entries}, LaidBasket.{IsLaid}};

    ghost Value = { List (List ℕ) };

    ghost view = { λ basket. laid_entries basket.offsets basket.layout basket.bytes.items };

    ghost invariant = { λ basket. IsLaid basket.offsets basket.layout basket.bytes.items };
}

impl StoredBasket {
    ghost use Rattle.std.specs.Prelude.{◌≡◌, ◌<◌, ◌^◌, length, slice_get, IfSome};
    ghost use Rattle.std.specs.Option.{option_copied};
    ghost use Rattle.rio_num.specs.Answers.{GivesUnless};
    ghost use Rattle.rio_key.specs.{BasketEntries.{entries_in}, declared.basket_fault.BasketFault.TheVariants.{NoMemory as OutOfMemory}};

    /// The basket that these bytes begin with, with the faults of `read_basket`.
    #[tactic(auto, unfolding(crate::specs::BasketEntries::entries_in))]
    pub fn read(alloc: Global, bytes: Vec<u8>, offsets: bool) -> Result<StoredBasket, BasketFault>
        ensures { GivesUnless OutOfMemory (λ x. x) result (entries_in offsets bytes.items) }
    {
        let layout = read_sound_layout(alloc, bytes.as_slice(), offsets)?;
        Ok(StoredBasket {
            bytes,
            offsets,
            layout,
        })
    }

    /// How many entries there are.
    pub fn count(&self) -> usize
        ensures { result ≡ length self.now }
    {
        self.layout.count as usize
    }

    /// The entry at `k`, counted from 0, in its place.
    pub fn entry(&self, k: usize) -> Option<&[u8]>
        ensures there { option_copied result ≡ slice_get self.now k }
        ensures short { IfSome result (λ entry. length entry.now < 2 ^ 32) }
    {
        if k < self.layout.count as usize {
            Some(laid_entry(self.offsets, &self.layout, self.bytes.as_slice(), k as u32))
        } else {
            None
        }
    }
}
