//! What is held of a branch while its rows are read: one basket.
ghost use Rattle.std.specs.Prelude.{◌≡◌, ◌<◌, ◌≤◌, ◌^◌, ℕ, List, Some, IfSome, IsTrue, is_some, length, OnOk};
ghost use Rattle.std.specs.Option.{option_copied};
ghost use Rattle.rio_host.specs.Host.{IsLength};
ghost use Rattle.rio_host.specs.OnlyReads.{OnlyReads};
ghost use Rattle.rio_host.specs.Reading.{IsReadCause};
ghost use Rattle.rio_tree.specs.Index.{basket_number};
ghost use Rattle.rio_entry.specs.StoredEntries.{branch_entry};
ghost use Rattle.rio_entry.specs.Lanes.{IsHeld};

use crate::index::basket_from;
use crate::stored::{FoundBasket, read_stored_basket};
use rio_host::{Host, ReadFault};
use rio_key::BasketFault;
use rio_tree::Branch;
use std::alloc::Global;

/// Why an entry of a branch isn't read: its basket, or the first part of it that breaks.
#[derive(Clone, Copy, Debug, PartialEq, Eq)]
pub enum RowFault {
    Basket(BasketFault),
    Entry { place: u64 },
}

/// What is held of a branch: the number of the basket that was looked at last, and what it is; and why an entry wasn't
/// read, if one wasn't.
#[derive(Drop)]
pub struct Lane {
    pub number: usize,
    pub basket: Option<FoundBasket>,
    pub fault: Option<RowFault>,
}

impl Lane {
    ghost use Rattle.rio_entry.specs.Lanes.{empty_handed};

    /// Nothing is held.
    pub(crate) fn empty() -> Lane
        ensures { result ≡ empty_handed }
    {
        Lane {
            number: 0,
            basket: None,
            fault: None,
        }
    }
}

/// Holds the basket of the entry.
pub(crate) fn hold<H: Host>(
    alloc: Global,
    host: &mut H,
    file_length: u64,
    branch: &Branch,
    entry: u64,
    lane: &mut Lane,
) -> Result<(), ReadFault>
    requires { IsLength (H.view host.old) file_length }
    ensures number { OnOk result (lane.old.number ≤ basket_number entry branch.now.baskets
        → lane.new.number ≡ basket_number entry branch.now.baskets) }
    ensures held { OnOk result ((file : List ℕ) → (H.view host.old).holds ≡ Some file
        → IsHeld file branch.now lane.old.number lane.old.basket
        → IsHeld file branch.now lane.new.number lane.new.basket) }
    ensures some { OnOk result (IsTrue (is_some lane.new.basket)) }
    ensures calls { OnlyReads (H.view host.old) (H.view host.new) }
    ensures cause { IsReadCause (H.view host.old) (H.view host.new) result }
{
    let baskets = branch.baskets.as_slice();
    let number = basket_from(baskets, lane.number, entry);
    if number == lane.number && lane.basket.is_some() {
        return Ok(());
    }
    lane.number = number;
    lane.basket = None;
    match baskets.get(number) {
        Some(at) => {
            let found = read_stored_basket(alloc, host, file_length, branch.offsets, at)?;
            lane.basket = Some(found);
        }
        None => lane.basket = Some(Err(BasketFault::BadLast { place: 0 })),
    }
    Ok(())
}

/// The entry in the basket that is held, if it is there.
pub(crate) fn entry_there<'a>(branch: &Branch, lane: &'a Lane, entry: u64) -> Option<&'a [u8]>
    ensures there { (file : List ℕ) → lane.now.number ≡ basket_number entry branch.now.baskets
        → IsTrue (is_some lane.now.basket)
        → IsHeld file branch.now lane.now.number lane.now.basket
        → option_copied result ≡ branch_entry file branch.now entry }
    ensures short { IfSome result (λ bytes. length bytes.now < 2 ^ 32) }
{
    match (branch.baskets.get(lane.number), &lane.basket) {
        (Some(at), Some(Ok(basket))) => basket.entry(entry.saturating_sub(at.first) as usize),
        _ => None,
    }
}
