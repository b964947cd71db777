//! The arrays with a number for each basket.
ghost use Rattle.std.specs.Prelude.{◌≡◌, IfOk};
ghost use Rattle.rio_tree.specs.WrittenBaskets.{number_of_basket};
ghost use Rattle.rio_tree.specs.WrittenTree.{basket_numbers};

use crate::BasketAt;
use rio_format::{Value, Values};
use rio_num::NoMemory;
use std::alloc::Global;

/// A number of a basket.
#[derive(Clone, Copy)]
pub(crate) enum BasketNumber {
    Bytes,
    First,
    Seek,
}

impl BasketNumber {
    fn of(self, basket: &BasketAt) -> u64
        ensures { result ≡ number_of_basket self basket.now }
    {
        match self {
            BasketNumber::Bytes => u64::from(basket.bytes),
            BasketNumber::First => basket.first,
            BasketNumber::Seek => basket.seek,
        }
    }
}

/// This number of each basket, and a last one behind them.
#[tactic(auto, unfolding(crate::specs::WrittenTree::basket_numbers))]
pub(crate) fn basket_numbers(
    alloc: Global,
    number: BasketNumber,
    baskets: &[BasketAt],
    last: u64,
) -> Result<Value, NoMemory>
    ensures { IfOk result
        (λ value. value ≡ basket_numbers (number_of_basket number) baskets.now last) }
{
    let mut items = Values::new(alloc);
    for basket in baskets {
        items.push(Value::Int(i128::from(number.of(basket))))?;
    }
    items.push(Value::Int(i128::from(last)))?;
    Ok(Value::List(items))
}
