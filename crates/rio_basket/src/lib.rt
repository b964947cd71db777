//! Baskets: what a user of the library imports. The code and its contracts stand in `rio_key`.
#![tactic(auto)]

pub use rio_key::{Basket, BasketFault, Entries, StoredBasket, basket_record_is_read, read_basket};
