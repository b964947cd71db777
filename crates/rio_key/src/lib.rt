//! Keys, the heads of the records of a file, lists of such heads, and baskets, the records that hold the entries of a tree's
//! branches.
//!
//! **Keys.** A key, a list of heads, the head of a basket and a basket's key with the head after it stand once, as
//! descriptions (`specs/Key.antt`, `KeyList.antt`, `BasketHead.antt`, `BasketFront.antt`), of which reading, spelling and the
//! first fault are three meanings. `specs/Written.antt` has what is written.
//!
//! **Baskets.** A basket is a record of the class TBasket whose entries all have one length, or stand after offsets.
//! [`read_basket`] gives its entries, or the first fault with its place. A [`StoredBasket`] keeps the basket's bytes and shows
//! each entry in its place, with no copy. A [`Basket`] is filled entry by entry, tells when it is to be written, and gives its
//! record. What is written is read as the same entries ([`basket_record_is_read`]). `specs/StoredLayout.antt` has the rules of
//! the key and the head, `specs/BasketEntries.antt` those of the offsets and where each entry stands,
//! `specs/BasketRecord.antt` the record as it is written, and `specs/Cut.antt` the rule by which entries are divided into
//! baskets as they come.
#![tactic(auto)]

mod basket;
mod basket_entries;
mod basket_fault;
mod basket_head;
mod basket_laws;
mod basket_layout;
mod basket_offsets;
mod basket_record;
mod fault;
mod head;
mod laws;
mod list;
mod read;
mod stored_basket;
mod write;

pub use basket::Basket;
pub use basket_entries::{Entries, read_basket};
pub use basket_fault::BasketFault;
pub use basket_head::{
    BasketFront, BasketHead, read_basket_front, read_basket_head, write_basket_head,
};
pub use basket_laws::basket_record_is_read;
pub use fault::{KeyFault, ListFault};
pub use head::{FIRST_PLACE, KeyHead};
pub use laws::{key_in_front, meanings_agree, one_key, one_key_list, written_key_is_spelled};
pub use list::{Heads, read_heads};
pub use read::read_key;
pub use stored_basket::StoredBasket;
pub use write::{key_length, key_length_of, write_key};
