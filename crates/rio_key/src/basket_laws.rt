//! The law of baskets' records.
ghost use Rattle.rio_key.specs.BasketLaws.{AreBasketRecords};

/// A basket's record is as long as its key says, a multiple of four, its key stands first in it, and what is read of it are
/// the basket's entries, whatever follows.
pub fn basket_record_is_read()
    ensures { AreBasketRecords }
{}
