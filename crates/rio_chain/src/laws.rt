//! Laws of the segments of a file.
ghost use Rattle.rio_chain.specs.FewerRecords.{IsLeftByReleases, KeepsOtherRecords, KeepsSegments};
ghost use Rattle.rio_chain.specs.Laws.{HasOneBreak, HasOneChain, IsAlwaysOne, IsLaidByPuts, IsNeverBoth, IsReadOfRecords};
ghost use Rattle.rio_chain.specs.NewRecords.{AreNewRecords};

/// A file has at most one list of segments, and at most one first break, and never both.
pub fn one_chain()
    ensures chain { HasOneChain }
    ensures break_place { HasOneBreak }
    ensures either { IsNeverBoth }
{}

/// A file has a list of segments, or a first break.
pub fn chain_or_break()
    ensures { IsAlwaysOne }
{}

/// The key that is read at a record's place is the record's own.
pub fn record_key()
    ensures { IsReadOfRecords }
{}

/// Records that are put one after the other stand where they were planned: a put at the rule's place
/// leaves free what laying its length leaves free.
pub fn laid_by_puts()
    ensures { IsLaidByPuts }
{}

/// A new record is one of the chain at its place, with its key in front, and behind that its data
/// and at most three zero bytes, up to a length that is a multiple of four.
pub fn new_record_is_whole()
    ensures { AreNewRecords }
{}

/// Segments of a file without a record, but the first, are segments of a file. There is one record
/// fewer, its bytes are free, as one gap with the gaps on both sides, or as a part of what is behind
/// END, and the other records keep their places and their bytes.
pub fn one_record_less()
    ensures left { IsLeftByReleases }
    ensures segments { KeepsSegments }
    ensures records { KeepsOtherRecords }
{}
