//! Laws of what files read as.
ghost use Rattle.rio_state.specs.Cleaning.{GarbageIsLeft};
ghost use Rattle.rio_state.specs.Holding.{HeadersAreBytes, HeldIsLimited};
ghost use Rattle.rio_state.specs.OneLess.{FirstIsKept, GarbageGoes, NeedFalls, OthersAreReferred, RecordLess, TreeGoes};
ghost use Rattle.rio_state.specs.OneMore.{CountGrows, EmptyIsRead, FirstStays, InfoStays, InternalStays, KeysFollow, KeysStay, NeedStays, PlacesDiffer, RecordMore};
ghost use Rattle.rio_state.specs.Sizes.{CloseSizeIsNeed};
ghost use Rattle.rio_state.specs.Laws.{HasOneReason, NoReasonIsRead, ReadsAsOneState, ReadsMeetsNoReason};

/// A file reads as at most one state.
pub fn one_state()
    ensures { ReadsAsOneState }
{}

/// A file has one first reason against writing to it, or none.
pub fn one_reason()
    ensures { HasOneReason }
{}

/// Where a file reads as a state its header breaks no rule, and nothing stands against writing to it but too many items or
/// want of room.
pub fn meets_no_reason()
    ensures { ReadsMeetsNoReason }
{}

/// A file of which it is told that nothing stands against writing but too many items or want of room reads as a state.
pub fn no_reason_is_read()
    ensures { NoReasonIsRead }
{}

/// A record that is put at the place of a gap, or at END, is one more among the records of the
/// file, and one more among its segments. The first record stays the first, and the class list
/// that counts stays too, where the record isn't one. The key of one more object stands in its place
/// among the keys that are kept beside the file. No other record of a chain begins at the place of one.
pub fn record_more()
    ensures more { RecordMore }
    ensures places { PlacesDiffer }
    ensures info { InfoStays }
    ensures first { FirstStays }
    ensures count { CountGrows }
    ensures keys { KeysFollow }
{}

/// A file that has its first record alone reads as the empty state, and has no keys.
pub fn empty_is_read()
    ensures { EmptyIsRead }
{}

/// With one more record that the file itself needs, as a key list, a free record or a basket, and at
/// whose place no record began, a file reads as the same state, has the same keys, and keeps what it
/// kept, whatever rows are pending.
pub fn internal_stays()
    ensures state { InternalStays }
    ensures keys { KeysStay }
    ensures need { NeedStays }
{}

/// What `close_length` returns, with the records of the saves that are due, is what a close needs, where a
/// file keeps records of this name, heads of so many bytes, and so many records and open baskets.
pub fn close_length_is_need()
    ensures { CloseSizeIsNeed }
{}

/// A record that is released is one less among the records of the file, and without another one the
/// first record stays the first.
pub fn record_less()
    ensures less { RecordLess }
    ensures first { FirstIsKept }
{}

/// Without a record that nothing refers to a file reads as the same state, has the same keys, and
/// keeps what it kept. Something refers to the same records, so without the first of those that
/// nothing refers to the others are left.
pub fn garbage_goes()
    ensures same { GarbageGoes }
    ensures others { OthersAreReferred }
    ensures left { GarbageIsLeft }
{}

/// Without the header of a tree, where it is the last one of its name, a file reads as the state without the tree,
/// and nothing refers to the baskets that the header named.
pub fn tree_goes()
    ensures { TreeGoes }
{}

/// Without a record that is neither the first, nor that of the class list that counts, nor a tree's, a close
/// needs no more, and neither END with that nor what the file holds rises.
pub fn need_falls()
    ensures { NeedFalls }
{}

/// A file that reads as a state holds at most three times its length, and 10,000, where the data of its trees' headers are
/// bytes. So they are in a file of bytes.
pub fn held_is_limited()
    ensures held { HeldIsLimited }
    ensures headers { HeadersAreBytes }
{}
