//! Laws of a record more, or less, in the chain of a file.
ghost use Rattle.rio_step.specs.Runs.{saved_of};
ghost use Rattle.rio_effect.specs.AllItems.{ItemsStayWith, ItemsStayWithout};
ghost use Rattle.rio_effect.specs.BasketRuns.{BasketIsPut, BasketsArePut, BasketsKeepAll};
ghost use Rattle.rio_effect.specs.Batches.{BatchHeldGrows, BatchKeysFollow, BatchTakesEffect, BatchesHaveRecords, BatchesIgnorePending, SavedBatchKeysFollow, SavedBatchTakesEffect};
ghost use Rattle.rio_effect.specs.Classes.{ClassHeldGrows, ClassTakesEffect, ClassesHaveRecords, ClassesIgnorePending, StatesAreDescribed};
ghost use Rattle.rio_effect.specs.Deletes.{DeleteKeepsLess, DeleteKeyFollows, DeleteLeavesOthers, DeleteNeedsNoMore, DeleteTakesEffect, DeletesCostNothing, DeletesFindRecords, DeletesHaveRecords, DeletesIgnorePending};
ghost use Rattle.rio_effect.specs.FileRuns.{RunsHaveParts, SegmentsFollow};
ghost use Rattle.rio_effect.specs.FillNeeds.{FillHeldGrows, FillKeepsBaskets, FillSavesNothing};
ghost use Rattle.rio_effect.specs.Garbage.{GarbageIsReleased, PendingByNames, ReleasesKeepAll};
ghost use Rattle.rio_effect.specs.HeaderRecords.{HeadersHaveRecords};
ghost use Rattle.rio_effect.specs.Headers.{HeaderTakesEffect, OutdatedHeaderGoes};
ghost use Rattle.rio_effect.specs.NextHeaders.{LaterHeaderReplaces};
ghost use Rattle.rio_effect.specs.NewHeaders.{NewHeaderHeldGrows, NewHeaderKeepsMore, NewHeaderKeyFollows};
ghost use Rattle.rio_effect.specs.PutBaskets.{BasketsHaveRecords, PendingRowsAreRead, PutBasketIsRead};
ghost use Rattle.rio_effect.specs.SavedRows.{SavedRowsAreRead};
ghost use Rattle.rio_effect.specs.Saves.{SaveChanges, SaveEnds, SaveTakesEffect};
ghost use Rattle.rio_effect.specs.Laws.{FrontTells, HeldGrows, KeysHaveRecords, KeysNameObjects, KeysStandForState, KeysTellNextCycle, NeedByKeys, NeedGrows, NeedOfState, ObjectKeysStand, PutKeyFollows, PutTakesEffect, PutsHaveRecords, PutsIgnorePending, SavedPutKeyFollows, SavedPutTakesEffect};
ghost use Rattle.rio_effect.specs.TreeDeletes.{BasketsAreGarbage, DeletesHaveHeaders, TreeDeleteChanges, TreeDeleteForgetsRows, TreeDeleteKeepsLess, TreeDeleteKeyFollows, TreeDeleteNeedsNoMore, TreeDeleteTakesEffect};
ghost use Rattle.rio_effect.specs.TreeMade.{FirstListIsPut, PendingRowsFit, TreeEnds, TreeTakesEffect};

use rio_tree::{written_tree_fits, written_tree_is_read};

/// A put that isn't refused has a whole record, whose key is that of an object. With it a file
/// reads as the state behind the put, with all pending rows or without them, at which a put
/// doesn't look.
pub fn put_takes_effect()
    ensures puts { PutsHaveRecords }
    ensures all { PutTakesEffect }
    ensures saved { SavedPutTakesEffect }
    ensures pending { PutsIgnorePending }
{}

/// A batch that isn't refused has whole records, one after the other, each with the key of an
/// object. With all of them a file reads as the state behind the batch, with all pending rows or
/// without them, at which a batch doesn't look. The keys that are kept beside the file follow, and
/// the file holds no more than by the batch's cost.
pub fn batch_takes_effect()
    ensures records { BatchesHaveRecords }
    ensures all { BatchTakesEffect }
    ensures saved { SavedBatchTakesEffect }
    ensures pending { BatchesIgnorePending }
    ensures keys { BatchKeysFollow }
    ensures saved_keys { SavedBatchKeysFollow }
    ensures held { BatchHeldGrows }
{}

/// The keys that are kept beside a file follow a put: the key of its object stands in its place
/// among them.
pub fn keys_follow()
    ensures put { PutKeyFollows }
    ensures saved_put { SavedPutKeyFollows }
{}

/// The keys that are kept beside a file tell the next cycle of a name.
pub fn keys_tell_next_cycle()
    ensures { KeysTellNextCycle }
{}

/// The keys of objects that are kept beside a file stand for the objects of the state that it reads
/// as; without trees all keys do. The record of each object is found by its key and read back as the object.
pub fn keys_stand_for_state()
    ensures stand { KeysStandForState }
    ensures objects { ObjectKeysStand }
    ensures named { KeysNameObjects }
    ensures records { KeysHaveRecords }
{}

/// One object more is one more key and one more record of which a close writes. The keys that are
/// kept beside a file tell what its close needs, and so do the state's objects. The record of a
/// put's object raises what a file holds by no more than the put's cost.
pub fn need_grows()
    ensures grows { NeedGrows }
    ensures keys { NeedByKeys }
    ensures state { NeedOfState }
    ensures held { HeldGrows }
{}

/// A file that keeps its first 100 bytes keeps its header, and reads as the state that the
/// records of its segments stand for.
pub fn front_tells()
    ensures { FrontTells }
{}

/// The marks and records of a run are those of its first command and of the others. A change
/// makes of the segments what the length of the record that it adds does, or the place of the
/// record that it releases.
pub fn runs_are_told()
    ensures parts { RunsHaveParts }
    ensures segments { SegmentsFollow }
{}

/// The object of a delete that isn't refused has a record, which is found by its key. With it
/// released the file reads as the state behind the delete, with all pending rows or without them,
/// at which a delete doesn't look. The record that a run on the file releases is the one of the
/// key.
pub fn delete_takes_effect()
    ensures records { DeletesHaveRecords }
    ensures all { DeleteTakesEffect (λ m. m) }
    ensures saved { DeleteTakesEffect saved_of }
    ensures pending { DeletesIgnorePending }
    ensures found { DeletesFindRecords }
{}

/// With the record of a tree's header a file reads as the state with the tree, which has the rows
/// that the header represents: they are those of the header before it, and behind them those that
/// were pending, where it names their baskets behind its own. Nothing refers to the header before.
pub fn header_takes_effect()
    ensures effect { HeaderTakesEffect }
    ensures rows { SavedRowsAreRead }
    ensures outdated { OutdatedHeaderGoes }
{}

/// The record that is written for the header of a tree is a whole one, and is read as the header,
/// whatever classes are declared.
pub fn headers_have_records()
    ensures { HeadersHaveRecords }
{
    written_tree_fits();
    written_tree_is_read();
}

/// A basket's record is a whole one. Put at a place where no record begins it is there, as a header
/// names it, and is read as its entries; and a row that a state can hold is read of the entries that
/// are written for it.
pub fn baskets_are_read()
    ensures records { BasketsHaveRecords }
    ensures entries { PutBasketIsRead }
    ensures rows { PendingRowsAreRead }
{}

/// Of the keys that are kept beside a file that of a deleted object is taken out, and all other
/// objects stay. The next cycle of its name follows the greatest that is left.
pub fn delete_leaves_others()
    ensures keys { DeleteKeyFollows }
    ensures objects { DeleteLeavesOthers }
{}

/// Without the record of an object a file keeps one key less. A close needs no more, and the file
/// holds no more; a delete costs nothing.
pub fn delete_needs_no_more()
    ensures kept { DeleteKeepsLess }
    ensures need { DeleteNeedsNoMore }
    ensures cost { DeletesCostNothing }
{}

/// A class command that isn't refused writes a whole record, which is a class list. With it a
/// file reads as the state after the command and the new list counts. Where the record stands at
/// the place of the rule, or at END, nothing refers to the list that counted before, and what the
/// file holds rises by no more than the command's cost. A class command doesn't look at pending
/// rows, and a class list describes the classes of a state as they are.
pub fn class_takes_effect()
    ensures records { ClassesHaveRecords }
    ensures effect { ClassTakesEffect }
    ensures held { ClassHeldGrows }
    ensures pending { ClassesIgnorePending }
    ensures described { StatesAreDescribed }
{}

/// The tree of a delete that isn't refused has a header, where no header is outdated. Without its
/// record a file reads as the state without the tree, all pending rows or none, and still no header
/// is outdated. The tree's key is taken out of those that are kept beside the file, and nothing
/// refers to the tree's baskets. The command releases the header and then these, in order of place.
pub fn tree_delete_takes_effect()
    ensures records { DeletesHaveHeaders }
    ensures changes { TreeDeleteChanges }
    ensures all { TreeDeleteTakesEffect (λ m. m) }
    ensures saved { TreeDeleteTakesEffect saved_of }
    ensures keys { TreeDeleteKeyFollows }
    ensures garbage { BasketsAreGarbage }
{}

/// Without the header of a tree a file keeps a tree less, and neither the tree's baskets nor its
/// pending rows. A close needs no more, and the file holds no more.
pub fn tree_delete_needs_no_more()
    ensures kept { TreeDeleteKeepsLess }
    ensures need { TreeDeleteNeedsNoMore }
    ensures rows { TreeDeleteForgetsRows }
{}

/// Without a record that nothing refers to, and so without several, a file stands for the same, and
/// a close needs no more. What a file keeps looks at the pending rows of its trees alone.
pub fn garbage_is_released()
    ensures one { GarbageIsReleased }
    ensures all { ReleasesKeepAll }
    ensures pending { PendingByNames }
{}

/// Where no header of a tree is outdated none is without a record, and none with one more that is no
/// header, or one under a new name.
pub fn items_stay()
    ensures without { ItemsStayWithout }
    ensures with_one { ItemsStayWith }
{}

/// The header of a new tree: its key stands in its place among the keys that are kept beside a file,
/// and the file keeps one tree more. It holds no more than the command costs.
pub fn new_header_counts()
    ensures keys { NewHeaderKeyFollows }
    ensures kept { NewHeaderKeepsMore }
    ensures held { NewHeaderHeldGrows }
{}

/// The baskets that a fill and a save put, one after the other: a file stands for the same after each
/// of them. When all are put they are there, as the next header names them, and nothing refers to them
/// yet; the file holds no more than they are long.
pub fn baskets_are_put()
    ensures one { BasketIsPut }
    ensures keep { BasketsKeepAll }
    ensures all { BasketsArePut }
{}

/// With the baskets that a fill puts, and its row pending, a file keeps as many records more as there
/// are of these, and holds no more than the fill costs. But for the pending rows it stands for the
/// same.
pub fn fill_keeps_baskets()
    ensures kept { FillKeepsBaskets }
    ensures held { FillHeldGrows }
    ensures saved { FillSavesNothing }
{}

/// A header of a tree in a later cycle stands in place of the one before among the keys that are kept
/// beside a file, as soon as it is put. When the one before is released no header is outdated, and of
/// the rest what the file keeps stays.
pub fn later_header_replaces()
    ensures { LaterHeaderReplaces }
{}

/// A save puts the open baskets and the next header, and releases the header before. Until the header
/// is put a file stands for the state before, and from then on for that after the save. At the end the
/// open baskets are kept more, and the file holds no more than the save costs.
pub fn save_takes_effect()
    ensures changes { SaveChanges }
    ensures effect { SaveTakesEffect }
    ensures ends { SaveEnds }
{}

/// A tree puts the class list, where the file has none, and its header. Until the header is put a file
/// stands for the state before, and then for that with the tree. At the end each of these records is
/// kept more, and the file holds no more than the tree costs.
pub fn tree_takes_effect()
    ensures list { FirstListIsPut }
    ensures fit { PendingRowsFit }
    ensures effect { TreeTakesEffect }
    ensures ends { TreeEnds }
{}
