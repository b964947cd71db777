//! Laws of entries.
ghost use Rattle.rio_entry.specs.Growth.{EntryStays, FittingRowStays, SpelledEntryStays};
ghost use Rattle.rio_entry.specs.Laws.{EntriesHaveOneAnswer, EntryIsPartOfRow, WrittenEntriesAreRead};
ghost use Rattle.rio_entry.specs.Rows.{BrokenRowsHaveABranch, WrittenRowsAreRead};
ghost use Rattle.rio_entry.specs.SavedRows.{ReadHeadsAreInOrder};

/// The bytes of an entry spell values or break at a place, never both, and in one way.
pub fn entries_have_one_answer()
    ensures { EntriesHaveOneAnswer }
{}

/// What is written for a row spells it, and is read as it, if its objects aren't too deep and their versions can be
/// written.
pub fn written_entries_are_read()
    ensures { WrittenEntriesAreRead }
{}

/// With the counts of a tree's earlier branches, the entry of one branch is a part of the tree's row: it fits exactly where
/// that part fits, and has its bytes.
pub fn entry_is_part_of_row()
    ensures { EntryIsPartOfRow }
{}

/// What is written for a row that fits the branches of a tree is read as the row, if no entry is too long and its objects
/// can be read back.
pub fn written_rows_are_read()
    ensures { WrittenRowsAreRead }
{}

/// A row is read exactly where no branch breaks.
pub fn broken_rows_have_a_branch()
    ensures { BrokenRowsHaveABranch }
{}

/// What is read of an entry, if no object in it is opaque, is the same wherever the same classes are picked. So with one
/// class more a row that fits its branches is read as it was.
pub fn rows_stay_read()
    ensures entry { EntryStays }
    ensures spelled { SpelledEntryStays }
    ensures row { FittingRowStays }
{}

/// Where a header that is read doesn't refuse a branch, this has the tree's entries and its baskets stand in order.
pub fn read_heads_are_in_order()
    ensures { ReadHeadsAreInOrder }
{}
