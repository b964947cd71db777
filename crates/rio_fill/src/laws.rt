//! Laws of what is pending.
ghost use Rattle.rio_fill.specs.Laws.{CutHoldsAll, EntryKeepsCut, FlagsNameBaskets, FreshIsCut, OpenBasketStaysSmall, OpenFlagsNameBaskets, RowMayBeAdded, SaveListsBaskets};

/// The entries of a branch that are pending stay divided by the rule with each row, and no entry is lost. A save lists the
/// baskets that the branch had, and behind them those of the pending entries.
pub fn rows_are_cut()
    ensures fresh { FreshIsCut }
    ensures one_more { EntryKeepsCut }
    ensures saves { SaveListsBaskets }
    ensures all { CutHoldsAll }
{}

/// The flag of a branch is set exactly where its open basket is put before the row is added; of those of a save, exactly where
/// its open basket has entries.
pub fn flags_name_baskets()
    ensures of_row { FlagsNameBaskets }
    ensures of_save { OpenFlagsNameBaskets }
{}

/// A row for which room was made may be added once the full baskets were put.
pub fn prepared_rows_may_be_added()
    ensures { RowMayBeAdded }
{}

/// An open basket has at most 8,192 entries, and at most 16,777,216 bytes.
pub fn open_baskets_stay_small()
    ensures { OpenBasketStaysSmall }
{}
