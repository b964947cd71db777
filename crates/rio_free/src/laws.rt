//! Laws of the free record: how it is read, spelled and broken, and that it is read as it was written.
ghost use Rattle.std.specs.Prelude.{ℕ, List};
ghost use Rattle.rio_free.specs.Laws.{EntriesAgree, WrittenIsEntries, WrittenIsGaps};

/// The data of a free record are read as the entries that they spell, and where they break with a fault, reading gives
/// that fault; and the other way round.
pub fn free_record_agrees()
    ensures { (bytes : List ℕ) → EntriesAgree bytes }
{}

/// What `write_free` writes is read as an entry for each gap and one from the end of the file on, and so as the gaps.
pub fn written_free_record_is_read()
    ensures entries { WrittenIsEntries }
    ensures gaps { WrittenIsGaps }
{}
