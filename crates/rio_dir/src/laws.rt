//! Laws of closed files, each the contract of a function that does nothing.
ghost use Rattle.rio_dir.specs.Grammar.{IsListedOnce, ClosedIsSpelled, SpelledIsClosed};
ghost use Rattle.rio_dir.specs.Table.{WrittenKeysAreSpelled};
ghost use Rattle.rio_dir.specs.TableMap.{GreatestIsFound, PutInIsFound, TakenOutIsGone};

/// What is read of a closed file is spelled there, by the grammar of each part, and what is spelled
/// there is read.
pub fn closed_file_is_spelled()
    ensures found { ClosedIsSpelled }
    ensures only { SpelledIsClosed }
{}

/// The bytes of a file determine its listing.
pub fn one_listing()
    ensures { IsListedOnce }
{}

/// What is written of a key list spells its heads, where each fits what is written of it and its record holds it. So such
/// a list is read as it was written.
pub fn written_key_list_is_spelled()
    ensures { WrittenKeysAreSpelled }
{}

/// The key table is a map from name and cycle: a key that was put in is found by them, one that was taken out isn't, and each
/// other one is found as before. Without a cycle the key of the name's greatest cycle is found.
pub fn key_table_is_a_map()
    ensures put { PutInIsFound }
    ensures taken { TakenOutIsGone }
    ensures greatest { GreatestIsFound }
{}
