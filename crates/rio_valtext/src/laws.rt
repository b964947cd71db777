//! What a file stores is read from its text.
ghost use Rattle.rio_valtext.specs.Stored.{StatedHasNames, StoredIsRead, StoredIsReadable};

/// The text of a value that fits a class, and goes at most 256 objects deep, says everything of it and is read as the
/// value, wherever it stands. That holds where the classes of the list and their members have names that a text can
/// state, and versions from 1 to 32767. Classes that a declaration can give have these.
pub fn stored_values_are_read()
    ensures readable { StoredIsReadable }
    ensures read { StoredIsRead }
    ensures stated { StatedHasNames }
{}
