//! Laws of closing.
ghost use Rattle.rio_close.specs.EndWord.{ChainIgnoresEnd, HeadSaysEnd, MarkKeepsState, MarkOpensFile, StateIgnoresEnd};
ghost use Rattle.rio_close.specs.Leaving.{DirectoryInFront};

/// In an open file the record of the directory stands in front of the end.
pub fn directory_in_front()
    ensures { DirectoryInFront }
{}

/// A file whose header says another END is read as before but for that: it has the same segments,
/// and reads as the same state.
pub fn end_is_ignored()
    ensures head { HeadSaysEnd }
    ensures chain { ChainIgnoresEnd }
    ensures state { StateIgnoresEnd }
{}

/// Where the END that marks a file as open is written, or not yet, the file reads as the same
/// state, and by its key list where it isn't marked as open.
pub fn mark_keeps_state()
    ensures opens { MarkOpensFile }
    ensures state { MarkKeepsState }
{}
