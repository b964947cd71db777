//! Laws of what is recovered.
ghost use Rattle.rio_recover.specs.Cleaning.{GarbageIsCleaned};

/// Without its garbage a file decodes to the same state, with the same keys, class list and name, and
/// it needs no more for a close.
pub fn garbage_is_cleaned()
    ensures { GarbageIsCleaned }
{}
