//! A law of scans.
ghost use Rattle.rio_reply.specs.Scanned.{ScansAreLines};

/// What is said of a scan is its first line and the lines of its rows, numbered from 0, one after the other.
pub fn scans_are_lines()
    ensures { ScansAreLines }
{}
