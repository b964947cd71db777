//! A law of new files.
ghost use Rattle.rio_create.specs.NewFile.{NewFilesAreRead};

/// Bytes that begin with those of a new file have one segment and an open header, and stand for the
/// empty state. The record of the directory stands behind the first record's key and texts, with
/// zeros where a close writes.
pub fn new_file_is_read()
    ensures { NewFilesAreRead }
{}
