//! Laws of runs.
ghost use Rattle.rootio.specs.Beginnings.{BeginningsExist};
ghost use Rattle.rootio.specs.GeneratedRuns.{GeneratedFilesAreWhole};
ghost use Rattle.rootio.specs.InARow.{CallsInARow};
ghost use Rattle.rootio.specs.Listings.{ClosedFilesList};
ghost use Rattle.rootio.specs.Summaries.{ClosedFilesSumUp};

/// Each file that isn't made yet or reads as a state has records with which a run begins, and a listing
/// of their keys. So what is said of a run that begins with such records is said of each of these files.
pub fn beginnings_exist()
    ensures { BeginningsExist }
{}

/// After any list of runs and recoveries on one file, each cut off at some moment or ended, and each begun
/// on an image that the one before it left, the file decodes to the state to which their prefixes lead, one
/// after the other.
pub fn calls_in_a_row()
    ensures { CallsInARow }
{}

/// A closed file lists as the keys of the records that it had before its close. So what a recovery prints is
/// what `ls` prints of the file that it leaves.
pub fn closed_files_list()
    ensures { ClosedFilesList }
{}

/// Nothing but want of room refuses a command of a generated file, and a file that isn't made yet has room for all of
/// them. The close saves all rows.
pub fn generated_files_are_whole()
    ensures { GeneratedFilesAreWhole }
{}

/// A closed file breaks no rule, and its summary of a tree is that of the records that it had before its close: the baskets
/// that the tree's header names, and the sum of the rows that the state has of it.
pub fn closed_files_sum_up()
    ensures { ClosedFilesSumUp }
{}
