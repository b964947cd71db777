//! Laws of what a session's commands do to its file.
ghost use Rattle.rio_session.specs.FileSteps.{StepsFollowFiles};

use rio_effect::headers_have_records;

/// The state, the reply and the segments after each command that is built follow from the records of the
/// file, and so does each mark, as they follow from what a session keeps beside it.
pub fn steps_follow_files()
    ensures { StepsFollowFiles }
{
    headers_have_records();
}
