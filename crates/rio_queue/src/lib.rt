//! The rows of several fillers of one tree, in units.
//!
//! Each filler adds rows to its open unit and hands the unit over to a queue; a committer takes the units out of the queue,
//! the oldest first. A [`Core`] does one [`Step`] after the other, each an action of one filler or of the committer, and
//! returns a [`StepReply`]. It keeps the queue and the open units, and none of the steps. No thread and no file is in it.
//!
//! `specs/Steps.antt` has what one step does to the queue and the open units, and `specs/Refusals.antt` the numbers and
//! names of [`StepRefusal`]. `specs/Histories.antt` has what a list of steps handed over and took, and the laws that a
//! filler's units, joined, are the rows that it added, and that units are taken in the order in which they were handed
//! over, whole, each once. `specs/Logs.antt` says the same of a log, which is a list of steps with their replies.
#![tactic(auto)]

mod fillers;
mod laws;
mod refusal;
mod steps;

pub use fillers::{Core, UNIT_LIMIT};
pub use laws::{
    history_is_logged, log_grows, numbers_suffice, replies_by_log, taken_in_order, units_keep_rows,
};
pub use refusal::StepRefusal;
pub use steps::{Step, StepLine, StepLines, StepReply, Unit};
