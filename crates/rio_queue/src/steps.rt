//! Steps, the units that they hand over, and replies.
use rio_format::{Rows, Values};
use rio_num::Items;

/// One action of one filler or of the committer. Fillers are numbered from 0.
#[derive(Drop)]
pub enum Step {
    /// The filler adds a row to its open unit.
    Add { filler: u32, row: Values },
    /// The filler hands its open unit over to the queue.
    Hand { filler: u32 },
    /// The committer takes the oldest unit out of the queue.
    Take,
}

/// A line of an input of steps.
#[derive(Drop)]
pub enum StepLine {
    /// The line is no step. Lines are counted from 1, and places in them, in bytes, from 0.
    Bad { line: u32, place: u32 },
    /// The line is this step.
    Good(Step),
}

/// The lines of an input, in order.
pub type StepLines = Items<StepLine>;

/// The rows that a filler handed over at once, in the order in which it added them. The units of a filler are numbered
/// from 0.
#[derive(Drop)]
pub struct Unit {
    pub filler: u32,
    pub number: u32,
    pub rows: Rows,
}

/// The reply to a step.
#[derive(Drop)]
pub enum StepReply {
    /// The row was added; its unit has so many rows now.
    Added { rows: u32 },
    /// The unit was handed over, under this number among those of its filler.
    Handed { unit: u32 },
    /// The unit that was taken.
    Taken(Unit),
    /// The step was refused, with the number of a [`StepRefusal`](crate::StepRefusal). Nothing was changed.
    Refused { number: u8 },
}
