//! Why a step is refused.
ghost use Rattle.std.specs.Prelude.{◌≡◌};
ghost use Rattle.rio_queue.specs.Refusals.{refusal_name, refusal_number, refusal_of_number};

/// Why a step is refused. A refused step changes nothing. Where several hold, the first of them in this order is reported.
/// Their numbers go on after those of commands.
#[derive(Clone, Copy, Debug)]
pub enum StepRefusal {
    /// There is no filler of this number: the fillers are numbered from 0.
    NoSuchFiller,
    /// The queue holds as many units as it may.
    QueueFull,
    /// The queue holds no unit.
    QueueEmpty,
    /// The open unit has no rows.
    EmptyUnit,
    /// The open unit has 10,000 rows.
    UnitTooLong,
}

impl StepRefusal {
    /// The number by which it is reported.
    pub fn number(&self) -> u8
        ensures { result ≡ refusal_number self.now }
    {
        match self {
            StepRefusal::NoSuchFiller => 22,
            StepRefusal::QueueFull => 23,
            StepRefusal::QueueEmpty => 24,
            StepRefusal::EmptyUnit => 25,
            StepRefusal::UnitTooLong => 26,
        }
    }

    /// The name by which it is reported.
    pub fn name(&self) -> &'static [u8]
        ensures { result.now ≡ refusal_name self.now }
    {
        match self {
            StepRefusal::NoSuchFiller => b"NoSuchFiller",
            StepRefusal::QueueFull => b"QueueFull",
            StepRefusal::QueueEmpty => b"QueueEmpty",
            StepRefusal::EmptyUnit => b"EmptyUnit",
            StepRefusal::UnitTooLong => b"UnitTooLong",
        }
    }

    /// The refusal of a number, as [`StepReply::Refused`](crate::StepReply) has it.
    pub fn of_number(number: u8) -> Option<StepRefusal>
        ensures { result ≡ refusal_of_number number }
    {
        match number {
            22 => Some(StepRefusal::NoSuchFiller),
            23 => Some(StepRefusal::QueueFull),
            24 => Some(StepRefusal::QueueEmpty),
            25 => Some(StepRefusal::EmptyUnit),
            26 => Some(StepRefusal::UnitTooLong),
            _ => None,
        }
    }
}
