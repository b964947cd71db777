//! The open units of fillers, and the queue.
ghost use Rattle.std.specs.Prelude.{◌≡◌, ◌<◌, ◌^◌, length, slice_get, slice_index_or, slice_set, Some, None, replicate, IfOk, OnOk, OnErr};
ghost use Rattle.rio_queue.specs.Refusals.{refusal_number};
ghost use Rattle.rio_queue.specs.Steps.{empty_unit, unit_after_hand, unit_of, with_row};

use crate::{Step, StepRefusal, StepReply, Unit};
use rio_format::{Rows, Values};
use rio_num::NoMemory;
use std::alloc::Global;
use std::collections::VecDeque;
use std::marker::Model;
use std::mem;

/// How many rows a unit holds at most.
pub const UNIT_LIMIT: usize = 10_000;

/// What a filler has: the rows that it added since it last handed a unit over, and how many units it handed over.
#[derive(Drop)]
pub(crate) struct OpenUnit {
    rows: Rows,
    handed: u64,
}

/// The open units of some fillers, and the queue of the units that they handed over and that weren't taken yet.
#[derive(Drop)]
pub struct Core {
    alloc: Global,
    cap: u32,
    queue: VecDeque<Unit>,
    fillers: Vec<OpenUnit>,
}

impl Model for Core {
    ghost use Rattle.std.specs.Coded.{codes};
    ghost use Rattle.rio_format.specs.contracts.value.Value as values;
    ghost use Rattle.rio_queue.specs.Steps.{CoreState};

    ghost Value = { CoreState };

    ghost coded = { Prim.hlevel (codes, values.the_row.coded) };

    ghost view = { λ core. record {
      cap = core.cap;
      queue = core.queue.items;
      fillers = core.fillers.items;
    } };
}

fn refused(refusal: StepRefusal) -> StepReply
    ensures { result ≡ StepReply.Refused (refusal_number refusal) }
{
    StepReply::Refused {
        number: refusal.number(),
    }
}

// Adds a row to an open unit.
fn push_row(fillers: &mut [OpenUnit], at: usize, row: Values) -> Result<(), NoMemory>
    requires { at < length fillers.old }
    ensures ok { OnOk result ((o : OpenUnit) → fillers.new
        ≡ slice_set fillers.old at (with_row row (slice_index_or fillers.old at o))) }
    ensures err { OnErr result (fillers.new ≡ fillers.old) }
{
    fillers[at].rows.push(row)?;
    Ok(())
}

// Takes the rows of an open unit out, as the next unit of its filler.
fn close_unit(alloc: Global, fillers: &mut [OpenUnit], filler: u32) -> Unit
    requires there { filler < length fillers.old }
    requires few { (o : OpenUnit) → (slice_index_or fillers.old filler o).handed < 2 ^ 32 }
    ensures unit { (o : OpenUnit) → result ≡ unit_of filler (slice_index_or fillers.old filler o) }
    ensures rest { (o : OpenUnit) → fillers.new
        ≡ slice_set fillers.old filler (unit_after_hand (slice_index_or fillers.old filler o)) }
{
    let open = &mut fillers[filler as usize];
    let number = open.handed as u32;
    open.handed += 1;
    let rows = mem::replace(&mut open.rows, Rows::new(alloc));
    Unit {
        filler,
        number,
        rows,
    }
}

// So many units without rows.
fn open_units(alloc: Global, fillers: u32) -> Result<Vec<OpenUnit>, NoMemory>
    ensures { IfOk result (λ units. units.items ≡ replicate fillers empty_unit) }
{
    let mut units = Vec::new(alloc);
    for _ in 0..fillers {
        units.push(OpenUnit {
            rows: Rows::new(alloc),
            handed: 0,
        })?;
    }
    Ok(units)
}

impl Core {
    ghost use Rattle.std.specs.Prelude.{◌≡◌, ℕ, List, [], ◌∷◌, ◌++◌, IfOk, OnErr};
    ghost use Rattle.rio_queue.specs.Histories.{IsAfter, reply_after};
    ghost use Rattle.rio_queue.specs.Steps.{CanStep, IsStep};
    ghost use Rattle.rio_queue.specs.declared.steps.Step.{Step as Action};

    /// So many fillers without rows, and an empty queue of at most `cap` units.
    pub fn new(alloc: Global, fillers: u32, cap: u32) -> Result<Core, NoMemory>
        ensures cap { IfOk result (λ core. core.cap ≡ cap) }
        ensures after { IfOk result (λ core. IsAfter fillers [] core) }
    {
        Ok(Core {
            alloc,
            cap,
            queue: VecDeque::new(alloc),
            fillers: open_units(alloc, fillers)?,
        })
    }

    fn add(&mut self, filler: u32, row: Values) -> Result<StepReply, NoMemory>
        ensures exact { IfOk result (λ reply. IsStep self.old (Action.Add filler row) reply self.new) }
        ensures err { OnErr result (self.new ≡ self.old) }
    {
        let at = filler as usize;
        let rows = match self.fillers.get(at) {
            Some(open) => open.rows.len(),
            None => return Ok(refused(StepRefusal::NoSuchFiller)),
        };
        if rows >= UNIT_LIMIT {
            return Ok(refused(StepRefusal::UnitTooLong));
        }
        push_row(&mut self.fillers, at, row)?;
        Ok(StepReply::Added {
            rows: rows as u32 + 1,
        })
    }

    fn hand(&mut self, filler: u32) -> Result<StepReply, NoMemory>
        requires { CanStep self.old (Action.Hand filler) }
        ensures exact { IfOk result (λ reply. IsStep self.old (Action.Hand filler) reply self.new) }
        ensures err { OnErr result (self.new ≡ self.old) }
    {
        let rows = match self.fillers.get(filler as usize) {
            Some(open) => open.rows.len(),
            None => return Ok(refused(StepRefusal::NoSuchFiller)),
        };
        if self.queue.len() >= self.cap as usize {
            return Ok(refused(StepRefusal::QueueFull));
        }
        if rows == 0 {
            return Ok(refused(StepRefusal::EmptyUnit));
        }
        self.queue.reserve(1)?;
        let unit = close_unit(self.alloc, &mut self.fillers, filler);
        let number = unit.number;
        self.queue.push_back_reserved(unit);
        Ok(StepReply::Handed { unit: number })
    }

    fn take(&mut self) -> StepReply
        ensures { IsStep self.old Action.Take result self.new }
    {
        match self.queue.pop_front() {
            Some(unit) => StepReply::Taken(unit),
            None => refused(StepRefusal::QueueEmpty),
        }
    }

    fn do_step(&mut self, step: Step) -> Result<StepReply, NoMemory>
        requires { CanStep self.old step }
        ensures exact { IfOk result (λ reply. IsStep self.old step reply self.new) }
        ensures err { OnErr result (self.new ≡ self.old) }
    {
        match step {
            Step::Add { filler, row } => self.add(filler, row),
            Step::Hand { filler } => self.hand(filler),
            Step::Take => Ok(self.take()),
        }
    }

    /// Does a step. A refused one changes nothing, and neither does one that finds no memory; the row of an Add is dropped
    /// then. Whatever the steps before it were, the reply is that of their history, and the queue and the open units are
    /// those of the history with this step. A filler that hands a unit over must have handed fewer than 2^32 before.
    pub fn step(&mut self, step: Step) -> Result<StepReply, NoMemory>
        requires { CanStep self.old step }
        ensures exact { IfOk result (λ reply. IsStep self.old step reply self.new) }
        ensures history { IfOk result (λ reply. (fillers : ℕ) (steps : List Action)
            → IsAfter fillers steps self.old
            → (reply ≡ reply_after self.old.cap fillers steps step)
            × IsAfter fillers (steps ++ step ∷ []) self.new) }
        ensures cap { self.new.cap ≡ self.old.cap }
        ensures err { OnErr result (self.new ≡ self.old) }
    {
        self.do_step(step)
    }
}
