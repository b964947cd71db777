//! How much may be made of zeros.
use rio_num::NoMemory;
use std::alloc::Global;

// A class list can state an array of 2,000,000,000 numbers, or classes each with two members of the next, in a few bytes. So
// the zeros of one call have no more values than this, and no more objects within one another.
const MOST_VALUES: u32 = 1_000_000;

const MOST_LEVELS: u32 = 4_096;

/// The memory of one call, and how much of it zeros may still take.
#[derive(Drop)]
pub(crate) struct Memory {
    pub(crate) alloc: Global,
    values: u32,
    levels: u32,
}

impl Memory {
    /// What one call may take.
    pub(crate) fn new(alloc: Global) -> Memory {
        Memory {
            alloc,
            values: MOST_VALUES,
            levels: MOST_LEVELS,
        }
    }

    /// Takes so many values.
    pub(crate) fn take(&mut self, count: u32) -> Result<(), NoMemory> {
        match self.values.checked_sub(count) {
            Some(left) => {
                self.values = left;
                Ok(())
            }
            None => Err(NoMemory),
        }
    }

    /// Goes one level down, into an object.
    pub(crate) fn enter(&mut self) -> Result<(), NoMemory> {
        match self.levels.checked_sub(1) {
            Some(left) => {
                self.levels = left;
                Ok(())
            }
            None => Err(NoMemory),
        }
    }

    /// Goes one level up again.
    pub(crate) fn leave(&mut self) {
        self.levels = self.levels.saturating_add(1);
    }
}
