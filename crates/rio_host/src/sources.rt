//! Inputs in memory.
ghost use Rattle.std.specs.Prelude.{◌≡◌, ◌≤◌, ◌<◌, Some, length, IfOk, IsOk, OnErr, IsErr};
ghost use Rattle.rio_host.specs.Failing.{FailsByNumber};
ghost use Rattle.rio_host.specs.Host.{Becomes, Rose};
ghost use Rattle.rio_host.specs.Source.{Fills};
ghost use Rattle.rio_host.specs.SourceTold.{told_input};

use crate::count::{is_next_failing, raised};
use crate::rest::Rest;
use crate::{Failed, Source};
use rio_num::{Bytes, Numbers};

/// Bytes as an input, of which some reads fail.
#[derive(Debug, Drop)]
pub struct MemSource {
    rest: Rest,
    failing: Numbers,
    made: u64,
    faults: u64,
}

impl MemSource {
    ghost use Rattle.rio_host.specs.Sources.{input_of, read_tally};

    /// An input of these bytes. The numbers are those of the reads that fail, counted from 0.
    pub fn new(bytes: Bytes, failing: Numbers) -> MemSource
        ensures input { input_of result ≡ record { remaining = Some bytes.bytes; faults = 0 } }
        ensures counts { read_tally result ≡ record { made = 0; failing = failing; shortages = 0 } }
    {
        MemSource {
            rest: Rest::new(bytes),
            failing,
            made: 0,
            faults: 0,
        }
    }
}

impl Source for MemSource {
    ghost use Rattle.rio_host.specs.Sources.{input_of, read_tally};

    ghost view = { λ s. told_input s.rest s.faults };

    fn read(&mut self, into: &mut [u8]) -> Result<usize, Failed>
        ensures length { IfOk result (λ n. n ≤ length into.old) }
        ensures gives { IfOk result
            (λ n. Becomes (Fills n into.new)
            (input_of self.old).remaining (input_of self.new).remaining) }
        ensures failed { OnErr result
            ((input_of self.new).remaining ≡ (input_of self.old).remaining) }
        ensures faults { (input_of self.old).faults ≤ (input_of self.new).faults }
        ensures counted { IsOk result → (input_of self.new).faults ≡ (input_of self.old).faults }
        ensures cause { IsErr result → Rose (input_of self.old).faults (input_of self.new).faults }

        ensures fails { FailsByNumber (read_tally self.old) (read_tally self.new) result }
    {
        if is_next_failing(&mut self.made, self.failing.as_slice()) {
            self.faults = raised(self.faults);
            return Err(Failed);
        }
        Ok(self.rest.give(into))
    }
}

/// Bytes as an input that never fails.
#[derive(Debug, Drop)]
pub struct SureSource {
    rest: Rest,
}

impl SureSource {
    ghost use Rattle.rio_host.specs.Sources.{sure_input_of};

    /// An input of these bytes.
    pub fn new(bytes: Bytes) -> SureSource
        ensures { sure_input_of result ≡ record { remaining = Some bytes.bytes; faults = 0 } }
    {
        SureSource {
            rest: Rest::new(bytes),
        }
    }
}

impl Source for SureSource {
    ghost use Rattle.rio_host.specs.Sources.{sure_input_of};

    ghost view = { λ s. told_input s.rest 0 };

    fn read(&mut self, into: &mut [u8]) -> Result<usize, Failed>
        ensures length { IfOk result (λ n. n ≤ length into.old) }
        ensures gives { IfOk result
            (λ n. Becomes (Fills n into.new)
            (sure_input_of self.old).remaining (sure_input_of self.new).remaining) }
        ensures counted { (sure_input_of self.new).faults ≡ (sure_input_of self.old).faults }
        ensures sure { IsOk result }
    {
        Ok(self.rest.give(into))
    }
}
