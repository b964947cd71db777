//! Counts of calls and of faults.
ghost use Rattle.std.specs.Prelude.{◌≡◌, ◌↔◌, IsTrue, OnOk, OnErr, IsOk, Contains};
ghost use Rattle.rio_host.specs.Failing.{next_count};
ghost use Rattle.rio_host.specs.Host.{Rose};

use crate::Failed;
use std::io;

/// One more, where 64 bits hold it.
pub fn raised(count: u64) -> u64
    ensures value { result ≡ next_count count }
    ensures rose { Rose count result }
{
    count.saturating_add(1)
}

/// Whether the next call is one of those that fail. It is counted.
pub fn is_next_failing(made: &mut u64, failing: &[u64]) -> bool
    ensures made { made.new ≡ next_count made.old }
    ensures failing { IsTrue result ↔ Contains failing.now made.old }
{
    let number = *made;
    *made = raised(number);
    failing.contains(&number)
}

/// The system's answer. A failure is counted among these faults.
pub fn or_fault<T: Drop>(answer: io::Result<T>, faults: &mut u64) -> Result<T, Failed>
    ensures ok { OnOk result (faults.new ≡ faults.old) }
    ensures err { OnErr result (Rose faults.old faults.new) }
    ensures same { IsOk result ↔ IsOk answer }
{
    match answer {
        Ok(value) => Ok(value),
        Err(_) => {
            *faults = raised(*faults);
            Err(Failed)
        }
    }
}
