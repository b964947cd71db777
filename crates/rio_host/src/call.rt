//! The calls that a host in memory remembers.
use crate::change::Change;
use rio_num::Items;

/// What a host in memory remembers of the calls that changed it.
#[derive(Debug, Drop)]
pub enum Call {
    /// A write that reads give.
    Write(Change),
    /// A write that failed. Reads give nothing of it, and yet it is in flight.
    FailedWrite(Change),
    /// A sync that succeeded.
    Sync,
    /// These bytes begin to be said.
    Saying(Items<u8>),
    /// All of them were.
    Said,
}
