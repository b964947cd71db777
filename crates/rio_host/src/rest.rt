//! What remains of some bytes.
ghost use Rattle.std.specs.Prelude.{◌≡◌, min, length};
ghost use Rattle.rio_host.specs.Source.{Fills};

use rio_num::Bytes;
use std::marker::Model;

/// What remains of some bytes, of which the first were given.
#[derive(Debug, Drop)]
pub struct Rest {
    bytes: Bytes,
    given: usize,
}

impl Model for Rest {
    ghost use Rattle.std.specs.Prelude.{◌≤◌, ℕ, List, length, drop};

    ghost Value = { List ℕ };

    ghost view = { λ r. drop r.given r.bytes.bytes };

    ghost invariant = { λ r. r.given ≤ length r.bytes.bytes };
}

impl Rest {
    /// All of these bytes.
    pub fn new(bytes: Bytes) -> Rest
        ensures { result ≡ bytes.bytes }
    {
        Rest { bytes, given: 0 }
    }

    /// Puts as many of the bytes at the front of `into` as it has room for.
    pub fn give(&mut self, into: &mut [u8]) -> usize
        ensures count { result ≡ min (length self.old) (length into.old) }
        ensures gives { Fills result into.new self.old self.new }
    {
        let rest = &self.bytes.as_slice()[self.given..];
        let n = rest.len().min(into.len());
        into[..n].copy_from_slice(&rest[..n]);
        self.given += n;
        n
    }
}
