//! The input, as all callers see it.
ghost use Rattle.std.specs.Prelude.{◌≡◌, ◌≤◌, length, IfOk, OnErr, IsErr, IsOk};
ghost use Rattle.rio_host.specs.Host.{Becomes, Rose};
ghost use Rattle.rio_host.specs.Source.{Input, Fills};

use crate::Failed;

/// An input that is read from its beginning to its end.
pub trait Source {
    ghost view: { Self → Input };

    /// Puts the next bytes at the front of `into`, and answers how many. None, where `into` has
    /// room, is the end.
    fn read(&mut self, into: &mut [u8]) -> Result<usize, Failed>
        ensures length { IfOk result (λ n. n ≤ length into.old) }
        ensures gives { IfOk result
            (λ n. Becomes (Fills n into.new) (view self.old).remaining (view self.new).remaining) }
        ensures failed { OnErr result ((view self.new).remaining ≡ (view self.old).remaining) }
        ensures faults { (view self.old).faults ≤ (view self.new).faults }
        ensures counted { IsOk result → (view self.new).faults ≡ (view self.old).faults }
        ensures cause { IsErr result → Rose (view self.old).faults (view self.new).faults };
}
