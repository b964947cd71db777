//! What a close needs.
use crate::Session;
use rio_state::close_length;

impl Session {
    ghost use Rattle.std.specs.Prelude.{◌≡◌, ◌+◌, ◌<◌, ◌^◌, false};
    ghost use Rattle.rio_session.specs.Due.{due_of};
    ghost use Rattle.rio_state.specs.Sizes.{close_size};

    // What a close needs with so many bytes of heads and so many records, the saves that are due among it.
    pub(crate) fn need_by(&self, heads: u64, count: u64) -> u64
        requires fresh { self.now.failed ≡ false }
        requires heads { heads < 2 ^ 40 }
        requires count { count < 2 ^ 39 }
        ensures { result ≡ (due_of self.now.trees).bytes
            + close_size self.now.name heads (count + (due_of self.now.trees).baskets) }
    {
        let all = count + self.due.baskets;
        let size = close_length(self.name.as_slice(), heads, all);
        self.due.bytes + size
    }
}
