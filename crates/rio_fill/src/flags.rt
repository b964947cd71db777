//! Flags of branches.
ghost use Rattle.std.specs.Prelude.{◌≡◌, ◌≤◌, length, not, slice_get};
ghost use Rattle.rio_fill.specs.Fill.{bit_of, full_flags, has_flag, has_no_entries, is_full_for, open_flags};

use crate::branch::OpenBranch;
use crate::prepared::Prepared;

/// A number of which the bit at `k` speaks of the branch at `k`, counted from 0.
pub type Flags = u64;

/// Whether the flag of the branch is set.
pub fn is_flagged(flags: Flags, branch: usize) -> bool
    ensures { result ≡ has_flag flags branch }
{
    let mut rest = flags;
    let mut k = branch;
    while k > 0 {
        k -= 1;
        rest /= 2;
    }
    rest % 2 == 1
}

// Whether the open basket is written before its entry of the row at `k` comes.
fn is_full(branch: &OpenBranch, entries: &Prepared, k: usize) -> bool
    ensures { result ≡ is_full_for branch.now (slice_get entries.now k) }
{
    match entries.entry(k) {
        Some(entry) => !branch.takes(entry),
        None => false,
    }
}

/// Of which branches the open basket is written before the row comes.
pub(crate) fn full_flags(branches: &[OpenBranch], entries: &Prepared) -> Flags
    requires { length branches.now ≤ 64 }
    ensures { result ≡ full_flags branches.now entries.now }
{
    let mut flags = 0;
    let mut k = branches.len();
    while k > 0 {
        k -= 1;
        let bit = if is_full(&branches[k], entries, k) {
            1
        } else {
            0
        };
        flags = bit + 2 * flags;
    }
    flags
}

// 1 where the open basket of the branch has entries, and else 0.
fn open_bit(branch: &OpenBranch) -> u64
    ensures { result ≡ bit_of (not (has_no_entries branch.now)) }
{
    if branch.count() == 0 { 0 } else { 1 }
}

/// Of which branches the open basket has entries.
pub(crate) fn open_flags(branches: &[OpenBranch]) -> Flags
    requires { length branches.now ≤ 64 }
    ensures { result ≡ open_flags branches.now }
{
    let mut flags = 0;
    let mut k = branches.len();
    while k > 0 {
        k -= 1;
        flags = open_bit(&branches[k]) + 2 * flags;
    }
    flags
}
