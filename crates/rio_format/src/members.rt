//! Which members can be read.
ghost use Rattle.std.specs.Prelude.{◌≡◌, ℕ, List, [], IfOk, OnOk};
ghost use Rattle.rio_format.specs.{CounterSet.{HasNames}, Members.{can_read, can_read_all, is_counter, names_with}};

use crate::{Kind, Member};
use rio_num::NoMemory;
use std::alloc::Global;
use std::collections::BTreeSet;

type Counters<'a> = BTreeSet<&'a [u8]>;

fn is_counter(kind: &Kind) -> bool
    ensures { result ≡ is_counter kind.now }
{
    matches!(kind, Kind::Counter)
}

// Whether a member of the kind can be read behind these counters.
fn can_read(counters: &Counters, kind: &Kind) -> bool
    ensures { (names : List (List ℕ)) → HasNames counters.now names
        → result ≡ can_read names kind.now }
{
    match kind {
        Kind::Counted { counter, .. } => counters.contains(counter.as_slice()),
        Kind::Other { .. } => false,
        _ => true,
    }
}

// Puts the member's name among the counters, if it is one.
fn note<'a>(counters: &mut Counters<'a>, member: &'a Member) -> Result<(), NoMemory>
    ensures { OnOk result ((names : List (List ℕ)) → HasNames counters.old names
        → HasNames counters.new (names_with member.now names)) }
{
    if is_counter(&member.kind) {
        counters.insert(member.name.as_slice())?;
    }
    Ok(())
}

/// Whether the members of a class can all be read.
pub(crate) fn can_read_all(alloc: Global, members: &[Member]) -> Result<bool, NoMemory>
    ensures { IfOk result (λ all. all ≡ can_read_all [] members.now) }
{
    let mut counters = Counters::new(alloc);
    for member in members {
        if !can_read(&counters, &member.kind) {
            return Ok(false);
        }
        note(&mut counters, member)?;
    }
    Ok(true)
}
