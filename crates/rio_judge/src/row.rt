//! Whether a row is refused that a fill adds.
ghost use Rattle.std.specs.Prelude.{◌≡◌};
ghost use Rattle.std.specs.List.{list_any};
ghost use Rattle.std.specs.Option.{option_copied};
ghost use Rattle.rio_machine.specs.Limits.{has_long_list, is_too_deep};
ghost use Rattle.rio_step.specs.Refusing.{first_of};
ghost use Rattle.rio_judge.specs.Stops.{row_tests};
ghost use Rattle.rio_judge.specs.Trees.{IsRowJudgement};

use crate::NewRow;
use rio_format::{DEPTH_LIMIT, Value, depth, longest_list};
use rio_machine::{CYCLE_LIMIT, EntryFault, LIST_LIMIT, Refusal};

fn is_too_deep(value: &Value) -> bool
    ensures { result ≡ is_too_deep value.now }
{
    depth(value) > DEPTH_LIMIT
}

fn has_long_list(value: &Value) -> bool
    ensures { result ≡ has_long_list value.now }
{
    longest_list(value) > LIST_LIMIT
}

// A value of the row goes too deep.
fn goes_too_deep(row: &[Value]) -> bool
    ensures { result ≡ list_any is_too_deep row.now }
{
    row.iter().any(|value| is_too_deep(value))
}

// A value of the row has a list that is too long.
fn has_too_many(row: &[Value]) -> bool
    ensures { result ≡ list_any has_long_list row.now }
{
    row.iter().any(|value| has_long_list(value))
}

// Why the row is refused, if it is.
fn row_refusal(row: &NewRow, fault: Option<&EntryFault>) -> Option<Refusal>
    ensures { result ≡ first_of (row_tests row.now.cycle (option_copied fault.entry) row.now.row) }
{
    if matches!(fault, Some(EntryFault::BadRow)) {
        return Some(Refusal::BadRow);
    }
    if u32::from(row.cycle) >= CYCLE_LIMIT {
        return Some(Refusal::CycleLimit);
    }
    if matches!(fault, Some(EntryFault::TooLarge)) {
        return Some(Refusal::TooLarge);
    }
    if goes_too_deep(row.row.as_slice()) {
        return Some(Refusal::TooDeep);
    }
    if has_too_many(row.row.as_slice()) {
        return Some(Refusal::TooMany);
    }
    None
}

/// Why the row of an accepted fill is refused, if it is. `fault` is why its entries couldn't be made in the branches of the
/// tree, BadRow or TooLarge, and None where they were made. The first refusal is returned, in the order of their numbers: so
/// a tree in the last cycle takes no row that fits, however long it is.
pub fn judge_row(row: &NewRow, fault: Option<&EntryFault>) -> Option<Refusal>
    ensures { IsRowJudgement row.now (option_copied fault.entry) result }
{
    row_refusal(row, fault)
}
