//! The rows of a tree, read entry by entry.
ghost use Rattle.std.specs.Prelude.{◌≡◌, ◌≢◌, ◌+◌, ◌<◌, ◌^◌, ℕ, List, Some, None, IfOk, IsTrue, OnOk, Err, is_some, length};
ghost use Rattle.std.specs.Option.{option_map, option_or};
ghost use Rattle.std.specs.Result.{result_err, result_ok};
ghost use Rattle.rio_host.specs.Host.{IsLength};
ghost use Rattle.rio_host.specs.OnlyReads.{OnlyReads};
ghost use Rattle.rio_host.specs.Reading.{IsReadCause};
ghost use Rattle.rio_machine.specs.declared.entry_fault.EntryFault.TheVariants.{NoMemory as OutOfMemory};
ghost use Rattle.rio_machine.specs.Entries.{entry_in};
ghost use Rattle.rio_entry.specs.Counting.{counters_within};
ghost use Rattle.rio_entry.specs.TreeCounters.{tree_counters};
ghost use Rattle.rio_tree.specs.Index.{basket_number};
ghost use Rattle.rio_entry.specs.Refusals.{refused_first};
ghost use Rattle.rio_entry.specs.BranchRows.{values_if_read, values_of_branch};
ghost use Rattle.rio_entry.specs.Sweeps.{refusal_before, sweep, with_branch};
ghost use Rattle.rio_entry.specs.Lanes.{AreLanes, IsHeld, IsLane};
ghost use Rattle.rio_entry.specs.Checked.{CountersMade, made_of, made_one, row_made};
ghost use Rattle.rio_entry.specs.RowFaults.{fault_held, fault_of_entry};

use crate::checked::{Made, made_there};
use crate::counts::{counters_are_read, entry_counts};
use crate::lane::{Lane, RowFault, entry_there, hold};
use crate::stored::out_of_memory;
use crate::tree_counters::TreeCounters;
use crate::tree_row::{BranchRefusals, TreeRow};
use crate::{EntryFault, LeafCounters, check_entry_with, entry_numbers_with, read_entry_with};
use rio_format::{Classes, Values};
use rio_host::{Host, ReadFault};
use rio_key::BasketFault;
use rio_num::NoMemory;
use rio_tree::{Branch, BranchRefusal};
use std::alloc::Global;

/// A tree in a file: the file's length and classes, and the tree's branches with their counters.
#[derive(Drop)]
pub struct FileTree<'a> {
    pub file_length: u64,
    pub classes: &'a Classes,
    pub branches: &'a [Branch],
    pub counters: &'a TreeCounters,
    pub ghost counted: { counters.now ≡ tree_counters branches.now },
}

/// An entry of a branch, which stands behind others, and what is made of its values.
#[derive(Drop)]
pub(crate) struct Place<'a> {
    pub(crate) before: &'a [Branch],
    pub(crate) branch: &'a Branch,
    pub(crate) counters: &'a LeafCounters,
    pub(crate) entry: u64,
    pub(crate) made: Made,
    pub(crate) ghost counted: { counters.now ≡ counters_within branch.now.def.shape },
}

/// What is made of the values of an entry, or why it isn't read.
pub(crate) type FoundValues = Result<Values, RowFault>;

// The refusals that come no later than NoCounter.
fn refused_first(refusal: Option<BranchRefusal>) -> Option<BranchRefusal>
    ensures { result ≡ refused_first refusal }
{
    match refusal {
        Some(BranchRefusal::BranchClass) => refusal,
        Some(BranchRefusal::SubBranches) => refusal,
        Some(BranchRefusal::EmbeddedBasket) => refusal,
        Some(BranchRefusal::LeafClass) => refusal,
        Some(BranchRefusal::NoCounter) => refusal,
        _ => None,
    }
}

/// The refusal with which a branch comes behind others that are refused so.
pub(crate) fn refusal_before(
    refusals: &BranchRefusals,
    branch: &Branch,
    refusal: Option<BranchRefusal>,
) -> Option<BranchRefusal>
    ensures { result ≡ refusal_before refusals.now branch.now refusal }
{
    match refused_first(refusal) {
        Some(first) => Some(first),
        None if !counters_are_read(refusals, branch) => Some(BranchRefusal::NoCounter),
        None => refusal,
    }
}

/// Why there is no entry in the basket that is held, if one is held.
pub fn fault_held(lane: &Lane) -> RowFault
    ensures { result ≡ fault_held lane.now.basket }
{
    match &lane.basket {
        Some(Err(fault)) => RowFault::Basket(*fault),
        _ => RowFault::Basket(BasketFault::BadLast { place: 0 }),
    }
}

// Why bytes aren't read as an entry, unless memory ran out.
fn fault_by(fault: EntryFault) -> Result<FoundValues, NoMemory>
    ensures none { IfOk result (λ found. (fault ≢ OutOfMemory) × (result_ok found ≡ None)) }
    ensures fault { IfOk result (λ found. found ≡ Err (fault_of_entry fault)) }
{
    match fault {
        EntryFault::BadEntry { place } => Ok(Err(RowFault::Entry { place })),
        EntryFault::NoMemory => Err(NoMemory),
        _ => Ok(Err(RowFault::Entry { place: 0 })),
    }
}

// What is made of the values of these bytes as an entry.
fn values_of_bytes(
    alloc: Global,
    classes: &Classes,
    place: &Place,
    counts: &Values,
    bytes: &[u8],
) -> Result<FoundValues, NoMemory>
    requires { length bytes.now < 2 ^ 32 }
    ensures values { IfOk result (λ found. result_ok found ≡ made_of place.now.made
        (values_if_read classes.now place.now.branch.now.def.shape counts.now (Some bytes.now))) }
    ensures fault { IfOk result (λ found. result_err found ≡ option_map fault_of_entry
        (result_err (entry_in classes.now place.now.branch.now.def.shape counts.now bytes.now))) }
{
    let branch = &place.branch.def;
    let counters = place.counters;
    match place.made {
        Made::Whole => match read_entry_with(alloc, classes, branch, counters, counts, bytes) {
            Ok(values) => Ok(Ok(values)),
            Err(fault) => fault_by(fault),
        },
        Made::Numbers => match entry_numbers_with(alloc, classes, branch, counters, counts, bytes) {
            Ok(numbers) => Ok(Ok(numbers)),
            Err(fault) => fault_by(fault),
        },
        Made::Nothing => match check_entry_with(alloc, classes, branch, counters, counts, bytes) {
            Ok(()) => Ok(Ok(Values::new(alloc))),
            Err(fault) => fault_by(fault),
        },
    }
}

// The values of the entry in the basket that is held. The branches before have the row's values there.
fn read_held(
    alloc: Global,
    classes: &Classes,
    place: &Place,
    lane: &Lane,
    row: &TreeRow,
) -> Result<FoundValues, NoMemory>
    ensures { IfOk result (λ found. (file : List ℕ)
        → lane.now.number ≡ basket_number place.now.entry place.now.branch.now.baskets
        → IsTrue (is_some lane.now.basket)
        → IsHeld file place.now.branch.now lane.now.number lane.now.basket
        → result_ok found ≡ made_of place.now.made (values_of_branch file classes.now
        place.now.entry place.now.before.now row.now.values place.now.branch.now)) }
{
    match entry_there(place.branch, lane, place.entry) {
        Some(bytes) => {
            let counts = entry_counts(alloc, place.before, &row.values, place.branch)?;
            values_of_bytes(alloc, classes, place, &counts, bytes)
        }
        None => Ok(Err(fault_held(lane))),
    }
}

// The values of the entry, whose basket is held first.
fn read_values<H: Host>(
    alloc: Global,
    host: &mut H,
    tree: &FileTree,
    place: &Place,
    lane: &mut Lane,
    row: &TreeRow,
) -> Result<FoundValues, ReadFault>
    requires { IsLength (H.view host.old) tree.now.file_length }
    ensures values { IfOk result (λ found. (file : List ℕ)
        → (H.view host.old).holds ≡ Some file
        → IsLane file place.now.entry place.now.branch.now lane.old
        → (result_ok found ≡ made_of place.now.made (values_of_branch file tree.now.classes.now
        place.now.entry place.now.before.now row.now.values place.now.branch.now))
        × IsLane file place.now.entry place.now.branch.now lane.new) }
    ensures calls { OnlyReads (H.view host.old) (H.view host.new) }
    ensures cause { IsReadCause (H.view host.old) (H.view host.new) result }
{
    hold(
        alloc,
        host,
        tree.file_length,
        place.branch,
        place.entry,
        lane,
    )?;
    read_held(alloc, tree.classes, place, lane, row).map_err(out_of_memory)
}

// Puts the branch at the end of a row, with the values that were read.
fn push_found(
    alloc: Global,
    found: FoundValues,
    lane: &mut Lane,
    row: &mut TreeRow,
) -> Result<(), NoMemory>
    ensures row { OnOk result (row.new ≡ with_branch row.old None (result_ok found)) }
    ensures kept { (lane.new.number ≡ lane.old.number) × (lane.new.basket ≡ lane.old.basket) }
    ensures fault { lane.new.fault ≡ option_or (result_err found) lane.old.fault }
{
    match found {
        Ok(values) => row.push(None, values),
        Err(fault) => {
            lane.fault = Some(fault);
            row.push(Some(BranchRefusal::BadEntry), Values::new(alloc))
        }
    }
}

// Puts the branch at the end of a row, which it comes to with this refusal.
fn sweep_branch<H: Host>(
    alloc: Global,
    host: &mut H,
    tree: &FileTree,
    place: &Place,
    refusal: Option<BranchRefusal>,
    lane: &mut Lane,
    row: &mut TreeRow,
) -> Result<(), ReadFault>
    requires { IsLength (H.view host.old) tree.now.file_length }
    ensures row { OnOk result ((file : List ℕ)
        → (H.view host.old).holds ≡ Some file
        → IsLane file place.now.entry place.now.branch.now lane.old
        → (row.new ≡ made_one place.now.made file tree.now.classes.now place.now.entry
        place.now.before.now row.old place.now.branch.now refusal)
        × IsLane file place.now.entry place.now.branch.now lane.new) }
    ensures count { OnOk result (length row.new.refusals ≡ length row.old.refusals + 1) }
    ensures width { OnOk result (length row.new.values ≡ length row.old.values + 1) }
    ensures calls { OnlyReads (H.view host.old) (H.view host.new) }
    ensures cause { IsReadCause (H.view host.old) (H.view host.new) result }
{
    lane.fault = None;
    let refusal = refusal_before(&row.refusals, place.branch, refusal);
    if refusal.is_some() {
        row.push(refusal, Values::new(alloc))
            .map_err(out_of_memory)?;
        return Ok(());
    }
    let found = read_values(alloc, host, tree, place, lane, row)?;
    push_found(alloc, found, lane, row).map_err(out_of_memory)?;
    Ok(())
}

/// The row at an entry, of branches that come to it with these refusals. Of the values of each so much is made.
pub fn read_tree_row<H: Host>(
    alloc: Global,
    host: &mut H,
    tree: &FileTree,
    entry: u64,
    refusals: &[Option<BranchRefusal>],
    made: &[Made],
    lanes: &mut [Lane],
) -> Result<TreeRow, ReadFault>
    requires length { IsLength (H.view host.old) tree.now.file_length }
    requires counters { CountersMade made.now tree.now.branches.now }
    requires refusals { length refusals.now ≡ length tree.now.branches.now }
    requires lanes { length lanes.old ≡ length tree.now.branches.now }
    ensures lanes { length lanes.new ≡ length lanes.old }
    ensures row { IfOk result (λ row. (file : List ℕ)
        → (H.view host.old).holds ≡ Some file
        → AreLanes file entry tree.now.branches.now lanes.old
        → (row ≡ row_made made.now
        (sweep file tree.now.classes.now entry tree.now.branches.now refusals.now))
        × AreLanes file entry tree.now.branches.now lanes.new) }
    ensures count { IfOk result (λ row. length row.refusals ≡ length tree.now.branches.now) }
    ensures width { IfOk result (λ row. length row.values ≡ length tree.now.branches.now) }
    ensures calls { OnlyReads (H.view host.old) (H.view host.new) }
    ensures cause { IsReadCause (H.view host.old) (H.view host.new) result }
{
    let mut row = TreeRow::new(alloc);
    for k in 0..tree.branches.len() {
        let place = Place {
            before: &tree.branches[..k],
            branch: &tree.branches[k],
            counters: tree.counters.at(k),
            entry,
            made: made_there(made, k),
        };
        sweep_branch(
            alloc,
            host,
            tree,
            &place,
            refusals[k],
            &mut lanes[k],
            &mut row,
        )?;
    }
    Ok(row)
}
