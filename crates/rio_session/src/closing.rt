//! The saves of a close are planned, on a copy of the chain, before anything is written.
ghost use Rattle.std.specs.Prelude.{◌≡◌, ◌≤◌, ◌++◌, ◌-◌, false, IfOk, OnOk};
ghost use Rattle.std.specs.List.{list_all};
ghost use Rattle.std.specs.Option.{option_copied};
ghost use Rattle.rio_dir.specs.Table.{AreOrdered};
ghost use Rattle.rio_chain.specs.Adjoining.{AreSegments};
ghost use Rattle.rio_session.specs.ClosingPlans.{ArePlacesOf, ArePlannedSaves, CanPlanClose, CanPlanSaves, CanPlanTree, IsKeyBefore, IsPlannedBehind, IsPlannedClose, has_cycle, has_next};
ghost use Rattle.rio_session.specs.Fillings.{has_pending_rows};
ghost use Rattle.rio_session.specs.SessionState.{SessionState};
ghost use Rattle.rio_session.specs.Steps.{CanRun, CanStep, all_stepped, stepped};

use crate::header::TREE_CLASS;
use crate::open_tree::OpenTree;
use crate::save::{make_save, save_lengths};
use crate::steps::Step;
use rio_chain::Chain;
use rio_close::{CloseRecords, close_records};
use rio_dir::KeyTable;
use rio_key::KeyHead;
use rio_machine::CYCLE_LIMIT;
use rio_num::{NoMemory, Places};
use rio_state::END_LIMIT;
use std::alloc::Global;

/// Saves that are planned: the chain behind them, and the steps.
#[derive(Drop)]
pub(crate) struct PlannedSaves {
    pub(crate) chain: Chain,
    pub(crate) steps: Vec<Step>,
}

/// A close that is planned: the steps of the saves that are due, and the records behind them.
#[derive(Drop)]
pub(crate) struct PlannedClose {
    pub(crate) steps: Vec<Step>,
    pub(crate) records: CloseRecords,
}

// Changes the chain as the step does.
fn note_step(chain: &mut Chain, step: &Step)
    requires fresh { chain.old.spent ≡ false }
    requires can { CanStep chain.old.segments step.now }
    requires room { 1 ≤ chain.old.spare }
    ensures { chain.new ≡ record chain.old {
      segments = stepped step.now chain.old.segments;
      spare = chain.old.spare - 1;
    } }
{
    match step {
        Step::Put { place, body } => chain.note_put(*place, body.len() as u64),
        Step::Release { place } => chain.note_release(*place),
    }
}

// Notes the steps on the chain, and puts them at the end.
fn note_steps(planned: &mut PlannedSaves, steps: Vec<Step>) -> Result<(), NoMemory>
    requires fresh { planned.old.chain.spent ≡ false }
    requires run { CanRun steps.items planned.old.chain.segments }
    ensures segments { OnOk result (planned.new.chain.segments
        ≡ all_stepped steps.items planned.old.chain.segments) }
    ensures steps { OnOk result (planned.new.steps.items ≡ planned.old.steps.items ++ steps.items) }
    ensures fresh { OnOk result (planned.new.chain.spent ≡ false) }
{
    planned.chain.reserve(steps.len() as u64)?;
    for step in steps {
        note_step(&mut planned.chain, &step);
        planned.steps.push(step)?;
    }
    Ok(())
}

// Whether the tree has no pending rows, or another cycle.
fn has_cycle(table: &KeyTable, tree: &OpenTree) -> bool
    ensures { result ≡ has_cycle table.now.heads tree.now }
{
    if tree.filler.pending() == 0 {
        return true;
    }
    match table.find(tree.name.as_slice(), None) {
        Some(head) => u32::from(head.cycle) < CYCLE_LIMIT,
        None => false,
    }
}

// Whether each tree with pending rows has another cycle.
fn have_cycles(table: &KeyTable, trees: &[OpenTree]) -> bool
    ensures { result ≡ list_all (has_cycle table.now.heads) trees.now }
{
    trees.iter().all(|tree| has_cycle(table, tree))
}

// Whether the tree has pending rows.
fn is_due(tree: &OpenTree) -> bool
    ensures { result ≡ has_pending_rows tree.now }
{
    tree.filler.pending() != 0
}

// Whether it is the key of a tree's header, which has a next cycle.
fn has_next(head: &KeyHead) -> bool
    ensures { result ≡ has_next head.now }
{
    head.class.as_slice() == TREE_CLASS && u32::from(head.cycle) < CYCLE_LIMIT
}

// The key of the header of a tree that counts. It is that of a tree, and there is a next cycle: else a record would be wanting.
fn key_before<'a>(table: &'a KeyTable, name: &[u8]) -> Result<&'a KeyHead, NoMemory>
    ensures key { IfOk result (λ head. IsKeyBefore table.now.heads name.now head.now) }
    ensures ordered { AreOrdered table.now.heads }
{
    let _heads = table.as_slice();
    match table.find(name, None) {
        Some(head) if has_next(head) => Ok(head),
        _ => Err(NoMemory),
    }
}

// Where the records of a save go.
fn plan_places(alloc: Global, tree: &OpenTree, chain: &Chain) -> Result<Places, NoMemory>
    ensures places { IfOk result (ArePlacesOf chain.now.segments tree.now) }
    ensures form { AreSegments chain.now.segments }
{
    let _end = chain.end();
    let lengths = save_lengths(alloc, tree)?;
    // There is room for all saves, so only memory can be wanting.
    match chain.plan(&lengths, END_LIMIT) {
        Ok(places) => Ok(places),
        Err(_) => Err(NoMemory),
    }
}

// Plans the save of a tree, and puts the key of its header in the place of the one before.
fn plan_tree(
    alloc: Global,
    tree: &OpenTree,
    datime: u32,
    table: &mut KeyTable,
    planned: &mut PlannedSaves,
) -> Result<(), NoMemory>
    requires fresh { planned.old.chain.spent ≡ false }
    requires can { (s : SessionState)
        × CanPlanTree s planned.old.chain.segments table.old.heads tree.now datime }
    ensures planned { OnOk result ((s : SessionState)
        → CanPlanTree s planned.old.chain.segments table.old.heads tree.now datime
        → IsPlannedBehind s tree.now planned.old.steps.items planned.new.chain.segments
        table.new.heads planned.new.steps.items) }
    ensures fresh { OnOk result (planned.new.chain.spent ≡ false) }
{
    tree.stays_bounded();
    let places = plan_places(alloc, tree, &planned.chain)?;
    table.reserve_one()?;
    let name = tree.name.as_slice();
    let before = key_before(table, name)?;
    let cycle = before.cycle;
    let made = make_save(alloc, tree, before, &places, datime)?;
    let _ = table.remove(name, cycle);
    table.insert(made.head);
    note_steps(planned, made.steps)?;
    Ok(())
}

// Plans the saves of the trees that have pending rows, in order of names, and puts the keys of their headers in the places of
// those before.
fn plan_saves(
    alloc: Global,
    chain: &Chain,
    trees: &[OpenTree],
    datime: u32,
    table: &mut KeyTable,
) -> Result<PlannedSaves, NoMemory>
    requires fresh { chain.now.spent ≡ false }
    requires can { (s : SessionState)
        × CanPlanSaves s chain.now.segments table.old.heads trees.now datime }
    ensures planned { IfOk result (λ planned. (s : SessionState)
        → CanPlanSaves s chain.now.segments table.old.heads trees.now datime
        → ArePlannedSaves s planned.chain.segments table.new.heads planned.steps.items) }
    ensures fresh { IfOk result (λ planned. planned.chain.spent ≡ false) }
{
    let mut planned = PlannedSaves {
        chain: chain.copy()?,
        steps: Vec::new(alloc),
    };
    for tree in trees {
        if is_due(tree) {
            plan_tree(alloc, tree, datime, table, &mut planned)?;
        }
    }
    Ok(planned)
}

/// Plans a close: the saves that are due, in order of names, and the records that are written then. NoMemory also comes where a
/// tree that has pending rows is at its last cycle.
pub(crate) fn plan_close(
    alloc: Global,
    chain: &Chain,
    mut table: KeyTable,
    trees: &[OpenTree],
    info: Option<&KeyHead>,
    name: &[u8],
    nbytes_name: u32,
    datime: u32,
) -> Result<PlannedClose, NoMemory>
    requires fresh { chain.now.spent ≡ false }
    requires can { (s : SessionState) × CanPlanClose s chain.now.segments table.heads trees.now
        (option_copied info) name.now nbytes_name datime }
    ensures { IfOk result (λ planned. (s : SessionState)
        → CanPlanClose s chain.now.segments table.heads trees.now
        (option_copied info.entry) name.now nbytes_name datime
        → IsPlannedClose s planned.steps.items planned.records) }
{
    let _end = chain.end();
    if !have_cycles(&table, trees) {
        return Err(NoMemory);
    }
    let saves = plan_saves(alloc, chain, trees, datime, &mut table)?;
    let records = close_records(alloc, &table, &saves.chain, info, name, nbytes_name, datime)?;
    Ok(PlannedClose {
        steps: saves.steps,
        records,
    })
}
