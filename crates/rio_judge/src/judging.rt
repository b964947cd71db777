//! Whether a command is refused.
ghost use Rattle.std.specs.Prelude.{◌≡◌, IsTrue, IfOk};
ghost use Rattle.rio_machine.specs.State.{State};
ghost use Rattle.rio_step.specs.KeptItems.{AreItemsOfState};
ghost use Rattle.rio_judge.specs.Judging.{IsJudgementOfStates, IsSoundJudgement, is_judged};
ghost use Rattle.rio_judge.specs.Stops.{GoesByItems, GoesByTree, as_item, as_tree};
ghost use Rattle.rio_judge.specs.Trees.{AnyWorkCanBeDone, IsJudgementOfItems, IsSoundWithTrees, TreeWorkCanBeDone, is_tree_verb};

use crate::batch::batch_work;
use crate::class::class_work;
use crate::delete::delete_work;
use crate::get::get_work;
use crate::put::put_work;
use crate::stop::Stop;
use crate::tree::{fill_work, make_work, save_work, scan_work};
use crate::{AnyWork, Judged, JudgedWithTrees, TreeWork, Work};
use rio_dir::KeyTable;
use rio_format::Classes;
use rio_machine::{Command, Refusal};
use rio_num::NoMemory;
use rio_registry::Registry;
use rio_tree_table::TreeTable;
use std::alloc::Global;

/// Why the state refuses the command, or what the command is to do. Of several refusals the one of
/// the lowest number is returned. Want of room, the last, is left to the caller, and so is whether an
/// object can be had in the version that a get asks for: the object stands in the file. The state is
/// known by its classes and by the keys of its objects, in which names and cycles are searched, and it
/// has no trees. A value is gone over a constant number of times, and for a declaration the class list
/// is made and measured.
pub fn judge(
    alloc: Global,
    registry: &Registry,
    table: &KeyTable,
    command: &Command,
) -> Result<Judged, NoMemory>
    requires { IsTrue (is_judged command.now) }
    ensures judged { IfOk result
        (IsJudgementOfStates registry.now table.now.heads command.now) }
    ensures sound { IfOk result (IsSoundJudgement registry.now table.now.heads command.now) }
{
    let trees = TreeTable::new(alloc);
    match judge_with_trees(alloc, registry, table, &trees, command)? {
        JudgedWithTrees::Refused(refusal) => Ok(Judged::Refused(refusal)),
        JudgedWithTrees::Accepted(AnyWork::Item(work)) => Ok(Judged::Accepted(work)),
        // No tree is there, and none is made.
        JudgedWithTrees::Accepted(AnyWork::Tree(_)) => unreachable!(),
    }
}

/// What [`judge`] returns, of every command, where the state is known by its classes, by the keys of its objects and
/// trees, and by its trees. Left to the caller are want of room, whether an object can be had in the version that a get
/// asks for and the rows of a tree in a version that a scan asks for, and a row that a fill adds: its entries are to be
/// made, and [`crate::judge_row`] judges what comes of it.
pub fn judge_with_trees(
    alloc: Global,
    registry: &Registry,
    table: &KeyTable,
    trees: &TreeTable,
    command: &Command,
) -> Result<JudgedWithTrees, NoMemory>
    ensures judged { IfOk result (IsJudgementOfItems registry.now table.now.heads
        trees.now.trees command.now) }
    ensures sound { IfOk result (IsSoundWithTrees registry.now table.now.heads
        trees.now.trees command.now) }
{
    match work_of(alloc, registry, table, trees, command) {
        Ok(work) => Ok(JudgedWithTrees::Accepted(work)),
        Err(Stop::Refused(refusal)) => Ok(JudgedWithTrees::Refused(refusal)),
        Err(Stop::NoMemory) => Err(NoMemory),
    }
}

// A work with objects or classes, among all work.
fn as_item(found: Result<Work, Stop>) -> Result<AnyWork, Stop>
    ensures { result ≡ as_item found }
{
    match found {
        Ok(work) => Ok(AnyWork::Item(work)),
        Err(stop) => Err(stop),
    }
}

// A work with a tree, among all work.
fn as_tree(found: Result<TreeWork, Stop>) -> Result<AnyWork, Stop>
    ensures { result ≡ as_tree found }
{
    match found {
        Ok(work) => Ok(AnyWork::Tree(work)),
        Err(stop) => Err(stop),
    }
}

// What the command of a tree's verb is to do, or where its judgement stops.
fn tree_work_of(
    alloc: Global,
    classes: &Classes,
    table: &KeyTable,
    trees: &TreeTable,
    command: &Command,
) -> Result<TreeWork, Stop>
    requires { IsTrue (is_tree_verb command.now) }
    ensures answers { (m : State) → m.classes ≡ classes.now
        → AreItemsOfState table.now.heads trees.now.trees m → GoesByTree m command.now result }
    ensures sound { IfOk result (TreeWorkCanBeDone classes.now table.now.heads trees.now.trees
        command.now) }
{
    match command {
        Command::Tree { name, branches } => {
            make_work(alloc, classes, table, name.as_slice(), branches)
        }
        Command::Fill { name, row } => {
            fill_work(alloc, classes, table, trees, name.as_slice(), row)
        }
        Command::Save { name } => save_work(table, trees, name.as_slice()),
        Command::Scan { name, class } => scan_work(classes, table, trees, name.as_slice(), class),
        _ => unreachable!(),
    }
}

// What the command is to do, or where its judgement stops.
fn work_of(
    alloc: Global,
    registry: &Registry,
    table: &KeyTable,
    trees: &TreeTable,
    command: &Command,
) -> Result<AnyWork, Stop>
    ensures answers { (m : State) → m.classes ≡ registry.now
        → AreItemsOfState table.now.heads trees.now.trees m → GoesByItems m command.now result }
    ensures sound { IfOk result (AnyWorkCanBeDone registry.now table.now.heads trees.now.trees
        command.now) }
{
    match command {
        Command::Bad { line, place } => Err(Stop::Refused(Refusal::BadLine {
            line: *line,
            place: *place,
        })),
        Command::Class(class) => as_item(class_work(alloc, registry, class)),
        Command::Put { name, value } => {
            let classes = registry.classes();
            as_item(put_work(alloc, classes, table, trees, name.as_slice(), value))
        }
        Command::Batch { puts } => {
            let classes = registry.classes();
            as_item(batch_work(alloc, classes, table, trees, puts.as_slice()))
        }
        Command::Delete { name, cycle } => delete_work(table, trees, name.as_slice(), *cycle),
        Command::Get {
            name,
            cycle,
            version,
        } => as_item(get_work(table, trees, name.as_slice(), *cycle, *version)),
        Command::Ls => Ok(AnyWork::Item(Work::Ls)),
        _ => as_tree(tree_work_of(alloc, registry.classes(), table, trees, command)),
    }
}
