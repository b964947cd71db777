//! Whether a delete is refused.
ghost use Rattle.std.specs.Prelude.{◌≡◌, List, None, Some, IfOk, IsSome};
ghost use Rattle.rio_dir.specs.Table.{head_of};
ghost use Rattle.rio_machine.specs.State.{State};
ghost use Rattle.rio_machine.specs.declared.command.Command.{Command};
ghost use Rattle.rio_step.specs.KeptItems.{AreItemsOfState};
ghost use Rattle.rio_tree_table.specs.Table.{tree_of};
ghost use Rattle.rio_format.specs.declared.class.ClassDef.{ClassDef as Class};
ghost use Rattle.rio_judge.specs.Judging.{WorkCanBeDone};
ghost use Rattle.rio_judge.specs.Stops.{GoesByItems, GoesByState, GoesByTree};
ghost use Rattle.rio_judge.specs.Trees.{AnyWorkCanBeDone, TreeWorkCanBeDone};

use crate::key::key_at;
use crate::stop::Stop;
use crate::{AnyWork, TreeWork, Work};
use rio_dir::KeyTable;
use rio_key::KeyHead;
use rio_machine::Refusal;
use rio_tree_table::TreeTable;

// The key of the object of the name and cycle, where no tree has the name. `newest` is the first key of the name.
fn object_work(
    table: &KeyTable,
    trees: &TreeTable,
    name: &[u8],
    newest: &KeyHead,
    cycle: u32,
) -> Result<Work, Stop>
    requires key { head_of name.now None table.now.heads ≡ Some newest.now }
    requires no_tree { tree_of name.now trees.now.trees ≡ None }
    ensures answers { (m : State) → AreItemsOfState table.now.heads trees.now.trees m
        → GoesByState m (Command.Delete name.now cycle) result }
    ensures sound { (classes : List Class) → IfOk result (WorkCanBeDone classes table.now.heads
        (Command.Delete name.now cycle)) }
{
    match key_at(table, name, newest, cycle) {
        Some(head) => Ok(Work::Delete(head.copy()?)),
        None => Err(Stop::Refused(Refusal::NoSuchCycle)),
    }
}

// The key of the tree of the name, if it has the cycle. `newest` is the key of the name.
fn tree_work(
    table: &KeyTable,
    trees: &TreeTable,
    name: &[u8],
    newest: &KeyHead,
    cycle: u32,
) -> Result<TreeWork, Stop>
    requires key { head_of name.now None table.now.heads ≡ Some newest.now }
    requires tree { IsSome (tree_of name.now trees.now.trees) }
    ensures answers { (m : State) → AreItemsOfState table.now.heads trees.now.trees m
        → GoesByTree m (Command.Delete name.now cycle) result }
    ensures sound { (classes : List Class) → IfOk result (TreeWorkCanBeDone classes
        table.now.heads trees.now.trees (Command.Delete name.now cycle)) }
{
    if u32::from(newest.cycle) != cycle {
        return Err(Stop::Refused(Refusal::NoSuchCycle));
    }
    Ok(TreeWork::Delete(newest.copy()?))
}

/// The key of the object or tree that a delete of the name and cycle takes away, or the first refusal.
pub(crate) fn delete_work(
    table: &KeyTable,
    trees: &TreeTable,
    name: &[u8],
    cycle: u32,
) -> Result<AnyWork, Stop>
    ensures answers { (m : State) → AreItemsOfState table.now.heads trees.now.trees m
        → GoesByItems m (Command.Delete name.now cycle) result }
    ensures sound { (classes : List Class) → IfOk result (AnyWorkCanBeDone classes
        table.now.heads trees.now.trees (Command.Delete name.now cycle)) }
{
    let Some(newest) = table.find(name, None) else {
        return Err(Stop::Refused(Refusal::NoSuchName));
    };
    if trees.find(name).is_some() {
        let work = tree_work(table, trees, name, newest, cycle)?;
        Ok(AnyWork::Tree(work))
    } else {
        let work = object_work(table, trees, name, newest, cycle)?;
        Ok(AnyWork::Item(work))
    }
}
