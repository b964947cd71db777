//! Whether a get is refused.
ghost use Rattle.std.specs.Prelude.{◌≡◌, ℕ, ℤ, List, Option, None, Some, IfOk, IsSome};
ghost use Rattle.rio_key.specs.declared.head.KeyHead.{KeyHead as Key};
ghost use Rattle.rio_dir.specs.Table.{head_of};
ghost use Rattle.rio_machine.specs.State.{State};
ghost use Rattle.rio_step.specs.Refusing.{refusal_of};
ghost use Rattle.rio_machine.specs.declared.command.Command.{Command};
ghost use Rattle.rio_step.specs.KeptItems.{AreItemsOfState};
ghost use Rattle.rio_tree_table.specs.Table.{tree_of};
ghost use Rattle.rio_tree_table.specs.declared.table.KeptTree.{KeptTree};
ghost use Rattle.rio_format.specs.declared.class.ClassDef.{ClassDef as Class};
ghost use Rattle.rio_judge.specs.Judging.{WorkCanBeDone};
ghost use Rattle.rio_judge.specs.Stops.{GoesByState, StopsAt};

use crate::Work;
use crate::key::key_at;
use crate::stop::Stop;
use rio_dir::KeyTable;
use rio_key::KeyHead;
use rio_machine::Refusal;
use rio_tree_table::TreeTable;

// Why a get of a tree's name is refused. `newest` is the key of the name.
fn tree_stop(newest: &KeyHead, cycle: Option<u32>) -> Stop
    ensures { (heads : List Key) (trees : List KeptTree) (m : State) (name : List ℕ)
        (version : Option ℤ) → AreItemsOfState heads trees m
        → head_of name None heads ≡ Some newest.now → IsSome (tree_of name trees)
        → StopsAt (refusal_of m (Command.Get name cycle version) None) result }
{
    let Some(cycle) = cycle else {
        return Stop::Refused(Refusal::NameIsTree);
    };
    if u32::from(newest.cycle) != cycle {
        return Stop::Refused(Refusal::NoSuchCycle);
    }
    Stop::Refused(Refusal::NameIsTree)
}

// The key of the object that a get of the name prints, where no tree has the name. `newest` is the first key of the name.
fn object_work(
    table: &KeyTable,
    trees: &TreeTable,
    name: &[u8],
    newest: &KeyHead,
    cycle: Option<u32>,
    version: Option<i32>,
) -> Result<Work, Stop>
    requires key { head_of name.now None table.now.heads ≡ Some newest.now }
    requires no_tree { tree_of name.now trees.now.trees ≡ None }
    ensures answers { (m : State) → AreItemsOfState table.now.heads trees.now.trees m
        → GoesByState m (Command.Get name.now cycle version) result }
    ensures sound { (classes : List Class) → IfOk result (WorkCanBeDone classes table.now.heads
        (Command.Get name.now cycle version)) }
{
    let Some(cycle) = cycle else {
        let head = newest.copy()?;
        return Ok(Work::Get { head, version });
    };
    match key_at(table, name, newest, cycle) {
        Some(head) => {
            let head = head.copy()?;
            Ok(Work::Get { head, version })
        }
        None => Err(Stop::Refused(Refusal::NoSuchCycle)),
    }
}

/// The key of the object that a get of the name prints, the one of the greatest cycle if none is
/// named, or the first refusal. Whether the object can be had in the asked version isn't known from keys.
pub(crate) fn get_work(
    table: &KeyTable,
    trees: &TreeTable,
    name: &[u8],
    cycle: Option<u32>,
    version: Option<i32>,
) -> Result<Work, Stop>
    ensures answers { (m : State) → AreItemsOfState table.now.heads trees.now.trees m
        → GoesByState m (Command.Get name.now cycle version) result }
    ensures sound { (classes : List Class) → IfOk result (WorkCanBeDone classes table.now.heads
        (Command.Get name.now cycle version)) }
    ensures no_tree { IfOk result (λ _. tree_of name.now trees.now.trees ≡ None) }
{
    let Some(newest) = table.find(name, None) else {
        return Err(Stop::Refused(Refusal::NoSuchName));
    };
    if trees.find(name).is_some() {
        return Err(tree_stop(newest, cycle));
    }
    object_work(table, trees, name, newest, cycle, version)
}
