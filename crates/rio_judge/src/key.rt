//! Names, and the key of a name and a cycle.
ghost use Rattle.std.specs.Prelude.{◌≡◌, ◌∷◌, [], None, Some, IsNone, IfSome, is_some};
ghost use Rattle.rio_dir.specs.Table.{AreOrdered, head_of};
ghost use Rattle.rio_machine.specs.declared.refusal.Refusal.{Refusal as Refusing};
ghost use Rattle.rio_step.specs.Refusing.{is_list_name, refused_if};
ghost use Rattle.rio_tree_table.specs.Table.{tree_of};
ghost use Rattle.rio_judge.specs.Stops.{GoesByTests};

use crate::stop::Stop;
use rio_dir::KeyTable;
use rio_key::KeyHead;
use rio_machine::Refusal;
use rio_tree_table::TreeTable;

/// Whether this is the name of the class list.
pub(crate) fn is_list_name(name: &[u8]) -> bool
    ensures { result ≡ is_list_name name.now }
{
    name == b"StreamerInfo".as_slice()
}

/// The name of the class list is taken.
pub(crate) fn check_name(name: &[u8]) -> Result<(), Stop>
    ensures { GoesByTests (refused_if (is_list_name name.now) Refusing.BadName ∷ []) result }
{
    if is_list_name(name) {
        return Err(Stop::Refused(Refusal::BadName));
    }
    Ok(())
}

/// No tree has the name.
pub(crate) fn check_no_tree(trees: &TreeTable, name: &[u8]) -> Result<(), Stop>
    ensures { GoesByTests (refused_if (is_some (tree_of name.now trees.now.trees))
        Refusing.NameIsTree ∷ []) result }
{
    if trees.find(name).is_some() {
        return Err(Stop::Refused(Refusal::NameIsTree));
    }
    Ok(())
}

/// The key of the name and the cycle, if there is one. `newest` is the key of the name's greatest
/// cycle.
pub(crate) fn key_at<'a>(
    table: &'a KeyTable,
    name: &[u8],
    newest: &KeyHead,
    cycle: u32,
) -> Option<&'a KeyHead>
    requires { head_of name.now None table.now.heads ≡ Some newest.now }
    ensures some { IfSome result
        (λ head. head_of name.now (Some cycle) table.now.heads ≡ Some head.now) }
    ensures none { IsNone result → AreOrdered table.now.heads
        → head_of name.now (Some cycle) table.now.heads ≡ None }
{
    if cycle > u32::from(newest.cycle) {
        return None;
    }
    table.find(name, Some(cycle as u16))
}
