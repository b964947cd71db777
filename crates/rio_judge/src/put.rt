//! Whether a put is refused.
ghost use Rattle.std.specs.Prelude.{◌≡◌, ◌≤◌, ℕ, ◌+◌, ◌∷◌, [], length, Some, None, IfOk, is_some, not, nat_le, nat_lt};
ghost use Rattle.std.specs.Option.{option_copied};
ghost use Rattle.rio_dir.specs.Table.{greatest_cycle};
ghost use Rattle.rio_format.specs.Written.{written_form};
ghost use Rattle.rio_machine.specs.Limits.{cycle_limit, data_length, has_long_list, head_length, is_too_deep, is_too_long, item_limit, zeros_behind};
ghost use Rattle.rio_machine.specs.State.{State};
ghost use Rattle.rio_machine.specs.declared.command.Command.{Command};
ghost use Rattle.rio_machine.specs.declared.refusal.Refusal.{Refusal as Refusing};
ghost use Rattle.rio_model.specs.Resolving.{resolved};
ghost use Rattle.rio_step.specs.KeptItems.{AreItemsOfState};
ghost use Rattle.rio_step.specs.Refusing.{is_fit, is_kept_out, object_class, refused_if};
ghost use Rattle.rio_tree_table.specs.Table.{tree_of};
ghost use Rattle.rio_judge.specs.Judging.{CanBePut, WorkCanBeDone};
ghost use Rattle.rio_judge.specs.Stops.{GoesByState, GoesByTests, object_tests};

use crate::key::{check_name, check_no_tree};
use crate::stop::Stop;
use crate::{StoredObject, Work};
use rio_dir::KeyTable;
use rio_fit::{can_be_put, fits};
use rio_format::{Classes, DEPTH_LIMIT, LENGTH_LIMIT, Value, depth, longest_list};
use rio_key::key_length_of;
use rio_machine::{CYCLE_LIMIT, ITEM_LIMIT, LIST_LIMIT, Refusal};
use rio_num::{Name, padded};
use rio_tree_table::TreeTable;
use rio_valtext::resolved;
use rio_write::written_length;
use std::alloc::Global;

// The value with its versions.
fn known_value(alloc: Global, classes: &Classes, value: &Value) -> Result<Value, Stop>
    ensures value { IfOk result (λ v. resolved classes.now value.now ≡ Some v) }
    ensures told { GoesByTests (refused_if (not (is_some (resolved classes.now value.now)))
        Refusing.NoSuchClass ∷ []) result }
{
    Ok(resolved(alloc, classes, value)?)
}

// The class of an object; none of another value.
fn object_class(value: &Value) -> Option<&Name>
    ensures { option_copied result ≡ object_class value.now }
{
    match value {
        Value::Object { class, .. } => Some(class),
        _ => None,
    }
}

// The class of an object that fits it and that a put takes.
fn taken_class(alloc: Global, classes: &Classes, value: &Value) -> Result<Name, Stop>
    ensures class { IfOk result (λ own. object_class value.now ≡ Some own) }
    ensures told { GoesByTests (refused_if (is_kept_out classes.now value.now) Refusing.NoSuchClass
        ∷ refused_if (not (is_fit classes.now value.now)) Refusing.DoesNotFit ∷ []) result }
{
    let Some(class) = object_class(value) else {
        return Err(Stop::Refused(Refusal::DoesNotFit));
    };
    if !can_be_put(classes, class.as_slice()) {
        return Err(Stop::Refused(Refusal::NoSuchClass));
    }
    if !fits(alloc, classes, class.as_slice(), value)? {
        return Err(Stop::Refused(Refusal::DoesNotFit));
    }
    Ok(class.copy()?)
}

// The cycle that a name gets behind so many puts of it.
fn cycle_behind(table: &KeyTable, name: &[u8], before: u64) -> Result<u16, Stop>
    ensures cycle { IfOk result (λ n. n ≡ greatest_cycle name.now table.now.heads + 1 + before) }
    ensures told { GoesByTests
        (refused_if (nat_lt cycle_limit (greatest_cycle name.now table.now.heads + 1 + before))
        Refusing.CycleLimit ∷ []) result }
{
    let cycle = u64::from(table.next_cycle(name)).saturating_add(before);
    if cycle > u64::from(CYCLE_LIMIT) {
        return Err(Stop::Refused(Refusal::CycleLimit));
    }
    Ok(cycle as u16)
}

// How many zero bytes stand behind an object's bytes in its record.
fn zeros_behind(class: &[u8], name: &[u8], length: u64) -> u64
    requires { length ≤ 16777217 }
    ensures { result ≡ zeros_behind (head_length class.now name.now + length) }
{
    let beyond = (key_length_of(class, name, b"") % 4) as u64 + length;
    padded(beyond) - beyond
}

// How many bytes are written of an object.
fn short_length(
    alloc: Global,
    classes: &Classes,
    class: &[u8],
    name: &[u8],
    value: &Value,
) -> Result<u32, Stop>
    ensures length { IfOk result
        (λ n. (start : ℕ) → n ≡ length (written_form classes.now start value.now)) }
    ensures told { GoesByTests
        (refused_if (is_too_long (data_length classes.now class.now name.now value.now))
        Refusing.TooLarge ∷ []) result }
{
    let length = written_length(alloc, classes, value)?;
    if length + zeros_behind(class, name, length) > LENGTH_LIMIT {
        return Err(Stop::Refused(Refusal::TooLarge));
    }
    Ok(length as u32)
}

// The value isn't too deep, and has no list that is too long.
fn check_counts(value: &Value) -> Result<(), Stop>
    ensures { GoesByTests (refused_if (is_too_deep value.now) Refusing.TooDeep
        ∷ refused_if (has_long_list value.now) Refusing.TooMany ∷ []) result }
{
    if depth(value) > DEPTH_LIMIT {
        return Err(Stop::Refused(Refusal::TooDeep));
    }
    if longest_list(value) > LIST_LIMIT {
        return Err(Stop::Refused(Refusal::TooMany));
    }
    Ok(())
}

// There is room for one more item.
fn check_items(table: &KeyTable) -> Result<(), Stop>
    ensures { GoesByTests (refused_if (nat_le item_limit (length table.now.heads))
        Refusing.TooMany ∷ []) result }
{
    if table.count() >= ITEM_LIMIT {
        return Err(Stop::Refused(Refusal::TooMany));
    }
    Ok(())
}

/// The object that a put of the value under the name stores behind so many puts of the name, or the
/// first refusal, in the order of their numbers. How many items there are isn't asked.
pub(crate) fn stored_object(
    alloc: Global,
    classes: &Classes,
    table: &KeyTable,
    trees: &TreeTable,
    name: &[u8],
    value: &Value,
    before: u64,
) -> Result<StoredObject, Stop>
    ensures told { GoesByTests (object_tests classes.now table.now.heads trees.now.trees
        name.now value.now before) result }
    ensures named { IfOk result (λ object. object.name ≡ name.now) }
    ensures can { IfOk result (CanBePut classes.now table.now.heads before value.now) }
{
    check_name(name)?;
    check_no_tree(trees, name)?;
    let value = known_value(alloc, classes, value)?;
    let class = taken_class(alloc, classes, &value)?;
    let cycle = cycle_behind(table, name, before)?;
    let length = short_length(alloc, classes, class.as_slice(), name, &value)?;
    check_counts(&value)?;
    let name = Name::from_slice(alloc, name)?;
    Ok(StoredObject {
        name,
        class,
        cycle,
        length,
        value,
    })
}

/// What a put of the value under the name is to do, or the first refusal, in the order of their
/// numbers.
pub(crate) fn put_work(
    alloc: Global,
    classes: &Classes,
    table: &KeyTable,
    trees: &TreeTable,
    name: &[u8],
    value: &Value,
) -> Result<Work, Stop>
    ensures answers { (m : State) → m.classes ≡ classes.now
        → AreItemsOfState table.now.heads trees.now.trees m
        → GoesByState m (Command.Put name.now value.now) result }
    ensures sound { IfOk result (WorkCanBeDone classes.now table.now.heads
        (Command.Put name.now value.now)) }
    ensures no_tree { IfOk result (λ _. tree_of name.now trees.now.trees ≡ None) }
{
    let object = stored_object(alloc, classes, table, trees, name, value, 0)?;
    check_items(table)?;
    Ok(Work::Put(object))
}
