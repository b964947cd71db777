//! Whether a batch is refused: the lowest of the refusals of its puts, each behind those before it.
ghost use Rattle.std.specs.Prelude.{◌≡◌, ℕ, List, false, is_some, if◌then◌else◌, IfOk, OnOk, Some};
ghost use Rattle.std.specs.List.{list_any};
ghost use Rattle.std.specs.Str.{bytes_eq};
ghost use Rattle.rio_machine.specs.State.{State};
ghost use Rattle.rio_machine.specs.declared.command.Command.{Command};
ghost use Rattle.rio_machine.specs.declared.refusal.Refusal.{Refusal as Refusing};
ghost use Rattle.rio_step.specs.KeptItems.{AreItemsOfState};
ghost use Rattle.rio_step.specs.Refusing.{refused_if};
ghost use Rattle.rio_tree_table.specs.Table.{tree_of};
ghost use Rattle.rio_judge.specs.Judging.{CanBePut, WorkCanBeDone};
ghost use Rattle.rio_judge.specs.Lowest.{IsFound, WithPut, times_by_name};
ghost use Rattle.rio_judge.specs.Stops.{GoesByState, GoesByTests, has_many_puts, lower, object_tests};

use crate::put::stored_object;
use crate::stop::Stop;
use crate::{StoredObject, StoredObjects, Work};
use rio_dir::KeyTable;
use rio_format::Classes;
use rio_machine::{BATCH_LIMIT, ITEM_LIMIT, PutItem, Refusal};
use rio_num::NoMemory;
use rio_tree_table::TreeTable;
use std::alloc::Global;
use std::collections::BTreeMap;

// How many puts there are of each name.
type Counts<'a> = BTreeMap<&'a [u8], u64>;

// How many puts of the name were counted.
fn times_put(counts: &Counts, name: &[u8]) -> u64
    ensures { result ≡ times_by_name counts.now name.now }
{
    counts.get(name).copied().unwrap_or(0)
}

// The name has so many puts from now on.
fn count_put<'a>(counts: &mut Counts<'a>, name: &'a [u8], times: u64) -> Result<(), NoMemory>
    ensures { OnOk result
        ((q : List ℕ) →
        times_by_name counts.new q
        ≡ (if bytes_eq q name.now then times else times_by_name counts.old q)) }
{
    counts.insert(name, times)?;
    Ok(())
}

// The refusal of so many puts, if they are too many.
fn too_many(table: &KeyTable, count: usize) -> Option<Refusal>
    ensures { result ≡ refused_if (has_many_puts table.now.heads count) Refusing.TooMany }
{
    if count > BATCH_LIMIT {
        return Some(Refusal::TooMany);
    }
    if table.count() > ITEM_LIMIT - count {
        return Some(Refusal::TooMany);
    }
    None
}

// The lower of two refusals.
fn lower(lowest: Option<Refusal>, refusal: Refusal) -> Option<Refusal>
    ensures { result ≡ lower lowest (Some refusal) }
{
    match lowest {
        None => Some(refusal),
        Some(first) => {
            if first.number() <= refusal.number() {
                Some(first)
            } else {
                Some(refusal)
            }
        }
    }
}

// The object of a put behind so many others of its name, or its first refusal.
fn put_behind(
    alloc: Global,
    classes: &Classes,
    table: &KeyTable,
    trees: &TreeTable,
    put: &PutItem,
    before: u64,
) -> Result<StoredObject, Stop>
    ensures told { GoesByTests (object_tests classes.now table.now.heads trees.now.trees
        put.now.name put.now.value before) result }
    ensures named { IfOk result (λ object. object.name ≡ put.now.name) }
    ensures can { IfOk result (CanBePut classes.now table.now.heads before put.now.value) }
{
    let name = put.name.as_slice();
    stored_object(alloc, classes, table, trees, name, &put.value, before)
}

// What is found of puts: the lowest refusal of them, and their objects.
#[derive(Drop)]
struct Found {
    lowest: Option<Refusal>,
    objects: StoredObjects,
}

impl Found {
    // With one put more.
    fn with(self, put: Result<StoredObject, Stop>) -> Result<Found, NoMemory>
        ensures { IfOk result (WithPut self put) }
    {
        let Found {
            lowest,
            mut objects,
        } = self;
        match put {
            Ok(object) => {
                objects.push(object)?;
                Ok(Found { lowest, objects })
            }
            Err(Stop::Refused(refusal)) => Ok(Found {
                lowest: lower(lowest, refusal),
                objects,
            }),
            Err(Stop::NoMemory) => Err(NoMemory),
        }
    }
}

// What is found of all puts.
fn find_all(
    alloc: Global,
    classes: &Classes,
    table: &KeyTable,
    trees: &TreeTable,
    puts: &[PutItem],
) -> Result<Found, NoMemory>
    ensures { IfOk result
        (IsFound classes.now table.now.heads trees.now.trees puts.now) }
{
    let lowest = too_many(table, puts.len());
    let objects = StoredObjects::new(alloc);
    let mut found = Found { lowest, objects };
    let mut counts = Counts::new(alloc);
    for put in puts {
        let name = put.name.as_slice();
        let times = times_put(&counts, name);
        let next = put_behind(alloc, classes, table, trees, put, times);
        let more = found.with(next)?;
        found = more;
        let total = times + 1;
        count_put(&mut counts, name, total)?;
    }
    Ok(found)
}

/// What a batch of these puts is to do, or the lowest refusal of them.
pub(crate) fn batch_work(
    alloc: Global,
    classes: &Classes,
    table: &KeyTable,
    trees: &TreeTable,
    puts: &[PutItem],
) -> Result<Work, Stop>
    ensures answers { (m : State) → m.classes ≡ classes.now
        → AreItemsOfState table.now.heads trees.now.trees m
        → GoesByState m (Command.Batch puts.now) result }
    ensures sound { IfOk result (WorkCanBeDone classes.now table.now.heads
        (Command.Batch puts.now)) }
    ensures no_tree { IfOk result (λ _. list_any
        (λ p. is_some (tree_of p.name trees.now.trees)) puts.now ≡ false) }
{
    let found = find_all(alloc, classes, table, trees, puts)?;
    let Found { lowest, objects } = found;
    match lowest {
        Some(refusal) => Err(Stop::Refused(refusal)),
        None => Ok(Work::Batch(objects)),
    }
}
