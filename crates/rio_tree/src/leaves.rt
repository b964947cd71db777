//! The leaves of a branch.
ghost use Rattle.std.specs.Prelude.{◌≡◌, length, IfOk, OnOk};
ghost use Rattle.std.specs.Option.{option_map};
ghost use Rattle.std.specs.Result.{result_map_both};
ghost use Rattle.rio_tree.specs.HeaderLeaves.{counter_met, dim_by, leaf_by, leaves_met, with_counter_in};
ghost use Rattle.rio_tree.specs.Refusals.{leaf_behind, leaves_from, no_leaves};
ghost use Rattle.rio_tree.specs.Results.{GivesOrRefuses, ReadsLeaves};
ghost use Rattle.rio_tree.specs.Tables.{labels_of, leaf_of, leaves_of_branch, leaves_said, met_of};

use crate::labels::LabelTable;
use crate::leaf::{LeafSaid, leaf_at_pointer, least_one, uncounted_dim};
use crate::met::{MetLeaf, MetTable};
use crate::unread::Unread;
use crate::{BranchNumbers, BranchRefusal, Branches};
use rio_format::Value;
use rio_leaf::{Dim, Leaf, Leaves};
use rio_num::{Name, NoMemory};
use std::alloc::Global;
use std::collections::BTreeSet;

/// The leaves of a branch, and the numbers of the earlier branches whose leaves count some of them.
#[derive(Drop)]
pub(crate) struct LeavesRead {
    pub(crate) leaves: Leaves,
    pub(crate) numbers: BTreeSet<usize>,
}

// The counter of a leaf, if it has one. A text has none.
fn counter_met<'a>(
    branches: &Branches,
    met: &MetTable<'a>,
    said: &LeafSaid<'a>,
) -> Result<Option<MetLeaf<'a>>, BranchRefusal>
    ensures { result_map_both (option_map leaf_of) (λ why. why) result
        ≡ counter_met branches.now (met_of met.now) said.now }
{
    if said.letter == b'C' {
        return Ok(None);
    }
    match said.counter {
        None => Ok(None),
        Some(label) => match met.counter(branches, label) {
            Some(leaf) => Ok(Some(leaf)),
            None => Err(BranchRefusal::NoCounter),
        },
    }
}

// How many values a leaf has, by its counter.
fn dim_by(alloc: Global, said: &LeafSaid, counter: Option<MetLeaf>) -> Result<Dim, NoMemory>
    ensures { IfOk result (λ dim. dim ≡ dim_by said.now (option_map leaf_of counter.entry)) }
{
    match counter {
        Some(leaf) => Ok(Dim::Counted {
            counter: Name::from_slice(alloc, leaf.name)?,
            times: least_one(said.len),
        }),
        None if said.letter == b'C' => Ok(Dim::One),
        None => Ok(uncounted_dim(said.len)),
    }
}

fn leaf_by(alloc: Global, said: &LeafSaid, counter: Option<MetLeaf>) -> Result<Leaf, NoMemory>
    ensures { IfOk result (λ leaf. leaf ≡ leaf_by said.now (option_map leaf_of counter.entry)) }
{
    Ok(Leaf {
        name: Name::from_slice(alloc, said.name)?,
        letter: said.letter,
        dim: dim_by(alloc, said, counter)?,
    })
}

impl LeavesRead {
    // The number of the counter's branch, if that is another one.
    fn note_counter(&mut self, own: usize, counter: Option<MetLeaf>) -> Result<(), NoMemory>
        ensures { OnOk result (leaves_of_branch self.new
            ≡ with_counter_in own (option_map leaf_of counter.entry)
            (leaves_of_branch self.old)) }
    {
        match counter {
            Some(leaf) => {
                if leaf.branch != own {
                    self.numbers.insert(leaf.branch)?;
                }
                Ok(())
            }
            None => Ok(()),
        }
    }

    // One more leaf.
    #[tactic(auto, unfolding(crate::specs::Refusals::leaf_behind))]
    fn note_leaf<'a>(
        &mut self,
        alloc: Global,
        labels: &LabelTable<'a>,
        branches: &Branches,
        met: &MetTable<'a>,
        item: &'a Value,
    ) -> Result<(), Unread>
        ensures { GivesOrRefuses (λ _. leaves_of_branch self.new) result
            (leaf_behind (labels_of labels.now) branches.now item.now (met_of met.now)
            (leaves_of_branch self.old)) }
    {
        let Some(said) = leaf_at_pointer(labels, item) else {
            return Err(Unread::Refused(BranchRefusal::LeafClass));
        };
        let counter = counter_met(branches, met, &said)?;
        self.leaves.push(leaf_by(alloc, &said, counter)?)?;
        self.note_counter(branches.len(), counter)?;
        Ok(())
    }
}

// The leaves of a branch after these branches. `met` has the leaves before; afterwards it has those of the branch too, also
// where one of them refuses the branch.
fn read_each<'a>(
    alloc: Global,
    labels: &LabelTable<'a>,
    branches: &Branches,
    items: &'a [Value],
    met: &mut MetTable<'a>,
) -> Result<LeavesRead, Unread>
    ensures { ReadsLeaves leaves_of_branch result
        (leaves_from (labels_of labels.now) branches.now items.now (met_of met.old) no_leaves)
        (leaves_met (labels_of labels.now) (length branches.now) items.now (met_of met.old))
        (met_of met.new) }
{
    let mut read = LeavesRead {
        leaves: Leaves::new(alloc),
        numbers: BTreeSet::new(alloc),
    };
    for (k, item) in items.iter().enumerate() {
        match read.note_leaf(alloc, labels, branches, met, item) {
            Ok(()) => met.note_leaf(labels, branches.len(), item)?,
            Err(Unread::Refused(why)) => {
                met.note_leaves(labels, branches.len(), &items[k..])?;
                return Err(Unread::Refused(why));
            }
            Err(Unread::NoMemory) => return Err(Unread::NoMemory),
        }
    }
    Ok(read)
}

fn numbers_of(alloc: Global, numbers: &BTreeSet<usize>) -> Result<BranchNumbers, NoMemory>
    ensures { IfOk result (λ copies. copies ≡ numbers.now.keys) }
{
    let mut copies = BranchNumbers::new(alloc);
    for number in numbers {
        copies.push(*number)?;
    }
    Ok(copies)
}

/// The leaves of a branch.
#[derive(Drop)]
pub(crate) struct BranchLeaves {
    pub(crate) leaves: Leaves,
    pub(crate) counted_by: BranchNumbers,
}

/// The leaves of a branch behind these, and the numbers of the branches that count some of them. Afterwards the table of
/// leaves has them too, whatever refuses the branch.
pub(crate) fn read_leaves<'a>(
    alloc: Global,
    labels: &LabelTable<'a>,
    branches: &Branches,
    items: &'a [Value],
    met: &mut MetTable<'a>,
) -> Result<BranchLeaves, Unread>
    ensures { ReadsLeaves leaves_said result
        (leaves_from (labels_of labels.now) branches.now items.now (met_of met.old) no_leaves)
        (leaves_met (labels_of labels.now) (length branches.now) items.now (met_of met.old))
        (met_of met.new) }
{
    let read = read_each(alloc, labels, branches, items, met)?;
    let counted_by = numbers_of(alloc, &read.numbers)?;
    let LeavesRead { leaves, numbers: _ } = read;
    Ok(BranchLeaves { leaves, counted_by })
}
