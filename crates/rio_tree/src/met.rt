//! The leaves before another one, and the one that counts it.
ghost use Rattle.std.specs.Prelude.{◌≡◌, None, slice_get, OnOk};
ghost use Rattle.std.specs.Option.{option_copied, option_map};
ghost use Rattle.rio_tree.specs.HeaderLeaves.{can_count_behind, counter_of_label, is_nearest_of_name, leaf_met, leaves_met, name_said, no_leaves_met, object_met, says_values, with_label_met, with_leaf_met, with_name_met};
ghost use Rattle.rio_tree.specs.Tables.{labels_of, leaf_of, met_of};

use crate::Branches;
use crate::labels::{LabelTable, label_in};
use crate::leaf::{is_plain_number, leaf_said};
use crate::members::name_member;
use rio_format::Value;
use rio_leaf::Shape;
use rio_num::NoMemory;
use std::alloc::Global;
use std::collections::HashMap;

/// A leaf as those behind it see it: the number of its branch, its label, its name, and whether it is a signed integer of
/// 4 bytes without a dimension.
#[derive(Clone, Copy)]
pub(crate) struct MetLeaf<'a> {
    pub(crate) branch: usize,
    pub(crate) label: Option<u32>,
    pub(crate) name: &'a [u8],
    pub(crate) counts: bool,
}

/// The leaves before another one: the nearest of each label, and the nearest of each name.
#[derive(Drop)]
pub(crate) struct MetTable<'a> {
    pub(crate) by_label: HashMap<u32, MetLeaf<'a>>,
    pub(crate) by_name: HashMap<&'a [u8], MetLeaf<'a>>,
}

impl<'a> MetTable<'a> {
    /// No leaves.
    pub(crate) fn new(alloc: Global) -> MetTable<'a>
        ensures { met_of result ≡ no_leaves_met }
    {
        MetTable {
            by_label: HashMap::new(alloc),
            by_name: HashMap::new(alloc),
        }
    }

    // One more leaf, by its label.
    fn note_label(&mut self, leaf: MetLeaf<'a>) -> Result<(), NoMemory>
        ensures { OnOk result (met_of self.new
            ≡ with_label_met (leaf_of leaf.entry) (met_of self.old)) }
    {
        match leaf.label {
            Some(label) => {
                self.by_label.insert(label, leaf)?;
                Ok(())
            }
            None => Ok(()),
        }
    }

    // One more leaf, by its name.
    fn note_name(&mut self, leaf: MetLeaf<'a>) -> Result<(), NoMemory>
        ensures { OnOk result (met_of self.new
            ≡ with_name_met (leaf_of leaf.entry) (met_of self.old)) }
    {
        self.by_name.insert(leaf.name, leaf)?;
        Ok(())
    }

    // The nearest leaf of the label.
    fn nearest_of_label(&self, label: u32) -> Option<MetLeaf<'a>>
        ensures { option_map leaf_of result ≡ (met_of self.now).of_label label }
    {
        self.by_label.get(&label).copied()
    }

    // The nearest leaf of the name.
    fn nearest_of_name(&self, name: &[u8]) -> Option<MetLeaf<'a>>
        ensures { option_map leaf_of result ≡ (met_of self.now).of_name name.now }
    {
        self.by_name.get(name).copied()
    }

    // Whether no other leaf of its name stands nearer than this one of the label.
    fn is_nearest_of_name(&self, label: u32, leaf: &MetLeaf<'a>) -> bool
        ensures { result ≡ is_nearest_of_name (met_of self.now) label (leaf_of leaf.now) }
    {
        match self.nearest_of_name(leaf.name) {
            Some(nearest) => nearest.label == Some(label),
            None => false,
        }
    }

    /// The leaf of the label that counts a leaf of the branch behind these: the nearest of the label, if it may count and
    /// no other leaf of its name stands nearer.
    #[tactic(auto, unfolding(crate::specs::HeaderLeaves::counter_of_label))]
    pub(crate) fn counter(&self, branches: &Branches, label: u32) -> Option<MetLeaf<'a>>
        ensures { option_map leaf_of result
            ≡ counter_of_label branches.now (met_of self.now) label }
    {
        let leaf = self.nearest_of_label(label)?;
        if self.is_nearest_of_name(label, &leaf) && can_count_behind(branches, &leaf) {
            Some(leaf)
        } else {
            None
        }
    }

    /// The leaf of a branch that a pointer leads to.
    pub(crate) fn note_leaf(
        &mut self,
        labels: &LabelTable<'a>,
        branch: usize,
        item: &'a Value,
    ) -> Result<(), NoMemory>
        ensures { OnOk result (met_of self.new
            ≡ with_leaf_met (leaf_met (labels_of labels.now) branch item.now) (met_of self.old)) }
    {
        let leaf = met_leaf(branch, label_in(item), labels.object_behind(item));
        self.note_label(leaf)?;
        self.note_name(leaf)
    }

    /// The leaves of a branch that these pointers lead to.
    pub(crate) fn note_leaves(
        &mut self,
        labels: &LabelTable<'a>,
        branch: usize,
        items: &'a [Value],
    ) -> Result<(), NoMemory>
        ensures { OnOk result (met_of self.new
            ≡ leaves_met (labels_of labels.now) branch items.now (met_of self.old)) }
    {
        for item in items {
            self.note_leaf(labels, branch, item)?;
        }
        Ok(())
    }
}

// Whether a leaf may count those of the branch behind these.
fn can_count_behind(branches: &Branches, leaf: &MetLeaf) -> bool
    ensures { result ≡ can_count_behind branches.now (leaf_of leaf.now) }
{
    leaf.counts && (leaf.branch == branches.len() || says_values(branches, leaf.branch))
}

// Whether entries of a branch say the values of its leaves.
fn says_values(branches: &Branches, k: usize) -> bool
    ensures { result ≡ says_values (slice_get branches.now k) }
{
    match branches.get(k) {
        Some(branch) => branch.refused.is_none() && matches!(branch.def.shape, Shape::Leaves(_)),
        None => false,
    }
}

/// The name of an object, empty where it is lacking.
pub(crate) fn name_said<'a>(object: Option<&'a Value>) -> &'a [u8]
    ensures { result.now ≡ name_said (option_copied object.entry) }
{
    match object {
        Some(object) => name_member(b"fName", object).unwrap_or(&[]),
        None => &[],
    }
}

fn counts(object: Option<&Value>) -> bool
    ensures { result ≡ (object_met 0 None (option_copied object.entry)).counts }
{
    match object {
        Some(object) => match leaf_said(object) {
            Some(said) => is_plain_number(&said),
            None => false,
        },
        None => false,
    }
}

fn met_leaf<'a>(branch: usize, label: Option<u32>, object: Option<&'a Value>) -> MetLeaf<'a>
    ensures { leaf_of result ≡ object_met branch label (option_copied object.entry) }
{
    MetLeaf {
        branch,
        label,
        name: name_said(object),
        counts: counts(object),
    }
}
