//! The header of a tree is read.
ghost use Rattle.std.specs.Prelude.{◌≡◌, ◌≢◌, [], IfOk};
ghost use Rattle.rio_num.specs.Answers.{GivesUnless};
ghost use Rattle.rio_tree.specs.Header.{branches_from, entries_member, tree_head_in};
ghost use Rattle.rio_tree.specs.HeaderLeaves.{no_leaves_met};
ghost use Rattle.rio_tree.specs.Tables.{labels_of};
ghost use Rattle.rio_tree.specs.declared.fault.TreeFault.TheVariants.{MissingMember as Lacks, NoMemory as OutOfMemory};

use crate::branch::read_branch;
use crate::labels::LabelTable;
use crate::members::{i64_member, pointers_member};
use crate::met::MetTable;
use crate::{Branches, TreeFault, TreeHead};
use rio_format::Value;
use rio_num::{Name, NoMemory};
use std::alloc::Global;

fn entries_member(value: &Value) -> Option<u64>
    ensures { result ≡ entries_member value.now }
{
    u64::try_from(i64_member(b"fEntries", value)?).ok()
}

fn missing(alloc: Global, member: &[u8]) -> TreeFault
    ensures { result ≢ OutOfMemory → result ≡ Lacks member.now }
{
    match Name::from_slice(alloc, member) {
        Ok(member) => TreeFault::MissingMember { member },
        Err(_) => TreeFault::NoMemory,
    }
}

fn read_branches<'a>(
    alloc: Global,
    entries: u64,
    labels: &LabelTable<'a>,
    items: &'a [Value],
) -> Result<Branches, NoMemory>
    ensures { IfOk result (λ branches. branches
        ≡ branches_from entries (labels_of labels.now) items.now [] no_leaves_met) }
{
    let mut branches = Branches::new(alloc);
    let mut met = MetTable::new(alloc);
    for item in items {
        let branch = read_branch(alloc, entries, labels, &branches, &mut met, item)?;
        branches.push(branch)?;
    }
    Ok(branches)
}

/// What the value of a tree's record says of the tree: how many entries it has and its branches, each with why it can't be
/// read, as far as the header tells.
///
/// Members are found by name, in bases too, and pointers that refer to an object stand for it. MissingMember names the
/// first needed member that the tree lacks: fEntries, which must not be below 0, or fBranches.
#[tactic(auto, unfolding(crate::specs::Header::tree_head_in))]
pub fn read_tree(alloc: Global, value: &Value) -> Result<TreeHead, TreeFault>
    ensures { GivesUnless OutOfMemory (λ tree. tree) result (tree_head_in value.now) }
{
    let Some(entries) = entries_member(value) else {
        return Err(missing(alloc, b"fEntries"));
    };
    let Some(items) = pointers_member(b"fBranches", value) else {
        return Err(missing(alloc, b"fBranches"));
    };
    let labels = LabelTable::of_value(alloc, value)?;
    let branches = read_branches(alloc, entries, &labels, items)?;
    Ok(TreeHead { entries, branches })
}
