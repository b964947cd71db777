//! What a branch in a header says.
ghost use Rattle.std.specs.Prelude.{◌≡◌};
ghost use Rattle.std.specs.List.{list_all};
ghost use Rattle.std.specs.Option.{option_copied, option_map};
ghost use Rattle.std.specs.Result.{result_map_both};
ghost use Rattle.rio_tree.specs.BranchMembers.{basket_count, branch_said, class_version_said, entry_class, leaf_items};
ghost use Rattle.rio_tree.specs.Refusals.{has_leaf_class, is_null, readable_branch};
ghost use Rattle.rio_tree.specs.Tables.{branch_of, labels_of};

use crate::BranchRefusal;
use crate::labels::LabelTable;
use crate::leaf::leaf_at_pointer;
use crate::members::{
    i32_member, i32s_member, i64_member, i64s_member, name_member, pointers_member,
};
use rio_format::Value;

/// What a branch says that has all members that are needed. `class` is the class of its entries, if it is a branch of
/// objects.
#[derive(Clone, Copy)]
pub(crate) struct BranchSaid<'a> {
    pub(crate) class: Option<&'a [u8]>,
    pub(crate) write_basket: i32,
    pub(crate) entries: i64,
    pub(crate) branches: &'a [Value],
    pub(crate) leaves: &'a [Value],
    pub(crate) baskets: &'a [Value],
    pub(crate) bytes: &'a [Value],
    pub(crate) firsts: &'a [Value],
    pub(crate) seeks: &'a [Value],
}

// The class of the entries of a branch of objects, and no class for another branch. None where the object is no branch, or
// says no class.
fn entry_class(value: &Value) -> Option<Option<&[u8]>>
    ensures { option_map option_copied result ≡ entry_class value.now }
{
    let class = value.class();
    if class == b"TBranch".as_slice() {
        Some(None)
    } else if class == b"TBranchElement".as_slice() && value.version() == 110 {
        match name_member(b"fClassName", value) {
            Some(class) => Some(Some(class)),
            None => None,
        }
    } else {
        None
    }
}

fn basket_count(write_basket: i32) -> usize
    ensures { result ≡ basket_count write_basket }
{
    usize::try_from(write_basket).unwrap_or(0)
}

/// What a branch says. None where the object is no branch, or a member that is needed is lacking.
#[tactic(auto, unfolding(crate::specs::BranchMembers::branch_said))]
fn branch_said(value: &Value) -> Option<BranchSaid<'_>>
    ensures { option_map branch_of result ≡ branch_said value.now }
{
    let class = entry_class(value)?;
    let _name = name_member(b"fName", value)?;
    let write_basket = i32_member(b"fWriteBasket", value)?;
    let entries = i64_member(b"fEntries", value)?;
    let branches = pointers_member(b"fBranches", value)?;
    let leaves = pointers_member(b"fLeaves", value)?;
    let baskets = pointers_member(b"fBaskets", value)?;
    let used = basket_count(write_basket);
    let bytes = i32s_member(b"fBasketBytes", used, value)?;
    let firsts = i64s_member(b"fBasketEntry", used, value)?;
    let seeks = i64s_member(b"fBasketSeek", used, value)?;
    Some(BranchSaid {
        class,
        write_basket,
        entries,
        branches,
        leaves,
        baskets,
        bytes,
        firsts,
        seeks,
    })
}

fn are_null(items: &[Value]) -> bool
    ensures { result ≡ list_all is_null items.now }
{
    items.iter().all(|item| matches!(item, Value::Null))
}

fn have_leaf_class<'a>(labels: &LabelTable<'a>, items: &'a [Value]) -> bool
    ensures { result ≡ list_all (has_leaf_class (labels_of labels.now)) items.now }
{
    for item in items {
        if leaf_at_pointer(labels, item).is_none() {
            return false;
        }
    }
    true
}

/// What a branch says, which has all its members, no branches of its own, no basket in the header, and no leaf of another
/// class than those of leaves.
#[tactic(auto, unfolding(crate::specs::Refusals::readable_branch))]
pub(crate) fn readable_branch<'a>(
    labels: &LabelTable<'a>,
    item: &'a Value,
) -> Result<BranchSaid<'a>, BranchRefusal>
    ensures { result_map_both branch_of (λ why. why) result
        ≡ readable_branch (labels_of labels.now) item.now }
{
    let Some(object) = labels.object_behind(item) else {
        return Err(BranchRefusal::BranchClass);
    };
    let Some(said) = branch_said(object) else {
        return Err(BranchRefusal::BranchClass);
    };
    if !said.branches.is_empty() {
        return Err(BranchRefusal::SubBranches);
    }
    if !are_null(said.baskets) {
        return Err(BranchRefusal::EmbeddedBasket);
    }
    if !have_leaf_class(labels, said.leaves) {
        return Err(BranchRefusal::LeafClass);
    }
    Ok(said)
}

/// The items of the leaves of a branch, none where they are lacking.
pub(crate) fn leaf_items<'a>(object: Option<&'a Value>) -> &'a [Value]
    ensures { result.now ≡ leaf_items (option_copied object.entry) }
{
    match object {
        Some(object) => pointers_member(b"fLeaves", object).unwrap_or(&[]),
        None => &[],
    }
}

/// The version of the class of a branch of objects, 0 where it is lacking.
pub(crate) fn class_version_said(object: Option<&Value>) -> i32
    ensures { result ≡ class_version_said (option_copied object.entry) }
{
    match object {
        Some(object) => i32_member(b"fClassVersion", object).unwrap_or(0),
        None => 0,
    }
}
