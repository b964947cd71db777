//! The header in a tree's record.
ghost use Rattle.std.specs.Prelude.{◌≡◌, ◌<◌, ◌^◌, length, ℕ, List, Some, IfOk, IfSome};
ghost use Rattle.std.specs.List.{list_any};
ghost use Rattle.rio_num.specs.At.{AreBytes};
ghost use Rattle.rio_format.specs.Objects.{first_at};
ghost use Rattle.rio_host.specs.Host.{IsWithin};
ghost use Rattle.rio_host.specs.OnlyReads.{OnlyReads};
ghost use Rattle.rio_machine.specs.Limits.{has_many_branches, has_many_leaves};
ghost use Rattle.rio_model.specs.Declaring.{is_declared, shape_lacks_class};
ghost use Rattle.rio_state.specs.KeyedRecords.{KeyedRecord};
ghost use Rattle.rio_state.specs.Trees.{can_be_branches, header_by, header_in, is_written_header};
ghost use Rattle.rio_tree.specs.WrittenLaws.{stated_defs};
ghost use Rattle.rio_recover.specs.Causes.{IsRecoverCause, Obtains};
ghost use Rattle.rio_recover.specs.Checks.{AreDataBytes};
ghost use Rattle.rio_recover.specs.Classes.{classes_in};
ghost use Rattle.rio_recover.specs.Keys.{StandsIn, record_end};
ghost use Rattle.rio_recover.specs.Trees.{IsReadHead, padded_in, written_head};

use crate::RecoverFault;
use crate::classes::ListedClasses;
use crate::object::{is_padding, record_bytes};
use rio_format::{Classes, ObjFault, ObjReader, Value};
use rio_host::Host;
use rio_key::KeyHead;
use rio_leaf::{BranchDef, BranchDefs, Shape, are_stated};
use rio_machine::{BRANCH_LIMIT, LEAF_LIMIT};
use rio_num::NoMemory;
use rio_read::read_next;
use rio_tree::{Branch, TreeFault, TreeHead, read_tree, tree_value};
use std::alloc::Global;

/// The branches of a header as a line of a script declares them.
pub fn stated_defs(alloc: Global, branches: &[Branch]) -> Result<BranchDefs, NoMemory>
    ensures { IfOk result (λ defs. defs ≡ stated_defs branches.now) }
{
    let mut defs = BranchDefs::new(alloc);
    for branch in branches {
        defs.push(branch.def.copy()?)?;
    }
    Ok(defs)
}

fn has_many_leaves(shape: &Shape) -> bool
    ensures { result ≡ has_many_leaves shape.now }
{
    match shape {
        Shape::Leaves(leaves) => leaves.len() > LEAF_LIMIT,
        Shape::Class(_) => false,
    }
}

fn has_wide_branch(branches: &[BranchDef]) -> bool
    ensures { result ≡ list_any (λ b. has_many_leaves b.shape) branches.now }
{
    branches.iter().any(|branch| has_many_leaves(&branch.shape))
}

fn has_many_branches(branches: &BranchDefs) -> bool
    ensures { result ≡ has_many_branches branches.now }
{
    branches.len() > BRANCH_LIMIT || has_wide_branch(branches.as_slice())
}

fn is_declared(classes: &Classes, name: &[u8]) -> bool
    ensures { result ≡ is_declared classes.now name.now }
{
    classes.newest(name).is_some()
}

// Whether it holds objects of a class that isn't declared.
fn lacks_class(classes: &Classes, shape: &Shape) -> bool
    ensures { result ≡ shape_lacks_class classes.now shape.now }
{
    match shape {
        Shape::Leaves(_) => false,
        Shape::Class(class) => !is_declared(classes, class.as_slice()),
    }
}

fn lack_classes(classes: &Classes, branches: &[BranchDef]) -> bool
    ensures { result ≡ list_any (λ b. shape_lacks_class classes.now b.shape) branches.now }
{
    branches
        .iter()
        .any(|branch| lacks_class(classes, &branch.shape))
}

// Whether a tree can be declared with these branches. The limits are tested first, since the other test takes
// time that grows with the square of the number of leaves.
fn can_be_branches(classes: &Classes, branches: &BranchDefs) -> bool
    ensures { result ≡ can_be_branches classes.now branches.now }
{
    if has_many_branches(branches) {
        return false;
    }
    are_stated(branches) && !lack_classes(classes, branches.as_slice())
}

// Whether the value is the header that is written for what it says of a tree of this name.
#[tactic(auto, unfolding(rio_state::specs::Trees::is_written_header))]
fn is_written_header(
    alloc: Global,
    classes: &Classes,
    name: &[u8],
    value: &Value,
    head: &TreeHead,
) -> Result<bool, NoMemory>
    ensures { IfOk result
        (λ b. b ≡ is_written_header classes.now name.now value.now head.now) }
{
    let defs = stated_defs(alloc, head.branches.as_slice())?;
    if !can_be_branches(classes, &defs) {
        return Ok(false);
    }
    Ok(*value == tree_value(alloc, name, head)?)
}

// What the value says of a tree of this name, where it is the header that is written for that.
fn written_head(
    alloc: Global,
    classes: &Classes,
    name: &[u8],
    value: &Value,
) -> Result<Option<TreeHead>, NoMemory>
    ensures { IfOk result (λ found. found ≡ written_head classes.now name.now value.now) }
{
    let head = match read_tree(alloc, value) {
        Ok(head) => head,
        Err(TreeFault::NoMemory) => return Err(NoMemory),
        Err(_) => return Ok(None),
    };
    if is_written_header(alloc, classes, name, value, &head)? {
        Ok(Some(head))
    } else {
        Ok(None)
    }
}

// The value in these data, where this is their record's key, with at most three zero bytes behind it.
fn padded_value(
    alloc: Global,
    classes: &Classes,
    head: &KeyHead,
    contents: &[u8],
) -> Result<Option<Value>, NoMemory>
    requires { length contents.now < 2 ^ 32 }
    ensures { IfOk result (λ found. found ≡ padded_in
        (first_at classes.now head.now.class head.now.keylen contents.now)) }
{
    let mut reader = ObjReader::new(alloc, contents, u64::from(head.keylen));
    match read_next(alloc, classes, &mut reader, head.class.as_slice()) {
        Ok(value) => {
            if is_padding(&mut reader) {
                Ok(Some(value))
            } else {
                Ok(None)
            }
        }
        Err(ObjFault::NoMemory) => Err(NoMemory),
        Err(_) => Ok(None),
    }
}

// What the header says that stands in these data, where this is their record's key.
fn header_in_data(
    alloc: Global,
    classes: &ListedClasses,
    head: &KeyHead,
    contents: &[u8],
) -> Result<Option<TreeHead>, NoMemory>
    requires { length contents.now < 2 ^ 32 }
    ensures header { IfOk result (λ found. found ≡ header_by classes.now.registry head.now.name
        (first_at classes.now.described head.now.class head.now.keylen contents.now)) }
    ensures plain { AreBytes contents.now }
{
    let padded = padded_value(alloc, &classes.described, head, contents)?;
    match padded {
        Some(value) => {
            let declared = classes.registry.classes();
            written_head(alloc, declared, head.name.as_slice(), &value)
        }
        None => Ok(None),
    }
}

/// What the header says that stands in the record with this key, where it is the header that is written for a
/// tree of its name, with branches that a tree can be declared with.
pub(crate) fn read_header<H: Host>(
    alloc: Global,
    host: &mut H,
    classes: &ListedClasses,
    head: &KeyHead,
) -> Result<Option<TreeHead>, RecoverFault>
    requires { IsWithin (H.view host.old) (record_end head.now) }
    ensures header { (file : List ℕ) (r : KeyedRecord) → (H.view host.old).holds ≡ Some file
        → StandsIn file r → r.head ≡ head.now
        → Obtains result (λ found. found ≡ header_in (classes_in classes.now) r) }
    ensures plain { (file : List ℕ) (r : KeyedRecord) → (H.view host.old).holds ≡ Some file
        → StandsIn file r → r.head ≡ head.now → IfOk result (λ _. AreDataBytes r) }
    // Whatever the host tells.
    ensures read { IfOk result (λ found. IfSome found IsReadHead) }
    ensures calls { OnlyReads (H.view host.old) (H.view host.new) }
    ensures cause { IsRecoverCause (H.view host.old) (H.view host.new) result }
{
    let bytes = record_bytes(alloc, host, head)?;
    Ok(header_in_data(alloc, classes, head, head.data_of(&bytes))?)
}
