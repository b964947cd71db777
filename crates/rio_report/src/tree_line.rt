//! The tree of a key: its header, and its line in a listing.
ghost use Rattle.std.specs.Prelude.{◌≡◌, ◌++◌, ◌<◌, ◌^◌, ℕ, List, Some, IfOk, OnOk, codes, drop, length};
ghost use Rattle.rio_format.specs.Objects.{value_at};
ghost use Rattle.rio_host.specs.Host.{IsLength};
ghost use Rattle.rio_host.specs.OnlyReads.{OnlyReads};
ghost use Rattle.rio_reply.specs.Told.{fault_text};
ghost use Rattle.rio_report.specs.Dump.{header_of_value, header_or_text, stored_tree, tree_fault_text, tree_text};
ghost use Rattle.rio_close.specs.Causes.{IsCallCause};
ghost use Rattle.rio_tree.specs.declared.fault.TreeFault.TheVariants.{MissingMember};
ghost use Rattle.rio_tree.specs.Header.{tree_head_in};
ghost use Rattle.rio_report.specs.TreeTexts.{IsFoundTree, TreeOrText};

use rio_close::{ReportFault, read_up_to};
use rio_format::{Classes, ObjFault, Value};
use rio_host::Host;
use rio_key::KeyHead;
use rio_num::{Bytes, NoMemory};
use rio_read::read_object;
use rio_tree::{TreeFault, TreeHead, read_tree};
use std::alloc::Global;

/// The header of a tree, or the text that is said in its place.
pub(crate) type FoundTree = Result<TreeHead, Bytes>;

// The text of a record that has no value.
fn object_fault_text(alloc: Global, fault: &ObjFault) -> Result<Bytes, NoMemory>
    ensures { IfOk result (λ text. text.bytes ≡ fault_text fault.now) }
{
    let mut text = Bytes::new(alloc);
    text.put(b"fault ")?;
    fault.put_text(&mut text)?;
    Ok(text)
}

// The text of a tree that lacks this member.
fn missing_member_text(alloc: Global, member: &[u8]) -> Result<Bytes, NoMemory>
    ensures { IfOk result
        (λ text. text.bytes ≡ codes "fault " ++ tree_fault_text (MissingMember member.now)) }
{
    let mut text = Bytes::new(alloc);
    text.put(b"fault MissingMember ")?;
    text.put_name(member)?;
    Ok(text)
}

// The header of the tree whose record is this value.
fn header_of(alloc: Global, value: &Value) -> Result<FoundTree, NoMemory>
    ensures { IfOk result (λ found. IsFoundTree found (header_or_text (tree_head_in value.now))) }
{
    match read_tree(alloc, value) {
        Ok(head) => Ok(Ok(head)),
        Err(TreeFault::MissingMember { member }) => {
            Ok(Err(missing_member_text(alloc, member.as_slice())?))
        }
        Err(TreeFault::NoMemory) => Err(NoMemory),
    }
}

// The header of the tree whose record has these bytes.
fn header_in(
    alloc: Global,
    classes: &Classes,
    key: &KeyHead,
    bytes: &[u8],
) -> Result<FoundTree, NoMemory>
    requires { length bytes.now < 2 ^ 32 }
    ensures { IfOk result (λ found. IsFoundTree found (header_of_value
        (value_at classes.now key.now.class key.now.keylen (drop key.now.keylen bytes.now)))) }
{
    let contents = key.data_of(bytes);
    let place = u64::from(key.keylen);
    match read_object(alloc, classes, key.class.as_slice(), contents, place) {
        Ok(value) => header_of(alloc, &value),
        Err(ObjFault::NoMemory) => Err(NoMemory),
        Err(fault) => Ok(Err(object_fault_text(alloc, &fault)?)),
    }
}

/// The header of the key's tree, or the text that is said in its place.
pub(crate) fn read_stored_tree<H: Host>(
    alloc: Global,
    host: &mut H,
    file_length: u64,
    classes: &Classes,
    key: &KeyHead,
) -> Result<FoundTree, ReportFault>
    requires { IsLength (H.view host.old) file_length }
    ensures found { IfOk result (λ found. (file : List ℕ)
        → (H.view host.old).holds ≡ Some file
        → IsFoundTree found (stored_tree file classes.now key.now)) }
    ensures calls { OnlyReads (H.view host.old) (H.view host.new) }
    ensures cause { IsCallCause (H.view host.old) (H.view host.new) result }
{
    let nbytes = key.nbytes.cast_unsigned();
    let bytes = read_up_to(alloc, host, file_length, key.seek, nbytes)?;
    Ok(header_in(alloc, classes, key, &bytes)?)
}

/// Puts what a tree's line says at the end.
pub(crate) fn put_tree(text: &mut Bytes, found: &FoundTree) -> Result<(), NoMemory>
    ensures { (tree : TreeOrText) → IsFoundTree found.now tree
        → OnOk result (text.new.bytes ≡ text.old.bytes ++ tree_text tree) }
{
    match found {
        Ok(head) => {
            text.put(b"TTree ")?;
            text.put_decimal(head.entries)
        }
        Err(instead) => text.put(instead.as_slice()),
    }
}
