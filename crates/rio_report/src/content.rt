//! The line of a key, and what its record holds.
ghost use Rattle.std.specs.Prelude.{◌≡◌, ◌++◌, ℕ, List, Some, OnOk};
ghost use Rattle.rio_host.specs.Host.{IsLength};
ghost use Rattle.rio_host.specs.OnlyReads.{OnlyReads};
ghost use Rattle.rio_report.specs.Dump.{content_text, is_tree, stored_line};
ghost use Rattle.rio_close.specs.Causes.{IsCallCause};

use crate::tree_line::{put_tree, read_stored_tree};
use rio_close::{ReportFault, read_up_to};
use rio_format::Classes;
use rio_host::Host;
use rio_key::KeyHead;
use rio_num::Bytes;
use rio_reply::{put_item, put_stored};
use std::alloc::Global;

/// Whether the key is a tree's.
pub(crate) fn is_tree(key: &KeyHead) -> bool
    ensures { result ≡ is_tree key.now }
{
    key.class.as_slice() == b"TTree".as_slice()
}

// Puts what the key's record holds at the end. The record isn't read where it is compressed.
fn put_content<H: Host>(
    alloc: Global,
    host: &mut H,
    file_length: u64,
    classes: &Classes,
    key: &KeyHead,
    text: &mut Bytes,
) -> Result<(), ReportFault>
    requires { IsLength (H.view host.old) file_length }
    ensures content { OnOk result ((file : List ℕ) → (H.view host.old).holds ≡ Some file
        → text.new.bytes ≡ text.old.bytes ++ content_text file classes.now key.now) }
    ensures calls { OnlyReads (H.view host.old) (H.view host.new) }
    ensures cause { IsCallCause (H.view host.old) (H.view host.new) result }
{
    if key.is_compressed() {
        text.put(b"compressed")?;
        return Ok(());
    }
    if is_tree(key) {
        let tree = read_stored_tree(alloc, host, file_length, classes, key)?;
        put_tree(text, &tree)?;
        return Ok(());
    }
    let bytes = read_up_to(
        alloc,
        host,
        file_length,
        key.seek,
        key.nbytes.cast_unsigned(),
    )?;
    put_stored(alloc, text, classes, key, &bytes)?;
    Ok(())
}

/// Puts the key's line at the end: `NAME;CYCLE` and what its record holds.
pub(crate) fn put_stored_line<H: Host>(
    alloc: Global,
    host: &mut H,
    file_length: u64,
    classes: &Classes,
    key: &KeyHead,
    text: &mut Bytes,
) -> Result<(), ReportFault>
    requires { IsLength (H.view host.old) file_length }
    ensures line { OnOk result ((file : List ℕ) → (H.view host.old).holds ≡ Some file
        → text.new.bytes ≡ text.old.bytes ++ stored_line file classes.now key.now) }
    ensures calls { OnlyReads (H.view host.old) (H.view host.new) }
    ensures cause { IsCallCause (H.view host.old) (H.view host.new) result }
{
    put_item(text, key.name.as_slice(), key.cycle)?;
    text.put(b" ")?;
    put_content(alloc, host, file_length, classes, key, text)?;
    text.put(b"\n")?;
    Ok(())
}
