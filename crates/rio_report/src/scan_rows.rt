//! The rows of a tree, gathered and said.
ghost use Rattle.std.specs.Prelude.{◌≡◌, ◌++◌, ◌<◌, ℕ, List, Some, OnOk, IsTrue, length};
ghost use Rattle.rio_host.specs.Host.{IsLength};
ghost use Rattle.rio_host.specs.OnlyReads.{OnlyReads};
ghost use Rattle.rio_close.specs.Causes.{IsCallCause, NoKind};
ghost use Rattle.rio_entry.specs.Refusals.{refusals_of};
ghost use Rattle.rio_report.specs.Scan.{IsHad, row_line, row_lines};
ghost use Rattle.rio_report.specs.Gathered.{Gathers};
ghost use Rattle.rio_report.specs.PiecesCause.{IsPiecesCauseOf};
ghost use Rattle.rio_entry.specs.Lanes.{AreLanes};
ghost use Rattle.rio_tree.specs.declared.head.Branch.{Branch as Branched};

use crate::pieces::{hold_line, say_before};
use crate::row_form::RowForm;
use crate::scan_text::{put_row, row_fault};
use rio_close::ReportFault;
use rio_entry::{BranchRefusals, FileTree, Lane, read_tree_row};
use rio_host::Host;
use rio_num::Bytes;
use rio_reply::put_row_fault;
use std::alloc::Global;

/// No branch is refused that wasn't before.
pub(crate) fn are_kept(refusals: &BranchRefusals, behind: &BranchRefusals) -> bool
    ensures { behind.now ≡ refusals.now → IsTrue result }
{
    for (k, refusal) in refusals.as_slice().iter().enumerate() {
        if refusal.is_none() && !matches!(behind.get(k), Some(None)) {
            return false;
        }
    }
    true
}

// Puts the line of a row at the end in its form. `entries` is how many the tree has.
fn put_row_line<H: Host>(
    alloc: Global,
    host: &mut H,
    tree: &FileTree,
    form: &RowForm,
    entry: u64,
    refusals: &BranchRefusals,
    lanes: &mut [Lane],
    text: &mut Bytes,
) -> Result<(), ReportFault>
    requires length { IsLength (H.view host.old) tree.now.file_length }
    requires refusals { length refusals.now ≡ length tree.now.branches.now }
    requires lanes { length lanes.old ≡ length tree.now.branches.now }
    ensures lanes { length lanes.new ≡ length lanes.old }
    ensures line { OnOk result ((file : List ℕ) → (H.view host.old).holds ≡ Some file
        → (entries : ℕ) → entry < entries
        → refusals.now ≡ refusals_of file tree.now.classes.now entries tree.now.branches.now
        → AreLanes file entry tree.now.branches.now lanes.old
        → IsHad form.now file tree.now.classes.now tree.now.branches.now refusals.now entry
        → text.new.bytes ≡ text.old.bytes ++ row_line form.now file tree.now.classes.now
        tree.now.branches.now refusals.now entry) }
    ensures kept { OnOk result ((file : List ℕ) → (H.view host.old).holds ≡ Some file
        → AreLanes file entry tree.now.branches.now lanes.old
        → AreLanes file entry tree.now.branches.now lanes.new) }
    ensures calls { OnlyReads (H.view host.old) (H.view host.new) }
    ensures cause { IsCallCause (H.view host.old) (H.view host.new) result }
{
    let row = read_tree_row(alloc, host, tree, entry, refusals.as_slice(), &[], lanes)?;
    if are_kept(refusals, &row.refusals) {
        let values = row.values.as_slice();
        put_row(
            alloc,
            tree.classes,
            form,
            entry,
            refusals.as_slice(),
            values,
            text,
        )?;
    } else {
        put_row_fault(text, entry, row_fault(lanes))?;
    }
    Ok(())
}

// Gathers the line of a row in its form, where these are why branches aren't read in the file that the host tells.
fn gather_row<H: Host>(
    alloc: Global,
    host: &mut H,
    tree: &FileTree,
    form: &RowForm,
    entries: u64,
    entry: u64,
    refusals: &BranchRefusals,
    lanes: &mut [Lane],
    line: &mut Bytes,
    held: &mut Bytes,
) -> Result<(), ReportFault>
    requires length { IsLength (H.view host.old) tree.now.file_length }
    requires within { entry < entries }
    requires count { length refusals.now ≡ length tree.now.branches.now }
    requires refusals { (file : List ℕ) → (H.view host.old).holds ≡ Some file
        → refusals.now ≡ refusals_of file tree.now.classes.now entries tree.now.branches.now }
    requires lanes { length lanes.old ≡ length tree.now.branches.now }
    requires held { (file : List ℕ) → (H.view host.old).holds ≡ Some file
        → AreLanes file entry tree.now.branches.now lanes.old }
    requires had { (file : List ℕ) → (H.view host.old).holds ≡ Some file
        → IsHad form.now file tree.now.classes.now tree.now.branches.now refusals.now entry }
    ensures lanes { length lanes.new ≡ length lanes.old }
    ensures kept { OnOk result ((file : List ℕ) → (H.view host.old).holds ≡ Some file
        → AreLanes file entry tree.now.branches.now lanes.new) }
    ensures says { Gathers held.old.bytes
        (λ file. row_line form.now file tree.now.classes.now
        tree.now.branches.now refusals.now entry)
        held.new.bytes (H.view host.old) (H.view host.new) result }
    ensures cause { IsPiecesCauseOf NoKind (H.view host.old) (H.view host.new) result }
{
    line.clear();
    match put_row_line(alloc, host, tree, form, entry, refusals, lanes, line) {
        Ok(()) => hold_line(alloc, host, line, held),
        Err(fault) => say_before(host, held, fault),
    }
}

/// Gathers a line for each row in its form, where these are why branches aren't read in the file that the host tells and
/// all rows are had in the form, over lanes that hold nothing. At most one basket of each branch is held.
pub(crate) fn gather_rows<H: Host>(
    alloc: Global,
    host: &mut H,
    tree: &FileTree,
    form: &RowForm,
    entries: u64,
    refusals: &BranchRefusals,
    fresh: Vec<Lane>,
    held: &mut Bytes,
) -> Result<(), ReportFault>
    requires length { IsLength (H.view host.old) tree.now.file_length }
    requires count { length refusals.now ≡ length tree.now.branches.now }
    requires refusals { (file : List ℕ) → (H.view host.old).holds ≡ Some file
        → refusals.now ≡ refusals_of file tree.now.classes.now entries tree.now.branches.now }
    requires had { (file : List ℕ) → (H.view host.old).holds ≡ Some file
        → (entry : ℕ) → entry < entries
        → IsHad form.now file tree.now.classes.now tree.now.branches.now refusals.now entry }
    requires width { length fresh.items ≡ length tree.now.branches.now }
    requires empty { (file : List ℕ) (e : ℕ) (branches : List Branched)
        → AreLanes file e branches fresh.items }
    ensures says { Gathers held.old.bytes
        (λ file. row_lines form.now file tree.now.classes.now
        tree.now.branches.now refusals.now entries)
        held.new.bytes (H.view host.old) (H.view host.new) result }
    ensures cause { IsPiecesCauseOf NoKind (H.view host.old) (H.view host.new) result }
{
    let mut lanes = fresh;
    let mut line = Bytes::new(alloc);
    for entry in 0..entries {
        gather_row(
            alloc, host, tree, form, entries, entry, refusals, &mut lanes, &mut line, held,
        )?;
    }
    Ok(())
}
