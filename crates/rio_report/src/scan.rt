//! What `scan` and `export` say of a file.
ghost use Rattle.std.specs.Prelude.{◌≡◌, ◌++◌, ℕ, List, Ok, Err, Some, None, true, IfOk, MatchResult, length};
ghost use Rattle.std.specs.Option.{option_copied};
ghost use Rattle.rio_close.specs.Causes.{AnyKind, NoKind};
ghost use Rattle.rio_host.specs.Host.{IsLength};
ghost use Rattle.rio_dir.specs.Table.{is_of_name};
ghost use Rattle.rio_machine.specs.RefusalText.{refusal_text};
ghost use Rattle.rio_entry.specs.Refusals.{refusals_of};
ghost use Rattle.rio_report.specs.RowForms.{row_form, rows_refusal};
ghost use Rattle.rio_entry.specs.BranchRows.{rows_of};
ghost use Rattle.rio_report.specs.Scan.{count_line, found_tree, key_scan, row_lines, scan_text, scanned_file, tree_key, tree_lines, unread_line};
ghost use Rattle.rio_report.specs.Gathered.{SaysByLine, ends_line};
ghost use Rattle.rio_report.specs.Lists.{InPieces, IsDone, Lists, Refuses, SaysFront, SaysWholeLines, StaysSilent};
ghost use Rattle.rio_report.specs.PiecesCause.{IsPiecesCauseOf};

use crate::content::is_tree;
use crate::described::{Described, open_described};
use crate::item::{greater_cycle, has_any, is_of_name};
use crate::pieces::{say_held, say_refusal};
use crate::row_form::RowForm;
use crate::row_refusal::find_rows_refusal;
use crate::scan_rows::gather_rows;
use crate::scan_text::{put_count, put_refused_lines};
use crate::tree_line::read_stored_tree;
use rio_close::ReportFault;
use rio_entry::{BranchRefusals, FileTree, TreeCounters, empty_lanes, find_refusals};
use rio_format::{Base, Classes};
use rio_host::Host;
use rio_key::KeyHead;
use rio_machine::{Refusal, print_refusal};
use rio_num::{Bytes, NoMemory};
use rio_reply::put_item;
use rio_tree::TreeHead;
use std::alloc::Global;

/// The key of the tree of the name, of the greatest cycle, the first of several.
pub(crate) fn tree_key<'a>(keys: &'a [KeyHead], name: &[u8]) -> Option<&'a KeyHead>
    ensures { option_copied result ≡ tree_key name.now keys.now }
{
    let mut best: Option<&KeyHead> = None;
    for key in keys {
        if is_tree(key) && is_of_name(key, name) {
            best = greater_cycle(best, key);
        }
    }
    best
}

// The key of a tree, or why there is none.
fn found_tree<'a>(keys: &'a [KeyHead], name: &[u8]) -> Result<&'a KeyHead, Refusal>
    ensures { MatchResult result (λ key. found_tree name.now keys.now ≡ Ok key.now)
        (λ refusal. found_tree name.now keys.now ≡ Err refusal) }
{
    match tree_key(keys, name) {
        Some(key) => Ok(key),
        None if has_any(keys, name) => Err(Refusal::NotATree),
        None => Err(Refusal::NoSuchName),
    }
}

// The line of a key whose tree isn't read.
fn unread_text(alloc: Global, key: &KeyHead, instead: &[u8]) -> Result<Bytes, NoMemory>
    ensures { IfOk result (λ text. text.bytes ≡ unread_line key.now instead.now) }
{
    let mut text = Bytes::new(alloc);
    put_item(&mut text, key.name.as_slice(), key.cycle)?;
    text.put(b" ")?;
    text.put(instead)?;
    text.put(b"\n")?;
    Ok(text)
}

// Says the line of a key whose tree isn't read.
fn say_unread<H: Host>(
    alloc: Global,
    host: &mut H,
    key: &KeyHead,
    instead: &[u8],
) -> Result<(), ReportFault>
    ensures says { SaysByLine (λ file. unread_line key.now instead.now)
        (H.view host.old) (H.view host.new) result }
    ensures cause { IsPiecesCauseOf NoKind (H.view host.old) (H.view host.new) result }
{
    let text = unread_text(alloc, key, instead)?;
    say_held(host, &text)
}

// Says the number of entries and the rows in their form, behind what is held.
fn say_rows<H: Host>(
    alloc: Global,
    host: &mut H,
    tree: &FileTree,
    form: &RowForm,
    name: &[u8],
    entries: u64,
    refusals: &BranchRefusals,
    held: &mut Bytes,
) -> Result<(), ReportFault>
    requires length { IsLength (H.view host.old) tree.now.file_length }
    requires count { length refusals.now ≡ length tree.now.branches.now }
    requires refusals { (file : List ℕ) → (H.view host.old).holds ≡ Some file
        → refusals.now ≡ refusals_of file tree.now.classes.now entries tree.now.branches.now }
    requires had { (file : List ℕ) → (H.view host.old).holds ≡ Some file
        → rows_refusal tree.now.classes.now form.now.class
        (rows_of file tree.now.classes.now tree.now.branches.now refusals.now entries) ≡ None }
    requires ends { ends_line held.old.bytes ≡ true }
    ensures says { SaysByLine (λ file. held.old.bytes ++ (count_line form.now.csv name.now entries
        ++ row_lines form.now file tree.now.classes.now
        tree.now.branches.now refusals.now entries))
        (H.view host.old) (H.view host.new) result }
    ensures cause { IsPiecesCauseOf NoKind (H.view host.old) (H.view host.new) result }
{
    let lanes = empty_lanes(alloc, tree.branches.len())?;
    put_count(held, form, name, entries)?;
    gather_rows(alloc, host, tree, form, entries, refusals, lanes, held)?;
    say_held(host, held)
}

// Says why the rows can't be had, behind what is held.
fn say_rows_refusal<H: Host>(
    host: &mut H,
    refusal: &Refusal,
    held: &mut Bytes,
) -> Result<(), ReportFault>
    ensures says { SaysByLine (λ file. held.old.bytes ++ refusal_text refusal.now)
        (H.view host.old) (H.view host.new) result }
    ensures cause { IsPiecesCauseOf NoKind (H.view host.old) (H.view host.new) result }
{
    print_refusal(refusal, held)?;
    say_held(host, held)
}

// Says the branches that aren't read, and then why the rows can't be had in the form, or the rows.
fn say_tree<H: Host>(
    alloc: Global,
    host: &mut H,
    file_length: u64,
    classes: &Classes,
    form: &RowForm,
    name: &[u8],
    head: &TreeHead,
) -> Result<(), ReportFault>
    requires { IsLength (H.view host.old) file_length }
    ensures says { SaysByLine (λ file. tree_lines form.now file classes.now name.now head.now)
        (H.view host.old) (H.view host.new) result }
    ensures cause { IsPiecesCauseOf NoKind (H.view host.old) (H.view host.new) result }
{
    let branches = head.branches.as_slice();
    let counters = TreeCounters::new(alloc, branches)?;
    let tree = FileTree {
        file_length,
        classes,
        branches,
        counters: &counters,
    };
    let refusals = find_refusals(alloc, host, &tree, head.entries)?;
    let refusal = find_rows_refusal(alloc, host, &tree, form, head.entries, &refusals)?;
    let mut held = Bytes::new(alloc);
    put_refused_lines(&mut held, branches, refusals.as_slice())?;
    match refusal {
        Some(refusal) => say_rows_refusal(host, &refusal, &mut held),
        None => say_rows(
            alloc,
            host,
            &tree,
            form,
            name,
            head.entries,
            &refusals,
            &mut held,
        ),
    }
}

// Says what there is to say of the tree of a key.
fn say_tree_key<H: Host>(
    alloc: Global,
    host: &mut H,
    file_length: u64,
    classes: &Classes,
    form: &RowForm,
    key: &KeyHead,
) -> Result<(), ReportFault>
    requires { IsLength (H.view host.old) file_length }
    ensures says { SaysByLine (λ file. key_scan form.now file classes.now key.now)
        (H.view host.old) (H.view host.new) result }
    ensures cause { IsPiecesCauseOf NoKind (H.view host.old) (H.view host.new) result }
{
    if key.is_compressed() {
        return say_unread(alloc, host, key, b"compressed");
    }
    match read_stored_tree(alloc, host, file_length, classes, key)? {
        Ok(head) => say_tree(
            alloc,
            host,
            file_length,
            classes,
            form,
            key.name.as_slice(),
            &head,
        ),
        Err(instead) => say_unread(alloc, host, key, instead.as_slice()),
    }
}

// Says what there is to say of a file that breaks no rule.
fn say_described_tree<H: Host>(
    alloc: Global,
    host: &mut H,
    file_length: u64,
    described: &Described,
    form: &RowForm,
    name: &[u8],
) -> Result<(), ReportFault>
    requires { IsLength (H.view host.old) file_length }
    ensures says { SaysByLine (λ file. scan_text form.now file name.now described.now)
        (H.view host.old) (H.view host.new) result }
    ensures cause { IsPiecesCauseOf NoKind (H.view host.old) (H.view host.new) result }
{
    match found_tree(described.closed.keys.as_slice(), name) {
        Ok(key) => say_tree_key(alloc, host, file_length, &described.classes, form, key),
        Err(refusal) => say_refusal(alloc, host, &refusal),
    }
}

// What `say_scan` does, with the clauses of its record apart, for the prover.
fn say_file_tree<H: Host>(
    alloc: Global,
    host: &mut H,
    form: &RowForm,
    tree: &[u8],
) -> Result<(), ReportFault>
    ensures done { IsDone (scanned_file form.now tree.now)
        (H.view host.old) (H.view host.new) result }
    ensures refused { Refuses (scanned_file form.now tree.now) (H.view host.old) result }
    ensures calls { SaysFront InPieces (scanned_file form.now tree.now)
        (H.view host.old) (H.view host.new) }
    ensures silent { StaysSilent InPieces (H.view host.old) (H.view host.new) result }
    ensures lines { SaysWholeLines InPieces (H.view host.old) (H.view host.new) result }
    ensures cause { IsPiecesCauseOf AnyKind (H.view host.old) (H.view host.new) result }
{
    let file_length = host.length()?;
    let described = open_described(alloc, host, file_length)?;
    say_described_tree(alloc, host, file_length, &described, form, tree)
}

/// Says the rows of the tree of a name, which is the one of the greatest cycle. A line `branch NAME refused KIND` for
/// each branch that isn't read comes first, then `ok scan NAME COUNT`, where COUNT is how many entries the tree has, and
/// then a line `NUMBER ROW` for each, where ROW lists the values of the branches that are read. As CSV no such line is said,
/// and the rows are the lines that `print_row` of `rio_csv` prints. Where there is no such tree it says `no 3 NoSuchName` or
/// `no 6 NotATree`, and where its key is compressed, or its record is no tree's header, what `dump` says of the key.
///
/// Where a class is asked, the rows have each object of it as it is in that version (`as_version` of `rio_map`). Behind the
/// lines of the branches that aren't read it then says `no 8 NoSuchClass` where the file's class list has no class of the name,
/// `no 13 KindChanged` and the base or member where one in a row can't be had in the version, and `no 14 NoVersion` where the
/// class hasn't the version; then it says no row.
///
/// BadFile is the first rule that the header, the directory record, the key list or the class list breaks: they are read
/// first, and then nothing was said. Each basket is read to see which branches are read, and then the rows are gone
/// through twice, once to see whether all entries are read, and once to say them, and where a class is asked once more
/// between these; at most one basket of each branch is held. The lines are gathered and said some 64 KiB at a time. Where
/// memory or a call on the file fails while the rows are said, the lines that are complete are said before that fault is
/// returned; only where saying them fails is the last one cut. Over a host whose file changes, a row that isn't read any more
/// is said as `NUMBER fault` and why.
pub fn say_scan<H: Host>(
    alloc: Global,
    host: &mut H,
    tree: &[u8],
    class: Option<&Base>,
    csv: bool,
) -> Result<(), ReportFault>
    ensures { Lists InPieces AnyKind
        (scanned_file (row_form (option_copied class.entry) csv) tree.now)
        (H.view host.old) (H.view host.new) result }
{
    say_file_tree(alloc, host, &RowForm { class, csv }, tree)
}
