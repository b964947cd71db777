//! What there is to sum up of a tree in a file.
ghost use Rattle.std.specs.Prelude.{◌≡◌, ◌+ℤ◌, [], IfOk, drop, length, unwrap_or};
ghost use Rattle.std.specs.Int.{int_wrap, w128};
ghost use Rattle.rio_close.specs.Causes.{AnyKind, IsCallCause, IsHostCauseOf};
ghost use Rattle.rio_close.specs.Opens.{OpensTold};
ghost use Rattle.rio_format.specs.TreeClasses.{tree_classes};
ghost use Rattle.rio_gen.specs.Summary.{sum_of_row};
ghost use Rattle.rio_host.specs.Host.{IsLength};
ghost use Rattle.rio_host.specs.OnlyReads.{OnlyReads};
ghost use Rattle.rio_host.specs.Reading.{Told};
ghost use Rattle.rio_report.specs.Scan.{tree_key};
ghost use Rattle.rio_report.specs.Summary.{basket_count, declared_in, found_summary, key_summary, no_summary, summarized_file, summary_of_head, summary_to};

use crate::described::{Described, open_described};
use crate::scan::tree_key;
use crate::tree_line::read_stored_tree;
use rio_close::ReportFault;
use rio_entry::{FileTree, TreeCounters, empty_lanes, read_saved_row};
use rio_format::{ClassDef, Classes, Value, Values};
use rio_gen::add_integers;
use rio_host::Host;
use rio_key::KeyHead;
use rio_num::NoMemory;
use rio_tree::{Branch, TreeHead};
use std::alloc::Global;

// So many classes a class list describes first, those of trees.
const TREE_CLASSES: usize = 12;

/// A tree in a file: how many entries, branches and baskets its header has, and the sum of all integers in its rows, modulo
/// 2^128.
#[derive(Clone, Copy, Debug, PartialEq, Eq)]
pub struct TreeSummary {
    pub entries: u64,
    pub branches: u64,
    pub baskets: u64,
    pub sum: i128,
}

fn no_summary() -> TreeSummary
    ensures { result ≡ no_summary }
{
    TreeSummary {
        entries: 0,
        branches: 0,
        baskets: 0,
        sum: 0,
    }
}

// How many baskets the branches have. No memory holds more than a u64 counts.
fn count_baskets(branches: &[Branch]) -> Result<u64, NoMemory>
    ensures { IfOk result (λ count. count ≡ basket_count branches.now) }
{
    let mut count: u64 = 0;
    for branch in branches {
        match count.checked_add(branch.baskets.len() as u64) {
            Some(more) => count = more,
            None => return Err(NoMemory),
        }
    }
    Ok(count)
}

// The classes behind those of trees.
fn declared_in(classes: &[ClassDef]) -> &[ClassDef]
    ensures { result.now ≡ declared_in classes.now }
{
    if classes.len() < TREE_CLASSES {
        &[]
    } else {
        &classes[TREE_CLASSES..]
    }
}

fn copied(alloc: Global, classes: &[ClassDef]) -> Result<Classes, NoMemory>
    ensures { IfOk result (λ copies. copies ≡ classes.now) }
{
    let mut copies = Classes::new(alloc);
    for class in classes {
        copies.push(class.copy()?)?;
    }
    Ok(copies)
}

// The values of a row: none where there is no row.
fn row_values(row: &Option<Values>) -> &[Value]
    ensures { result.now ≡ unwrap_or row.now [] }
{
    match row {
        Some(values) => values.as_slice(),
        None => &[],
    }
}

// Adds the integers of a row.
fn add_row(summary: &mut TreeSummary, row: &Option<Values>)
    ensures { summary.new ≡ record summary.old {
      sum = int_wrap w128 (summary.old.sum +ℤ sum_of_row (unwrap_or row.now []));
    } }
{
    summary.sum = add_integers(summary.sum, row_values(row));
}

// Sums up the rows of a tree with so many entries and baskets, one after the other. One basket of each branch is held.
fn sum_rows<H: Host>(
    alloc: Global,
    host: &mut H,
    tree: &FileTree,
    entries: u64,
    baskets: u64,
) -> Result<TreeSummary, ReportFault>
    requires { IsLength (H.view host.old) tree.now.file_length }
    ensures summary { IfOk result (λ summary. Told (H.view host.old) (λ file. summary
        ≡ summary_to file tree.now.classes.now tree.now.branches.now entries baskets entries)) }
    ensures calls { OnlyReads (H.view host.old) (H.view host.new) }
    ensures cause { IsCallCause (H.view host.old) (H.view host.new) result }
{
    let mut lanes = empty_lanes(alloc, tree.branches.len())?;
    let mut summary = TreeSummary {
        entries,
        branches: tree.branches.len() as u64,
        baskets,
        sum: 0,
    };
    for entry in 0..entries {
        let row = read_saved_row(alloc, host, tree, entry, &mut lanes)?;
        add_row(&mut summary, &row);
    }
    Ok(summary)
}

// Sums up the tree with this header, in a file that describes these classes.
fn summary_of_head<H: Host>(
    alloc: Global,
    host: &mut H,
    file_length: u64,
    classes: &Classes,
    head: &TreeHead,
) -> Result<TreeSummary, ReportFault>
    requires { IsLength (H.view host.old) file_length }
    ensures summary { IfOk result (λ summary. Told (H.view host.old) (λ file.
        summary ≡ summary_of_head file classes.now head.now)) }
    ensures calls { OnlyReads (H.view host.old) (H.view host.new) }
    ensures cause { IsCallCause (H.view host.old) (H.view host.new) result }
{
    let branches = head.branches.as_slice();
    let baskets = count_baskets(branches)?;
    let declared = copied(alloc, declared_in(classes.as_slice()))?;
    let counters = TreeCounters::new(alloc, branches)?;
    let tree = FileTree {
        file_length,
        classes: &declared,
        branches,
        counters: &counters,
    };
    sum_rows(alloc, host, &tree, head.entries, baskets)
}

// Sums up the tree of a key. A record that isn't read is no tree.
fn key_summary<H: Host>(
    alloc: Global,
    host: &mut H,
    file_length: u64,
    classes: &Classes,
    key: &KeyHead,
) -> Result<TreeSummary, ReportFault>
    requires { IsLength (H.view host.old) file_length }
    ensures summary { IfOk result (λ summary. Told (H.view host.old) (λ file.
        summary ≡ key_summary file classes.now key.now)) }
    ensures calls { OnlyReads (H.view host.old) (H.view host.new) }
    ensures cause { IsCallCause (H.view host.old) (H.view host.new) result }
{
    if key.is_compressed() {
        return Ok(no_summary());
    }
    match read_stored_tree(alloc, host, file_length, classes, key)? {
        Ok(head) => summary_of_head(alloc, host, file_length, classes, &head),
        Err(_) => Ok(no_summary()),
    }
}

// Sums up the tree of a name in a file that breaks no rule.
fn found_summary<H: Host>(
    alloc: Global,
    host: &mut H,
    file_length: u64,
    described: &Described,
    tree: &[u8],
) -> Result<TreeSummary, ReportFault>
    requires { IsLength (H.view host.old) file_length }
    ensures summary { IfOk result (λ summary. Told (H.view host.old) (λ file. summary
        ≡ found_summary file described.now.classes (tree_key tree.now described.now.closed.keys))) }
    ensures calls { OnlyReads (H.view host.old) (H.view host.new) }
    ensures cause { IsCallCause (H.view host.old) (H.view host.new) result }
{
    match tree_key(described.closed.keys.as_slice(), tree) {
        Some(key) => key_summary(alloc, host, file_length, &described.classes, key),
        None => Ok(no_summary()),
    }
}

/// Sums up the tree of a name, which is the one of the greatest cycle: what its header says of entries, branches and baskets, and
/// the integers of its rows. A row counts where each branch has the entry, in a basket that has the entries that the header says,
/// and it is read and fits the branches by the classes that are declared in the file, as in a file that `run` made; other values
/// than integers count as 0. Where there is no such tree, or its record isn't read, all is 0. The baskets are read one after the
/// other; one of each branch is held.
///
/// BadFile is the first rule that the header, the directory record, the key list or the class list breaks. Nothing is said, and
/// the file stays as it is.
pub fn summarize_tree<H: Host>(
    alloc: Global,
    host: &mut H,
    tree: &[u8],
) -> Result<TreeSummary, ReportFault>
    ensures exact { OpensTold (H.view host.old) result (summarized_file tree.now) }
    ensures calls { OnlyReads (H.view host.old) (H.view host.new) }
    ensures cause { IsHostCauseOf AnyKind (H.view host.old) (H.view host.new) result }
{
    let file_length = host.length()?;
    let described = open_described(alloc, host, file_length)?;
    found_summary(alloc, host, file_length, &described, tree)
}
