//! The saved rows of a tree that may be written to: every branch is read, every basket has the entries that the header says, and
//! every row fits.
ghost use Rattle.std.specs.Prelude.{◌≡◌, ◌+◌, ◌<◌, ◌^◌, ℕ, List, true, Some, IfOk, IfSome, IsTrue, OnOk, is_some, length, map};
ghost use Rattle.std.specs.List.{list_all, range_with_len};
ghost use Rattle.std.specs.Option.{option_copied, option_map};
ghost use Rattle.rio_host.specs.Host.{IsLength};
ghost use Rattle.rio_host.specs.OnlyReads.{OnlyReads};
ghost use Rattle.rio_host.specs.Reading.{IsReadCause, Told};
ghost use Rattle.rio_tree.specs.Index.{basket_number};
ghost use Rattle.rio_tree.specs.WrittenLaws.{stated_defs};
ghost use Rattle.rio_entry.specs.HeldLanes.{HoldEntry};
ghost use Rattle.rio_entry.specs.Lanes.{AreLanes, IsHeld};
ghost use Rattle.rio_tree.specs.SavedEntries.{all_there};
ghost use Rattle.rio_entry.specs.SavedRows.{AreByPlace, AreInOrder, file_baskets, filled_entry, have_entries, is_filled_at, is_whole, keyed_baskets, row_there, saved_rows};
ghost use Rattle.rio_machine.specs.RowEntries.{fitting_row};
ghost use Rattle.rio_entry.specs.TreeCounters.{tree_counters};

use crate::fitting::row_fits;
use crate::lane::{Lane, entry_there, hold};
use crate::part::RowPart;
use crate::records::have_baskets;
use crate::refusals::empty_lanes;
use crate::row::read_row;
use crate::row_reader::FileTree;
use crate::stored::{entry_behind, is_filled, out_of_memory};
use crate::tree_counters::TreeCounters;
use rio_format::{Classes, Values};
use rio_host::{Host, ReadFault};
use rio_key::KeyHead;
use rio_machine::EntryFault;
use rio_num::NoMemory;
use rio_tree::{BasketAt, Branch, TreeHead};
use std::alloc::Global;

// Holds the baskets of an entry, one of each branch.
fn hold_all<H: Host>(
    alloc: Global,
    host: &mut H,
    tree: &FileTree,
    entry: u64,
    lanes: &mut [Lane],
) -> Result<(), ReadFault>
    requires length { IsLength (H.view host.old) tree.now.file_length }
    requires lanes { length lanes.old ≡ length tree.now.branches.now }
    ensures lanes { length lanes.new ≡ length lanes.old }
    ensures held { OnOk result ((file : List ℕ) → (H.view host.old).holds ≡ Some file
        → AreLanes file entry tree.now.branches.now lanes.old
        → HoldEntry file entry (length tree.now.branches.now) tree.now.branches.now lanes.new) }
    ensures calls { OnlyReads (H.view host.old) (H.view host.new) }
    ensures cause { IsReadCause (H.view host.old) (H.view host.new) result }
{
    for k in 0..tree.branches.len() {
        let branch = &tree.branches[k];
        hold(alloc, host, tree.file_length, branch, entry, &mut lanes[k])?;
    }
    Ok(())
}

// Whether the basket that is held has the entries that the header says.
fn is_filled_at(branch: &Branch, lane: &Lane) -> bool
    ensures { (file : List ℕ) → IsTrue (is_some lane.now.basket)
        → IsHeld file branch.now lane.now.number lane.now.basket
        → result ≡ is_filled_at file branch.now lane.now.number }
{
    let baskets = branch.baskets.as_slice();
    match (baskets.get(lane.number), &lane.basket) {
        (Some(at), Some(found)) => {
            is_filled(
                at,
                entry_behind(baskets, lane.number, branch.entries),
                found,
            )
        }
        _ => false,
    }
}

// The entry in the basket that is held, if this has the entries that the header says.
fn filled_entry<'a>(branch: &Branch, lane: &'a Lane, entry: u64) -> Option<&'a [u8]>
    ensures there { (file : List ℕ) → lane.now.number ≡ basket_number entry branch.now.baskets
        → IsTrue (is_some lane.now.basket)
        → IsHeld file branch.now lane.now.number lane.now.basket
        → option_copied result ≡ filled_entry file branch.now entry }
    ensures short { IfSome result (λ bytes. length bytes.now < 2 ^ 32) }
{
    if is_filled_at(branch, lane) {
        entry_there(branch, lane, entry)
    } else {
        None
    }
}

// What a row is read of: the entry of each branch, in the baskets that are held. None where a branch hasn't it.
fn row_parts<'a>(
    alloc: Global,
    branches: &'a [Branch],
    counters: &'a TreeCounters,
    entry: u64,
    lanes: &'a [Lane],
) -> Result<Option<Vec<RowPart<'a>>>, NoMemory>
    requires counted { counters.now ≡ tree_counters branches.now }
    requires lanes { length lanes.now ≡ length branches.now }
    ensures branches { IfOk result (λ found. IfSome found (λ parts.
        map (λ part. part.branch.now) parts.items ≡ stated_defs branches.now)) }
    ensures entries { IfOk result (λ found. (file : List ℕ)
        → HoldEntry file entry (length branches.now) branches.now lanes.now
        → option_map (λ parts. map (λ part. part.entry.now) parts.items) found
        ≡ all_there (map (λ b. filled_entry file b entry) branches.now)) }
{
    let mut parts = Vec::new(alloc);
    for (k, branch) in branches.iter().enumerate() {
        match filled_entry(branch, &lanes[k], entry) {
            Some(bytes) => {
                let part = RowPart {
                    branch: &branch.def,
                    counters: counters.at(k),
                    entry: bytes,
                };
                parts.push(part)?;
            }
            None => return Ok(None),
        }
    }
    Ok(Some(parts))
}

// The row that these parts are, if they are read and it fits the branches.
fn fitting_row(
    alloc: Global,
    classes: &Classes,
    branches: &[Branch],
    parts: &[RowPart],
) -> Result<Option<Values>, NoMemory>
    requires { map (λ part. part.branch.now) parts.now ≡ stated_defs branches.now }
    ensures { IfOk result (λ row. row ≡ fitting_row classes.now (stated_defs branches.now)
        (map (λ part. part.entry.now) parts.now)) }
{
    match read_row(alloc, classes, parts) {
        Ok(row) if row_fits(alloc, classes, branches, row.as_slice())? => Ok(Some(row)),
        Err(EntryFault::NoMemory) => Err(NoMemory),
        _ => Ok(None),
    }
}

// The row at an entry whose baskets are held, if every branch has it, and it is read and fits.
fn held_row(
    alloc: Global,
    tree: &FileTree,
    entry: u64,
    lanes: &[Lane],
) -> Result<Option<Values>, NoMemory>
    requires { length lanes.now ≡ length tree.now.branches.now }
    ensures { IfOk result (λ row. (file : List ℕ)
        → HoldEntry file entry (length tree.now.branches.now) tree.now.branches.now lanes.now
        → row ≡ row_there file tree.now.classes.now tree.now.branches.now entry) }
{
    let parts = row_parts(alloc, tree.branches, tree.counters, entry, lanes)?;
    match parts {
        Some(parts) => fitting_row(alloc, tree.classes, tree.branches, parts.as_slice()),
        None => Ok(None),
    }
}

/// The row at an entry of a tree, if each branch has an entry there, in a basket that has the entries that the header says, and
/// the row is read and fits the branches. One basket of each branch is held.
pub fn read_saved_row<H: Host>(
    alloc: Global,
    host: &mut H,
    tree: &FileTree,
    entry: u64,
    lanes: &mut [Lane],
) -> Result<Option<Values>, ReadFault>
    requires length { IsLength (H.view host.old) tree.now.file_length }
    requires lanes { length lanes.old ≡ length tree.now.branches.now }
    ensures lanes { length lanes.new ≡ length lanes.old }
    ensures row { IfOk result (λ row. (file : List ℕ) → (H.view host.old).holds ≡ Some file
        → AreLanes file entry tree.now.branches.now lanes.old
        → row ≡ row_there file tree.now.classes.now tree.now.branches.now entry) }
    ensures kept { OnOk result ((file : List ℕ) → (H.view host.old).holds ≡ Some file
        → AreLanes file entry tree.now.branches.now lanes.old
        → AreLanes file entry tree.now.branches.now lanes.new) }
    ensures calls { OnlyReads (H.view host.old) (H.view host.new) }
    ensures cause { IsReadCause (H.view host.old) (H.view host.new) result }
{
    hold_all(alloc, host, tree, entry, lanes)?;
    Ok(held_row(alloc, tree, entry, lanes).map_err(out_of_memory)?)
}

// Whether each of so many entries of a tree has a row, as `read_saved_row` reads it.
fn are_rows_there<H: Host>(
    alloc: Global,
    host: &mut H,
    tree: &FileTree,
    entries: u64,
) -> Result<bool, ReadFault>
    requires { IsLength (H.view host.old) tree.now.file_length }
    ensures there { IfOk result (λ there. Told (H.view host.old) (λ file. there
        ≡ list_all (λ e. is_some (row_there file tree.now.classes.now tree.now.branches.now e))
        (range_with_len 0 entries))) }
    ensures calls { OnlyReads (H.view host.old) (H.view host.new) }
    ensures cause { IsReadCause (H.view host.old) (H.view host.new) result }
{
    let mut lanes = empty_lanes(alloc, tree.branches.len()).map_err(out_of_memory)?;
    for entry in 0..entries {
        let row = read_saved_row(alloc, host, tree, entry, &mut lanes)?;
        if row.is_none() {
            return Ok(false);
        }
    }
    Ok(true)
}

// Whether each of the baskets of a branch with so many entries has an entry or more.
fn have_entries(baskets: &[BasketAt], entries: u64) -> bool
    ensures { result ≡ have_entries baskets.now entries }
{
    for (k, at) in baskets.iter().enumerate() {
        if at.first >= entry_behind(baskets, k, entries) {
            return false;
        }
    }
    true
}

// Whether the header refuses no branch, and names no basket without entries.
fn are_whole(branches: &[Branch]) -> bool
    ensures { result ≡ list_all is_whole branches.now }
{
    branches.iter().all(|branch| is_whole(branch))
}

fn is_whole(branch: &Branch) -> bool
    ensures { result ≡ is_whole branch.now }
{
    branch.refused.is_none() && have_entries(branch.baskets.as_slice(), branch.entries)
}

// Whether the rows of a tree with this header are all there, where its baskets stand in the file.
fn are_file_rows<H: Host>(
    alloc: Global,
    host: &mut H,
    file_length: u64,
    classes: &Classes,
    head: &TreeHead,
) -> Result<bool, ReadFault>
    requires { IsLength (H.view host.old) file_length }
    ensures saved { IfOk result (λ saved. AreInOrder head.now → Told (H.view host.old) (λ file.
        saved ≡ is_some (saved_rows classes.now (file_baskets file) head.now))) }
    ensures whole { IfOk result (λ saved. saved ≡ true
        → list_all is_whole head.now.branches ≡ true) }
    ensures calls { OnlyReads (H.view host.old) (H.view host.new) }
    ensures cause { IsReadCause (H.view host.old) (H.view host.new) result }
{
    let branches = head.branches.as_slice();
    if !are_whole(branches) {
        return Ok(false);
    }
    let counters = TreeCounters::new(alloc, branches).map_err(out_of_memory)?;
    let tree = FileTree {
        file_length,
        classes,
        branches,
        counters: &counters,
    };
    are_rows_there(alloc, host, &tree, head.entries)
}

/// Whether the rows of a tree with this header are all there, in a file whose records have these keys, in order of place: none
/// of its branches is refused; each basket is the record of one at its place, as long as the header says, and is read; it has
/// as many entries as the header says, one or more; and each row is read and fits the branches. One basket of each branch and
/// one row are held.
pub fn are_rows_saved<H: Host>(
    alloc: Global,
    host: &mut H,
    file_length: u64,
    keys: &[KeyHead],
    classes: &Classes,
    head: &TreeHead,
) -> Result<bool, ReadFault>
    requires { IsLength (H.view host.old) file_length }
    ensures saved { IfOk result (λ saved. AreByPlace keys.now → AreInOrder head.now
        → Told (H.view host.old) (λ file. saved
        ≡ is_some (saved_rows classes.now (keyed_baskets keys.now file) head.now))) }
    // Whatever the host tells.
    ensures whole { IfOk result (λ saved. saved ≡ true
        → list_all is_whole head.now.branches ≡ true) }
    ensures calls { OnlyReads (H.view host.old) (H.view host.new) }
    ensures cause { IsReadCause (H.view host.old) (H.view host.new) result }
{
    if !have_baskets(keys, head.branches.as_slice()) {
        return Ok(false);
    }
    are_file_rows(alloc, host, file_length, classes, head)
}
