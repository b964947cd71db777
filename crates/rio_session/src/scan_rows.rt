//! The rows of a tree are read and printed: the entries of saved and pending rows, of which one basket of each branch is held.
ghost use Rattle.std.specs.Prelude.{◌≡◌, ◌<◌, ◌≤◌, ◌^◌, ℕ, List, Ok, Some, false, IfOk, IfSome, IsTrue, OnOk, is_some, length, map, slice_get};
ghost use Rattle.std.specs.Option.{option_copied, option_map};
ghost use Rattle.std.specs.Result.{result_map_both};
ghost use Rattle.rio_num.specs.Answers.{GivesUnless};
ghost use Rattle.rio_host.specs.OnlyReads.{OnlyReads};
ghost use Rattle.rio_host.specs.Reading.{IsReadCause};
ghost use Rattle.rio_key.specs.BasketEntries.{entries_in};
ghost use Rattle.rio_chain.specs.Chains.{HasChain, HasRecordSegment, HoldsChain};
ghost use Rattle.rio_chain.specs.Segments.{Link};
ghost use Rattle.rio_entry.specs.Counting.{counters_within};
ghost use Rattle.rio_fill.specs.Fill.{basket_of, count_before, defs_of, entry_count};
ghost use Rattle.rio_model.specs.declared.map_fault.MapFault.TheVariants.{NoMemory as OutOfMemory};
ghost use Rattle.rio_reply.specs.Scanned.{scan_start};
ghost use Rattle.rio_tree.specs.Index.{basket_number};
ghost use Rattle.rio_session.specs.HeldBaskets.{AreLanes, AreStored, HoldEntry, HoldsEntryAt, IsHeld, IsLaneAt, IsReadAs, IsTreeStored};
ghost use Rattle.rio_machine.specs.State.{Row};
ghost use Rattle.rio_session.specs.Scans.{AreRowsOf, Scans, entries_of_row, entry_held, entry_within, line_behind, open_entry, row_held, row_of_entries, stored_entry};

use rio_chain::{Chain, ReadFault};
use rio_entry::{
    EntryFault, FoundBasket, Lane, LeafCounters, RowFault, RowPart, basket_from, empty_lanes,
    fault_held, read_row,
};
use rio_fill::Filler;
use rio_format::{Base, Classes, Values};
use rio_host::Host;
use rio_key::{Basket, BasketFault, StoredBasket};
use rio_leaf::BranchDef;
use rio_model::MapFault;
use rio_num::{Bytes, NoMemory};
use rio_reply::{put_row_fault, put_row_line, put_row_line_as, put_scan_start};
use rio_tree::{BasketAt, has_offsets};
use std::alloc::Global;

/// A tree whose rows are read: the chain of its file, the classes, and its branches with their counters.
#[derive(Drop)]
pub(crate) struct ScannedTree<'a> {
    pub(crate) chain: &'a Chain,
    pub(crate) classes: &'a Classes,
    pub(crate) filler: &'a Filler,
    pub(crate) counters: &'a [LeafCounters],
    pub(crate) ghost counted: { counters.now
        ≡ map (λ b. counters_within b.def.shape) filler.now.branches },
}

/// A branch of it: where its baskets stand that were written, the open one, and the number of the first entry in that.
#[derive(Drop)]
struct FilledBranch<'a> {
    def: &'a BranchDef,
    baskets: &'a [BasketAt],
    basket: &'a Basket,
    first: u64,
}

/// A row that was read, or why it isn't.
type FoundRow = Result<Values, RowFault>;

// Memory ran out, where a file is read.
fn out_of_memory(_e: NoMemory) -> ReadFault
    ensures { result ≡ ReadFault.NoMemory }
{
    ReadFault::NoMemory
}

fn branch_at(filler: &Filler, k: usize) -> FilledBranch
    requires { k < length filler.now.branches }
    ensures def { Some result.def.now ≡ option_map (λ b. b.def) (slice_get filler.now.branches k) }
    ensures baskets { Some result.baskets.now
        ≡ option_map (λ b. b.baskets) (slice_get filler.now.branches k) }
    ensures basket { Some result.basket.now
        ≡ option_map basket_of (slice_get filler.now.branches k) }
    ensures first { Some result.first ≡ option_map (count_before (entry_count filler.now))
        (slice_get filler.now.branches k) }
{
    match (
        filler.def(k),
        filler.baskets(k),
        filler.basket(k),
        filler.first(k),
    ) {
        (Some(def), Some(baskets), Some(basket), Some(first)) => FilledBranch {
            def,
            baskets,
            basket,
            first,
        },
        _ => unreachable!(),
    }
}

// Which leaf counts which, of each of the branches.
fn counters_of(alloc: Global, filler: &Filler, width: usize) -> Result<Vec<LeafCounters>, NoMemory>
    requires { width ≡ length filler.now.branches }
    ensures { IfOk result (λ counters. counters.items
        ≡ map (λ b. counters_within b.def.shape) filler.now.branches) }
{
    let mut counters = Vec::new(alloc);
    for k in 0..width {
        let branch = branch_at(filler, k);
        counters.push(LeafCounters::new(alloc, &branch.def.shape)?)?;
    }
    Ok(counters)
}

// What the record of a basket is read as.
fn found_basket(alloc: Global, bytes: &[u8], offsets: bool) -> Result<FoundBasket, NoMemory>
    ensures { IfOk result (λ found. found ≡ entries_in offsets bytes.now) }
{
    let bytes = Vec::from_slice(alloc, bytes)?;
    match StoredBasket::read(alloc, bytes, offsets) {
        Ok(basket) => Ok(Ok(basket)),
        Err(BasketFault::NoMemory) => Err(NoMemory),
        Err(fault) => Ok(Err(fault)),
    }
}

// What the record at a place is read as.
fn read_basket<H: Host>(
    alloc: Global,
    host: &mut H,
    chain: &Chain,
    offsets: bool,
    place: u64,
) -> Result<FoundBasket, ReadFault>
    requires fresh { chain.now.spent ≡ false }
    requires record { HasRecordSegment chain.now.segments place }
    requires holds { HoldsChain (H.view host.old) chain.now.segments }
    ensures found { IfOk result (λ found. (file : List ℕ) (links : List Link)
        → (H.view host.old).holds ≡ Some file → HasChain links chain.now.segments file
        → IsReadAs links offsets place found) }
    ensures calls { OnlyReads (H.view host.old) (H.view host.new) }
    ensures cause { IsReadCause (H.view host.old) (H.view host.new) result }
{
    let record = chain.read_record(host, place)?;
    match found_basket(alloc, record.as_slice(), offsets) {
        Ok(found) => Ok(found),
        Err(lack) => Err(out_of_memory(lack)),
    }
}

// Holds the basket in which an entry is looked for, of those of a branch that were written.
fn hold_basket<H: Host>(
    alloc: Global,
    host: &mut H,
    chain: &Chain,
    baskets: &[BasketAt],
    offsets: bool,
    entry: u64,
    lane: &mut Lane,
) -> Result<(), ReadFault>
    requires fresh { chain.now.spent ≡ false }
    requires stored { AreStored chain.now.segments baskets.now }
    requires holds { HoldsChain (H.view host.old) chain.now.segments }
    ensures number { OnOk result (lane.old.number ≤ basket_number entry baskets.now
        → lane.new.number ≡ basket_number entry baskets.now) }
    ensures held { OnOk result ((file : List ℕ) (links : List Link)
        → (H.view host.old).holds ≡ Some file → HasChain links chain.now.segments file
        → IsHeld links offsets baskets.now lane.old.number lane.old.basket
        → IsHeld links offsets baskets.now lane.new.number lane.new.basket) }
    ensures some { OnOk result (IsTrue (is_some lane.new.basket)) }
    ensures calls { OnlyReads (H.view host.old) (H.view host.new) }
    ensures cause { IsReadCause (H.view host.old) (H.view host.new) result }
{
    let number = basket_from(baskets, lane.number, entry);
    if number == lane.number && lane.basket.is_some() {
        return Ok(());
    }
    lane.number = number;
    lane.basket = None;
    match baskets.get(number) {
        Some(at) => {
            let found = read_basket(alloc, host, chain, offsets, at.seek)?;
            lane.basket = Some(found);
        }
        None => lane.basket = Some(Err(BasketFault::BadLast { place: 0 })),
    }
    Ok(())
}

// Holds the basket of an entry of the branch at `k`, if the entry isn't in the open one.
fn hold_branch<H: Host>(
    alloc: Global,
    host: &mut H,
    tree: &ScannedTree,
    k: usize,
    entry: u64,
    lane: &mut Lane,
) -> Result<(), ReadFault>
    requires within { k < length tree.now.filler.now.branches }
    requires fresh { tree.now.chain.now.spent ≡ false }
    requires stored { IsTreeStored tree.now.chain.now.segments tree.now.filler.now }
    requires holds { HoldsChain (H.view host.old) tree.now.chain.now.segments }
    ensures kept { OnOk result ((file : List ℕ) (links : List Link)
        → (H.view host.old).holds ≡ Some file → HasChain links tree.now.chain.now.segments file
        → IsLaneAt links entry tree.now.filler.now k lane.old
        → IsLaneAt links entry tree.now.filler.now k lane.new) }
    ensures held { OnOk result ((file : List ℕ) (links : List Link)
        → (H.view host.old).holds ≡ Some file → HasChain links tree.now.chain.now.segments file
        → IsLaneAt links entry tree.now.filler.now k lane.old
        → HoldsEntryAt links entry tree.now.filler.now k lane.new) }
    ensures calls { OnlyReads (H.view host.old) (H.view host.new) }
    ensures cause { IsReadCause (H.view host.old) (H.view host.new) result }
{
    let branch = branch_at(tree.filler, k);
    if entry >= branch.first {
        return Ok(());
    }
    let offsets = has_offsets(&branch.def.shape);
    hold_basket(
        alloc,
        host,
        tree.chain,
        branch.baskets,
        offsets,
        entry,
        lane,
    )?;
    Ok(())
}

// Holds the baskets of an entry, one of each branch whose entry isn't in the open one.
fn hold_all<H: Host>(
    alloc: Global,
    host: &mut H,
    tree: &ScannedTree,
    entry: u64,
    lanes: &mut [Lane],
) -> Result<(), ReadFault>
    requires fresh { tree.now.chain.now.spent ≡ false }
    requires stored { IsTreeStored tree.now.chain.now.segments tree.now.filler.now }
    requires holds { HoldsChain (H.view host.old) tree.now.chain.now.segments }
    requires lanes { length lanes.old ≡ length tree.now.filler.now.branches }
    ensures lanes { length lanes.new ≡ length lanes.old }
    ensures kept { OnOk result ((file : List ℕ) (links : List Link)
        → (H.view host.old).holds ≡ Some file → HasChain links tree.now.chain.now.segments file
        → AreLanes links entry tree.now.filler.now.branches lanes.old
        → AreLanes links entry tree.now.filler.now.branches lanes.new) }
    ensures held { OnOk result ((file : List ℕ) (links : List Link)
        → (H.view host.old).holds ≡ Some file → HasChain links tree.now.chain.now.segments file
        → AreLanes links entry tree.now.filler.now.branches lanes.old
        → HoldEntry links (entry_count tree.now.filler.now) entry
        (length tree.now.filler.now.branches) tree.now.filler.now.branches lanes.new) }
    ensures calls { OnlyReads (H.view host.old) (H.view host.new) }
    ensures cause { IsReadCause (H.view host.old) (H.view host.new) result }
{
    for k in 0..lanes.len() {
        hold_branch(alloc, host, tree, k, entry, &mut lanes[k])?;
    }
    Ok(())
}

// The entry in the basket that is held, if it is there.
fn stored_entry<'a>(baskets: &[BasketAt], lane: &'a Lane, entry: u64) -> Option<&'a [u8]>
    ensures there { option_copied result
        ≡ stored_entry (slice_get baskets.now lane.now.number) lane.now.basket entry }
    ensures short { IfSome result (λ bytes. length bytes.now < 2 ^ 32) }
{
    match (baskets.get(lane.number), &lane.basket) {
        (Some(at), Some(Ok(basket))) => basket.entry(entry.saturating_sub(at.first) as usize),
        _ => None,
    }
}

// The entry of a branch in the basket that is held of it, or why it isn't there.
fn entry_held<'a>(baskets: &[BasketAt], lane: &'a Lane, entry: u64) -> Result<&'a [u8], RowFault>
    ensures exact { result_map_both (λ bytes. bytes.now) (λ fault. fault) result
        ≡ entry_held baskets.now lane.now entry }
    ensures short { IfOk result (λ bytes. length bytes.now < 2 ^ 32) }
{
    match stored_entry(baskets, lane, entry) {
        Some(bytes) => Ok(bytes),
        None => Err(fault_held(lane)),
    }
}

// The entry in the open basket, of which this is the first.
fn open_entry(basket: &Basket, first: u64, entry: u64) -> Result<&[u8], RowFault>
    ensures exact { result_map_both (λ bytes. bytes.now) (λ fault. fault) result
        ≡ open_entry basket.now.entries first entry }
    ensures short { IfOk result (λ bytes. length bytes.now < 2 ^ 32) }
{
    match basket.entry(entry.saturating_sub(first) as usize) {
        Some(bytes) if (bytes.len() as u64) < 1 << 32 => Ok(bytes),
        _ => Err(RowFault::Basket(BasketFault::BadLast { place: 0 })),
    }
}

// The entry of a branch: in a basket that was written, or in the open one.
fn entry_of_branch<'a>(
    branch: &FilledBranch<'a>,
    lane: &'a Lane,
    entry: u64,
) -> Result<&'a [u8], RowFault>
    ensures exact { result_map_both (λ bytes. bytes.now) (λ fault. fault) result
        ≡ entry_within branch.now.baskets.now branch.now.basket.now.entries branch.now.first
        lane.now entry }
    ensures short { IfOk result (λ bytes. length bytes.now < 2 ^ 32) }
{
    if entry < branch.first {
        entry_held(branch.baskets, lane, entry)
    } else {
        open_entry(branch.basket, branch.first, entry)
    }
}

// What a row is read of: the entry of each branch, or the first fault.
fn row_parts<'a>(
    alloc: Global,
    tree: &'a ScannedTree,
    entry: u64,
    lanes: &'a [Lane],
) -> Result<Result<Vec<RowPart<'a>>, RowFault>, NoMemory>
    requires { length lanes.now ≡ length tree.now.filler.now.branches }
    ensures branches { IfOk result (λ found. IfOk found (λ parts.
        map (λ part. part.branch.now) parts.items ≡ defs_of tree.now.filler.now.branches)) }
    ensures entries { IfOk result (λ found. result_map_both
        (λ parts. map (λ part. part.entry.now) parts.items) (λ fault. fault) found
        ≡ entries_of_row (entry_count tree.now.filler.now) tree.now.filler.now.branches
        lanes.now entry) }
{
    let mut parts = Vec::new(alloc);
    for (k, lane) in lanes.iter().enumerate() {
        let branch = branch_at(tree.filler, k);
        let bytes = match entry_of_branch(&branch, lane, entry) {
            Ok(bytes) => bytes,
            Err(fault) => return Ok(Err(fault)),
        };
        parts.push(RowPart {
            branch: branch.def,
            counters: &tree.counters[k],
            entry: bytes,
        })?;
    }
    Ok(Ok(parts))
}

// The row that these parts are, or why they aren't read.
fn row_of_parts(alloc: Global, classes: &Classes, parts: &[RowPart]) -> Result<FoundRow, NoMemory>
    ensures { IfOk result (λ found. found ≡ row_of_entries classes.now
        (map (λ part. part.branch.now) parts.now)
        (Ok (map (λ part. part.entry.now) parts.now))) }
{
    match read_row(alloc, classes, parts) {
        Ok(row) => Ok(Ok(row)),
        Err(EntryFault::BadEntry { place }) => Ok(Err(RowFault::Entry { place })),
        Err(EntryFault::NoMemory) => Err(NoMemory),
        Err(_) => Ok(Err(RowFault::Entry { place: 0 })),
    }
}

// The row at an entry whose baskets are held, or why it isn't read.
fn row_held(
    alloc: Global,
    tree: &ScannedTree,
    entry: u64,
    lanes: &[Lane],
) -> Result<FoundRow, NoMemory>
    requires { length lanes.now ≡ length tree.now.filler.now.branches }
    ensures { IfOk result (λ found. found
        ≡ row_held tree.now.classes.now tree.now.filler.now lanes.now entry) }
{
    match row_parts(alloc, tree, entry, lanes)? {
        Ok(parts) => row_of_parts(alloc, tree.classes, parts.as_slice()),
        Err(fault) => Ok(Err(fault)),
    }
}

// The row at an entry, or why it isn't read. Its baskets are held first.
fn find_row<H: Host>(
    alloc: Global,
    host: &mut H,
    tree: &ScannedTree,
    entry: u64,
    lanes: &mut [Lane],
) -> Result<FoundRow, ReadFault>
    requires fresh { tree.now.chain.now.spent ≡ false }
    requires stored { IsTreeStored tree.now.chain.now.segments tree.now.filler.now }
    requires holds { HoldsChain (H.view host.old) tree.now.chain.now.segments }
    requires lanes { length lanes.old ≡ length tree.now.filler.now.branches }
    ensures lanes { length lanes.new ≡ length lanes.old }
    ensures row { IfOk result (λ found. (file : List ℕ) (links : List Link) (all : List Row)
        → (H.view host.old).holds ≡ Some file → HasChain links tree.now.chain.now.segments file
        → AreLanes links entry tree.now.filler.now.branches lanes.old
        → AreRowsOf tree.now.classes.now links tree.now.filler.now all
        → (row : Row) → slice_get all entry ≡ Some row → found ≡ Ok row) }
    ensures kept { OnOk result ((file : List ℕ) (links : List Link)
        → (H.view host.old).holds ≡ Some file → HasChain links tree.now.chain.now.segments file
        → AreLanes links entry tree.now.filler.now.branches lanes.old
        → AreLanes links entry tree.now.filler.now.branches lanes.new) }
    ensures calls { OnlyReads (H.view host.old) (H.view host.new) }
    ensures cause { IsReadCause (H.view host.old) (H.view host.new) result }
{
    hold_all(alloc, host, tree, entry, lanes)?;
    match row_held(alloc, tree, entry, lanes) {
        Ok(found) => Ok(found),
        Err(lack) => Err(out_of_memory(lack)),
    }
}

// Puts the line of a row at the end, with the objects of the class in the version; or why it can't be had so.
fn put_found(
    alloc: Global,
    classes: &Classes,
    class: &Option<Base>,
    entry: u64,
    found: FoundRow,
    text: &mut Bytes,
) -> Result<(), MapFault>
    ensures { GivesUnless OutOfMemory (λ x. text.new.bytes) result
        (line_behind classes.now class.now entry text.old.bytes found) }
{
    match (found, class) {
        (Ok(row), None) => Ok(put_row_line(text, entry, row.as_slice())?),
        (Ok(row), Some(asked)) => {
            put_row_line_as(alloc, text, classes, asked, entry, row.as_slice())
        }
        (Err(fault), _) => Ok(put_row_fault(text, entry, fault)?),
    }
}

// Puts the lines of all rows at the end, or tells why one can't be had.
fn put_rows<H: Host>(
    alloc: Global,
    host: &mut H,
    tree: &ScannedTree,
    class: &Option<Base>,
    entries: u64,
    text: &mut Bytes,
) -> Result<Result<(), MapFault>, ReadFault>
    requires entries { entries ≡ entry_count tree.now.filler.now }
    requires fresh { tree.now.chain.now.spent ≡ false }
    requires stored { IsTreeStored tree.now.chain.now.segments tree.now.filler.now }
    requires holds { HoldsChain (H.view host.old) tree.now.chain.now.segments }
    ensures rows { IfOk result (λ put. Scans (H.view host.old) tree.now.chain.now.segments
        tree.now.classes.now class.now tree.now.filler.now text.old.bytes
        (λ x. text.new.bytes) put) }
    ensures calls { OnlyReads (H.view host.old) (H.view host.new) }
    ensures cause { IsReadCause (H.view host.old) (H.view host.new) result }
{
    let mut lanes = empty_lanes(alloc, tree.counters.len()).map_err(out_of_memory)?;
    for entry in 0..entries {
        let found = find_row(alloc, host, tree, entry, &mut lanes)?;
        match put_found(alloc, tree.classes, class, entry, found, text) {
            Ok(()) => (),
            Err(fault) => return Ok(Err(fault)),
        }
    }
    Ok(Ok(()))
}

// The first line of a scan.
fn scan_start(alloc: Global, name: &[u8], entries: u64) -> Result<Bytes, NoMemory>
    ensures { IfOk result (λ text. text.bytes ≡ scan_start name.now entries) }
{
    let mut text = Bytes::new(alloc);
    put_scan_start(&mut text, name, entries)?;
    Ok(text)
}

// The text of a scan of a tree with counters, or why the rows can't be had in the version.
fn text_of_tree<H: Host>(
    alloc: Global,
    host: &mut H,
    tree: &ScannedTree,
    name: &[u8],
    class: &Option<Base>,
    entries: u64,
) -> Result<Result<Bytes, MapFault>, ReadFault>
    requires entries { entries ≡ entry_count tree.now.filler.now }
    requires fresh { tree.now.chain.now.spent ≡ false }
    requires stored { IsTreeStored tree.now.chain.now.segments tree.now.filler.now }
    requires holds { HoldsChain (H.view host.old) tree.now.chain.now.segments }
    ensures rows { IfOk result (λ told. Scans (H.view host.old) tree.now.chain.now.segments
        tree.now.classes.now class.now tree.now.filler.now
        (scan_start name.now (entry_count tree.now.filler.now)) (λ text. text.bytes) told) }
    ensures calls { OnlyReads (H.view host.old) (H.view host.new) }
    ensures cause { IsReadCause (H.view host.old) (H.view host.new) result }
{
    let mut text = scan_start(alloc, name, entries).map_err(out_of_memory)?;
    match put_rows(alloc, host, tree, class, entries, &mut text)? {
        Ok(()) => Ok(Ok(text)),
        Err(fault) => Ok(Err(fault)),
    }
}

/// The text of a scan of a tree of this name, with so many branches and rows, saved and pending; or why the rows can't be had
/// in the version. At most one basket of each branch is held. Over a host whose file changes, a row that isn't read any
/// more has a line of its own.
pub(crate) fn scan_text<H: Host>(
    alloc: Global,
    host: &mut H,
    chain: &Chain,
    classes: &Classes,
    filler: &Filler,
    width: usize,
    entries: u64,
    name: &[u8],
    class: &Option<Base>,
) -> Result<Result<Bytes, MapFault>, ReadFault>
    requires width { width ≡ length filler.now.branches }
    requires entries { entries ≡ entry_count filler.now }
    requires fresh { chain.now.spent ≡ false }
    requires stored { IsTreeStored chain.now.segments filler.now }
    requires holds { HoldsChain (H.view host.old) chain.now.segments }
    ensures rows { IfOk result (λ told. Scans (H.view host.old) chain.now.segments
        classes.now class.now filler.now
        (scan_start name.now (entry_count filler.now)) (λ text. text.bytes) told) }
    ensures calls { OnlyReads (H.view host.old) (H.view host.new) }
    ensures cause { IsReadCause (H.view host.old) (H.view host.new) result }
{
    let counters = counters_of(alloc, filler, width).map_err(out_of_memory)?;
    let tree = ScannedTree {
        chain,
        classes,
        filler,
        counters: counters.as_slice(),
    };
    text_of_tree(alloc, host, &tree, name, class, entries)
}
