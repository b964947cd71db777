//! The basket that holds an entry, and scans of a small tree, basket by basket.
ghost use Rattle.std.specs.Prelude.{◌≡◌, IfOk};
ghost use Rattle.rio_index.specs.Scan.{CanHold, CanScan};
ghost use Rattle.rio_tree.specs.Index.{IsIndex};

use rio_entry::EntryFault;
use rio_format::{Classes, Value, Values};
use rio_index::{Scanner, basket_of};
use rio_key::StoredBasket;
use rio_leaf::{BranchDef, LeafFault, Leaves, Shape, read_leaves};
use rio_num::{Name, NoMemory};
use rio_tree::{BasketAt, Baskets, Branch, BranchNumbers, BranchRefusal, Branches, TreeHead};
use std::alloc::Global;

fn at(first: u64) -> BasketAt
    ensures { result.first ≡ first }
{
    BasketAt {
        bytes: 92,
        first,
        seek: 100,
    }
}

// A branch of so many entries in these baskets.
fn branch(alloc: Global, leaves: Leaves, entries: u64, baskets: Baskets) -> Branch
    requires { IsIndex baskets entries }
    ensures holds { CanHold entries result result.refused }
    ensures index { IsIndex result.baskets result.entries }
{
    Branch {
        def: BranchDef {
            name: Name::new(alloc),
            shape: Shape::Leaves(leaves),
        },
        class_version: 0,
        entries,
        offsets: false,
        baskets,
        counted_by: BranchNumbers::new(alloc),
        refused: None,
    }
}

fn one_basket(alloc: Global) -> Result<Baskets, NoMemory>
    ensures { IfOk result (λ baskets. IsIndex baskets 3) }
{
    Baskets::from_slice(alloc, &[at(0)])
}

fn two_baskets(alloc: Global) -> Result<Baskets, NoMemory>
    ensures { IfOk result (λ baskets. IsIndex baskets 3) }
{
    Baskets::from_slice(alloc, &[at(0), at(2)])
}

fn leaves_of(alloc: Global, text: &[u8]) -> Result<Leaves, LeafFault> {
    if text.len() > 1000 {
        return Err(LeafFault::NoMemory);
    }
    read_leaves(alloc, text)
}

fn leaf_branch(alloc: Global, text: &[u8], baskets: Baskets) -> Result<Branch, LeafFault>
    requires { IsIndex baskets 3 }
    ensures { IfOk result (λ b. CanHold 3 b b.refused) }
{
    let leaves = leaves_of(alloc, text)?;
    Ok(branch(alloc, leaves, 3, baskets))
}

// Tree `V` of three entries: branch `n` in baskets of two and of one, and branch `v`, whose leaf the leaf of `n` counts.
fn tree_v(alloc: Global) -> Result<TreeHead, LeafFault>
    ensures { IfOk result (λ head. CanScan head.entries head.branches) }
{
    let mut branches = Branches::new(alloc);
    branches.push(leaf_branch(alloc, b"n/I", two_baskets(alloc)?)?)?;
    branches.push(leaf_branch(alloc, b"v[n]/F", one_basket(alloc)?)?)?;
    Ok(TreeHead {
        entries: 3,
        branches,
    })
}

fn scan_of_v(alloc: Global) -> Result<Scanner, LeafFault> {
    let head = tree_v(alloc)?;
    Ok(Scanner::new(alloc, head)?)
}

// The baskets of branch `n`: 0 and 3, and 0; and one with 0 and 2.
const COUNTS: &[u8] =
    b"\0\0\0\x44\0\x04\0\0\0\x0b\0\0\0\x01\0\x39\0\0\0\0\0\xd0\0\0\0\x64\x07TBasket\x01n\x01V\
    \0\x03\0\0\x7d\0\0\0\0\x04\0\0\0\x02\0\0\0\x41\0\
    \0\0\0\0\0\0\0\x03\0\0\0";

const LAST_COUNT: &[u8] =
    b"\0\0\0\x40\0\x04\0\0\0\x07\0\0\0\x01\0\x39\0\0\0\0\0\xd0\0\0\0\x64\x07TBasket\x01n\x01V\
    \0\x03\0\0\x7d\0\0\0\0\x04\0\0\0\x01\0\0\0\x3d\0\
    \0\0\0\0\0\0\0";

const BAD_COUNTS: &[u8] =
    b"\0\0\0\x44\0\x04\0\0\0\x0b\0\0\0\x01\0\x39\0\0\0\0\0\xd0\0\0\0\x64\x07TBasket\x01n\x01V\
    \0\x03\0\0\x7d\0\0\0\0\x04\0\0\0\x02\0\0\0\x41\0\
    \0\0\0\0\0\0\0\x02\0\0\0";

// The basket of branch `v`: no number, three and none.
const COUNTED: &[u8] =
    b"\0\0\0\x5c\0\x04\0\0\0\x23\0\0\0\x01\0\x39\0\0\0\0\0\xd0\0\0\0\x64\x07TBasket\x01v\x01V\
    \0\x03\0\0\x7d\0\0\0\0\x03\0\0\0\x03\0\0\0\x45\0\
    \x3f\x80\0\0\x40\0\0\0\x40\x40\0\0\0\0\0\x04\0\0\0\x39\0\0\0\x39\0\0\0\x45\0\0\0\x45\0\0\0";

// What is done with a scan, and what it returns.
enum Step {
    /// This branch wants this basket, or none wants any.
    Wants(Option<(usize, usize)>),
    /// The basket that is wanted, and whether it has offsets.
    Give(&'static [u8], bool),
    /// The branch whose entry breaks in the next row, or none.
    Check(Option<usize>),
    /// A row: the number of branch `n`, and the list of branch `v`, if that is read.
    Row(i128, Option<&'static [u32]>),
    /// A row with a fault.
    Broken,
    Skip,
    Rewind,
    /// A branch that isn't read from now on.
    Refuse(usize),
    /// No row, behind so many.
    End(u64),
}

use Step::{Broken, Check, End, Give, Refuse, Rewind, Row, Skip, Wants};

fn stored(alloc: Global, bytes: &[u8], offsets: bool) -> Option<StoredBasket> {
    let bytes = Vec::from_slice(alloc, bytes).ok()?;
    StoredBasket::read(alloc, bytes, offsets).ok()
}

// The scan is given the basket that it wants, if it has as many entries as the header says.
fn give(scanner: &mut Scanner, entries: StoredBasket) -> bool {
    let Some((branch, basket)) = scanner.wants() else {
        return false;
    };
    let given = scanner.entry_count(branch, basket) == Some(entries.count() as u64);
    if given {
        scanner.give(branch, basket, entries);
    }
    given
}

fn takes(scanner: &mut Scanner, alloc: Global, bytes: &[u8], offsets: bool) -> bool {
    match stored(alloc, bytes, offsets) {
        Some(entries) => give(scanner, entries),
        None => false,
    }
}

fn breaks(scanner: &Scanner, classes: &Classes, branch: Option<usize>) -> bool {
    if scanner.wants().is_some() {
        return false;
    }
    match scanner.check(classes) {
        Ok(found) => found == branch,
        Err(_) => false,
    }
}

fn are_bits(items: &[Value], bits: &[u32]) -> bool {
    for (k, item) in items.iter().enumerate() {
        match item {
            Value::Bits32(n) if bits.get(k) == Some(n) => {}
            _ => return false,
        }
    }
    items.len() == bits.len()
}

fn is_row(row: &Values, count: i128, bits: Option<&[u32]>) -> bool {
    match row.as_slice() {
        [Value::Int(n), Value::List(items)] => match bits {
            Some(bits) => *n == count && are_bits(items.as_slice(), bits),
            None => false,
        },
        [Value::Int(n)] => *n == count && bits.is_none(),
        _ => false,
    }
}

// The next row; a fault where a basket is wanted.
fn next(scanner: &mut Scanner, classes: &Classes) -> Result<Option<Values>, EntryFault> {
    if scanner.wants().is_some() {
        return Err(EntryFault::NoMemory);
    }
    scanner.row(classes)
}

fn has_row(scanner: &mut Scanner, classes: &Classes, count: i128, bits: Option<&[u32]>) -> bool {
    match next(scanner, classes) {
        Ok(Some(row)) => is_row(&row, count, bits),
        _ => false,
    }
}

fn is_broken(scanner: &mut Scanner, classes: &Classes) -> bool {
    matches!(next(scanner, classes), Err(EntryFault::BadEntry { .. }))
}

fn ends(scanner: &mut Scanner, classes: &Classes, rows: u64) -> bool {
    scanner.next() == rows && matches!(next(scanner, classes), Ok(None))
}

fn skip(scanner: &mut Scanner) -> bool {
    let has_next = scanner.next() < scanner.head().entries;
    if has_next {
        scanner.skip();
    }
    has_next
}

fn refuse(scanner: &mut Scanner, branch: usize) -> bool {
    let is_there = branch < scanner.head().branches.len();
    if is_there {
        scanner.refuse(branch, BranchRefusal::BadEntry);
    }
    match scanner.lanes().get(branch) {
        Some(lane) => lane.refused == Some(BranchRefusal::BadEntry) && lane.held.is_none(),
        None => false,
    }
}

fn rewind(scanner: &mut Scanner) -> bool {
    scanner.rewind();
    scanner.next() == 0
}

fn does(scanner: &mut Scanner, alloc: Global, classes: &Classes, step: &Step) -> bool {
    match step {
        Wants(wanted) => scanner.wants() == *wanted,
        Give(bytes, offsets) => takes(scanner, alloc, bytes, *offsets),
        Check(branch) => breaks(scanner, classes, *branch),
        Row(count, bits) => has_row(scanner, classes, *count, *bits),
        Broken => is_broken(scanner, classes),
        Skip => skip(scanner),
        Rewind => rewind(scanner),
        Refuse(branch) => refuse(scanner, *branch),
        End(rows) => ends(scanner, classes, *rows),
    }
}

fn does_all(mut scanner: Scanner, alloc: Global, steps: &[Step]) -> bool {
    let classes = Classes::new(alloc);
    for step in steps {
        if !does(&mut scanner, alloc, &classes, step) {
            return false;
        }
    }
    true
}

// Whether each step of a scan of tree `V` is as it says.
fn is_walked(alloc: Global, steps: &[Step]) -> bool {
    match scan_of_v(alloc) {
        Ok(scanner) => does_all(scanner, alloc, steps),
        Err(_) => false,
    }
}

static WALK: [Step; 19] = [
    Wants(Some((0, 0))),
    Give(COUNTS, false),
    Wants(Some((1, 0))),
    Give(COUNTED, true),
    Check(None),
    Row(0, Some(&[])),
    Row(3, Some(&[0x3f80_0000, 0x4000_0000, 0x4040_0000])),
    Wants(Some((0, 1))),
    Give(LAST_COUNT, false),
    Row(0, Some(&[])),
    Wants(None),
    End(3),
    Rewind,
    Refuse(1),
    Give(COUNTS, false),
    Wants(None),
    Skip,
    Row(3, None),
    Wants(Some((0, 1))),
];

// The second entry of branch `v` is one number too long.
static BROKEN_WALK: [Step; 9] = [
    Give(BAD_COUNTS, false),
    Give(COUNTED, true),
    Row(0, Some(&[])),
    Check(Some(1)),
    Broken,
    Give(LAST_COUNT, false),
    Check(None),
    Row(0, Some(&[])),
    End(3),
];

#[test]
fn rows_of_a_tree(rt: HostRuntime) {
    assert!(rt; is_walked(rt.alloc(), &WALK));
    assert!(rt; is_walked(rt.alloc(), &BROKEN_WALK));
}

fn three_baskets(alloc: Global) -> Result<Baskets, NoMemory>
    ensures { IfOk result (λ baskets. IsIndex baskets 9) }
{
    Baskets::from_slice(alloc, &[at(0), at(3), at(5)])
}

fn is_in(branch: &Branch, entry: u64, basket: Option<usize>) -> bool
    requires { IsIndex branch.now.baskets branch.now.entries }
{
    basket_of(branch, entry) == basket
}

fn are_in_order(branch: &Branch) -> bool
    requires { IsIndex branch.now.baskets branch.now.entries }
{
    is_in(branch, 2, Some(0))
        && is_in(branch, 3, Some(1))
        && is_in(branch, 4, Some(1))
        && is_in(branch, 5, Some(2))
        && is_in(branch, 8, Some(2))
        && is_in(branch, 9, None)
}

fn are_found(alloc: Global) -> bool {
    match three_baskets(alloc) {
        Ok(baskets) => are_in_order(&branch(alloc, Leaves::new(alloc), 9, baskets)),
        Err(_) => false,
    }
}

#[test]
fn entries_are_in_their_baskets(rt: HostRuntime) {
    assert!(rt; are_found(rt.alloc()));
}
