//! A tree of a session, and how long the records of its next save are.
ghost use Rattle.std.specs.Prelude.{◌≡◌, ◌+◌, ◌*◌, ◌<◌, ◌≤◌, ◌^◌, length, slice_get, Some, IfSome, codes, if◌then◌else◌};
ghost use Rattle.std.specs.List.{All};
ghost use Rattle.std.specs.Option.{option_copied};
ghost use Rattle.rio_fill.specs.Fill.{BranchFill};
ghost use Rattle.rio_machine.specs.Limits.{head_length};
ghost use Rattle.rio_session.specs.Measures.{IsBoundedBranch, IsSmallRow, basket_size, entry_length, filled_by, filled_of, filled_with, no_sums, sums_from, with_branch};
ghost use Rattle.rio_session.specs.Due.{written_count};

use rio_fill::{Filler, Flags, Prepared, is_flagged};
use rio_key::key_length_of;
use rio_leaf::BranchDef;
use rio_num::{Name, padded};
use rio_tree::has_offsets;
use std::marker::Model;

/// A tree of a session: its baskets that were written, and its pending rows.
#[derive(Drop)]
pub(crate) struct OpenTree {
    pub(crate) name: Name,
    pub(crate) filler: Filler,
    // How long the value of a header is without baskets.
    pub(crate) header_bytes: u64,
}

impl Model for OpenTree {
    ghost use Rattle.std.specs.Prelude.{◌≡◌};
    ghost use Rattle.rio_fill.specs.Fill.{defs_of};
    ghost use Rattle.rio_session.specs.Fills.{FilledTree};
    ghost use Rattle.rio_session.specs.Measures.{IsBoundedTree};
    ghost use Rattle.rio_tree.specs.HeaderLength.{header_size};

    ghost Value = { FilledTree };

    ghost view = { λ t. record { name = t.name; fill = t.filler } };

    ghost invariant = { λ t. record {
      header : t.header_bytes ≡ header_size t.name (defs_of t.filler.branches);
      bounded : IsBoundedTree t.name t.filler;
    } };
}

/// How long the records are of the saves that are due, each with its zero bytes, and how many open baskets have entries.
#[derive(Clone, Copy)]
pub(crate) struct Due {
    pub(crate) bytes: u64,
    pub(crate) baskets: u64,
}

/// Sums over branches: how long the records of the open baskets are, each with its zero bytes, how many of them have entries,
/// and how many baskets the header of a save names.
#[derive(Clone, Copy)]
struct SaveSums {
    bytes: u64,
    baskets: u64,
    named: u64,
}

/// How many bytes are written of a basket behind its key: `count` entries of so many bytes together.
fn basket_data_length(offsets: bool, count: u64, bytes: u64) -> u64
    requires { bytes + 4 * count + 8 < 2 ^ 64 }
    ensures { result ≡ (if offsets then bytes + 4 * count + 8 else bytes) }
{
    if offsets {
        bytes + 4 * count + 8
    } else {
        bytes
    }
}

/// How long the record is of a basket with so many entries of so many bytes, without its zero bytes.
pub(crate) fn basket_length(tree: &[u8], def: &BranchDef, count: u64, bytes: u64) -> u64
    requires tree { length tree.now ≤ 100 }
    requires branch { length def.now.name ≤ 100 }
    requires count { count ≤ 8193 }
    requires bytes { bytes ≤ 33554432 }
    ensures exact { result ≡ basket_size tree.now def.now count bytes }
    ensures low { result ≤ 33590000 }
{
    let key = key_length_of(b"TBasket", def.name.as_slice(), tree) as u64 + 19;
    key + basket_data_length(has_offsets(&def.shape), count, bytes)
}

/// How long the record is of a tree's header that names so many baskets, without its zero bytes.
fn header_length(name: &[u8], header_bytes: u64, baskets: u64) -> u64
    requires name { length name.now ≤ 100 }
    requires bytes { header_bytes < 2 ^ 30 }
    requires baskets { baskets < 2 ^ 33 }
    ensures exact { result ≡ head_length (codes "TTree") name.now + (header_bytes + 20 * baskets) }
    ensures low { result < 2 ^ 39 }
{
    key_length_of(b"TTree", name, b"") as u64 + header_bytes + 20 * baskets
}

/// A branch of a tree: how many baskets of it were written, and how many entries of how many bytes the open one has.
#[derive(Clone, Copy)]
struct Filled {
    written: u64,
    count: u64,
    bytes: u64,
}

// Those of the branch at `k`.
fn filled_at(filler: &Filler, k: usize) -> Filled
    ensures { (b : BranchFill) → slice_get filler.now.branches k ≡ Some b
        → result ≡ filled_of b }
{
    let written = match filler.baskets(k) {
        Some(baskets) => baskets.len() as u64,
        None => 0,
    };
    match filler.basket(k) {
        Some(basket) => Filled {
            written,
            count: basket.count() as u64,
            bytes: basket.entries_length() as u64,
        },
        None => Filled {
            written,
            count: 0,
            bytes: 0,
        },
    }
}

// The branch with an entry more, where the open basket is put first if the flag is set.
fn filled_with(filled: Filled, flagged: bool, entry: u64) -> Filled
    requires written { filled.written < 2 ^ 32 }
    requires count { filled.count < 2 ^ 32 }
    requires bytes { filled.bytes + entry < 2 ^ 64 }
    ensures { result ≡ filled_with filled flagged entry }
{
    if flagged {
        Filled {
            written: filled.written + 1,
            count: 1,
            bytes: entry,
        }
    } else {
        Filled {
            written: filled.written,
            count: filled.count + 1,
            bytes: filled.bytes + entry,
        }
    }
}

// How long the entry of the branch at `k` is.
fn entry_length(row: &Prepared, k: usize) -> u64
    ensures { result ≡ entry_length row.now k }
{
    match row.entry(k) {
        Some(entry) => entry.len() as u64,
        None => 0,
    }
}

// The branch at `k`, with its entry of the row where one is given.
fn filled_by(filler: &Filler, row: Option<&Prepared>, flags: Flags, k: usize) -> Filled
    requires small { IfSome (option_copied row) IsSmallRow }
    requires bounded { All IsBoundedBranch filler.now.branches }
    requires written { All (λ b. length b.baskets < 2 ^ 32) filler.now.branches }
    requires there { k < length filler.now.branches }
    ensures { (b : BranchFill) → slice_get filler.now.branches k ≡ Some b
        → result ≡ filled_by (option_copied row.entry) flags k b }
{
    let now = filled_at(filler, k);
    match row {
        Some(row) => filled_with(now, is_flagged(flags, k), entry_length(row, k)),
        None => now,
    }
}

// The sums with one branch more, which is filled so.
fn with_branch(sums: SaveSums, tree: &[u8], def: &BranchDef, filled: Filled) -> SaveSums
    requires tree { length tree.now ≤ 100 }
    requires branch { length def.now.name ≤ 100 }
    requires count { filled.count ≤ 8193 }
    requires bytes { filled.bytes ≤ 33554432 }
    requires written { filled.written ≤ 2 ^ 32 }
    requires low { (sums.bytes < 2 ^ 40) × (sums.baskets < 2 ^ 40) × (sums.named < 2 ^ 40) }
    ensures exact { result ≡ with_branch sums tree.now def.now filled }
    ensures low { result.bytes ≤ sums.bytes + 33590003 }
{
    if filled.count > 0 {
        SaveSums {
            bytes: sums.bytes + padded(basket_length(tree, def, filled.count, filled.bytes)),
            baskets: sums.baskets + 1,
            named: sums.named + (filled.written + 1),
        }
    } else {
        SaveSums {
            bytes: sums.bytes,
            baskets: sums.baskets,
            named: sums.named + filled.written,
        }
    }
}

// The sums with the branch at `k` more, with its entry of the row where one is given.
fn with_branch_at(
    sums: SaveSums,
    tree: &[u8],
    filler: &Filler,
    row: Option<&Prepared>,
    flags: Flags,
    k: usize,
) -> SaveSums
    requires tree { length tree.now ≤ 100 }
    requires bounded { All IsBoundedBranch filler.now.branches }
    requires written { All (λ b. length b.baskets < 2 ^ 32) filler.now.branches }
    requires small { IfSome (option_copied row) IsSmallRow }
    requires there { k < length filler.now.branches }
    requires low { (sums.bytes < 2 ^ 40) × (sums.baskets < 2 ^ 40) × (sums.named < 2 ^ 40) }
    ensures exact { (b : BranchFill) → slice_get filler.now.branches k ≡ Some b
        → result ≡ with_branch sums tree.now b.def
        (filled_by (option_copied row.entry) flags k b) }
    ensures low { result.bytes ≤ sums.bytes + 33590003 }
{
    match filler.def(k) {
        Some(def) => with_branch(sums, tree, def, filled_by(filler, row, flags, k)),
        None => sums,
    }
}

// The sums over all branches of a tree of this name, with the row where one is given.
fn sum_branches(tree: &[u8], filler: &Filler, row: Option<&Prepared>, flags: Flags) -> SaveSums
    requires tree { length tree.now ≤ 100 }
    requires few { length filler.now.branches ≤ 64 }
    requires bounded { All IsBoundedBranch filler.now.branches }
    requires written { written_count filler.now.branches < 2 ^ 32 }
    requires small { IfSome (option_copied row) IsSmallRow }
    ensures exact { result ≡ sums_from tree.now (filled_by (option_copied row.entry) flags) 0
        no_sums filler.now.branches }
    ensures low { (result.bytes < 2 ^ 39) × (result.baskets ≤ 64) }
    ensures few { result.named < 2 ^ 33 }
{
    let mut sums = SaveSums {
        bytes: 0,
        baskets: 0,
        named: 0,
    };
    for k in 0..filler.width() {
        sums = with_branch_at(sums, tree, filler, row, flags, k);
    }
    sums
}

impl OpenTree {
    ghost use Rattle.std.specs.Prelude.{◌≡◌, ◌+◌, ◌*◌, ◌<◌, ◌≤◌, ◌^◌, IfSome, length};
    ghost use Rattle.std.specs.Option.{option_copied};
    ghost use Rattle.rio_fill.specs.Fill.{defs_of, full_flags};
    ghost use Rattle.rio_session.specs.Due.{due_of_fill, lengths_of_fill};
    ghost use Rattle.rio_session.specs.Fillings.{open_list};
    ghost use Rattle.rio_session.specs.Measures.{IsBoundedTree, IsSmallRow, due_by_sums, filled_by, flags_for, no_sums, sums_from};
    ghost use Rattle.rio_session.specs.TreeWorks.{due_behind};
    ghost use Rattle.rio_state.specs.Closing.{padded_length};

    /// Names, branches and baskets are so few that no sum of lengths passes 64 bits.
    pub(crate) fn stays_bounded(&self)
        ensures { IsBoundedTree self.now.name self.now.fill }
    {
        let _bytes = self.header_bytes;
    }

    /// How many branches there are.
    pub(crate) fn width(&self) -> usize
        ensures { result ≡ length self.now.fill.branches }
    {
        self.filler.width()
    }

    // What a save writes where rows are pending, with the row where one is given.
    fn due_by(&self, row: Option<&Prepared>, flags: Flags, pending: bool) -> Due
        requires small { IfSome (option_copied row) IsSmallRow }
        ensures exact { result ≡ due_by_sums self.now.name (defs_of self.now.fill.branches) pending
            (sums_from self.now.name (filled_by (option_copied row.entry) flags) 0 no_sums
            self.now.fill.branches) }
        ensures low { (result.bytes < 2 ^ 40) × (result.baskets ≤ 64) }
    {
        let sums = sum_branches(self.name.as_slice(), &self.filler, row, flags);
        if pending {
            let header = header_length(self.name.as_slice(), self.header_bytes, sums.named);
            Due {
                bytes: sums.bytes + padded(header),
                baskets: sums.baskets,
            }
        } else {
            Due {
                bytes: 0,
                baskets: sums.baskets,
            }
        }
    }

    /// What a close writes of the tree.
    pub(crate) fn due(&self) -> Due
        ensures exact { result ≡ due_of_fill self.now.name self.now.fill }
        ensures low { (result.bytes < 2 ^ 40) × (result.baskets ≤ 64) }
    {
        self.due_by(None, 0, self.filler.pending() > 0)
    }

    /// What it writes with this row pending, once the baskets are put that don't take it.
    pub(crate) fn due_with(&self, row: &Prepared, flags: Flags) -> Due
        requires flags { flags ≡ full_flags self.now.fill.branches row.now }
        requires entries { length row.now ≡ length self.now.fill.branches }
        requires small { IsSmallRow row.now }
        ensures exact { result ≡ due_behind self.now row.now }
        ensures low { (result.bytes < 2 ^ 40) × (result.baskets ≤ 64) }
    {
        self.due_by(Some(row), flags, true)
    }

    /// How long the header is of a save, with all baskets, and its zero bytes.
    pub(crate) fn next_header_length(&self) -> u64
        ensures exact { result
            ≡ padded_length (lengths_of_fill self.now.name self.now.fill).header }
        ensures low { result < 2 ^ 40 }
    {
        let sums = sum_branches(self.name.as_slice(), &self.filler, None, 0);
        padded(header_length(self.name.as_slice(), self.header_bytes, sums.named))
    }

    /// Which branches have entries in the open basket.
    pub(crate) fn open_flags(&self) -> Flags
        ensures { flags_for self.now.fill.branches result ≡ open_list self.now.fill.branches }
    {
        self.filler.open_flags()
    }

    /// How many rows are saved, and how many are pending.
    pub(crate) fn rows(&self) -> (u64, u64)
        ensures { (result.0 ≡ self.now.fill.saved) × (result.1 ≡ self.now.fill.pending) }
    {
        (self.filler.saved_rows(), self.filler.pending())
    }
}
