//! The open baskets of a tree are planned to be put.
ghost use Rattle.std.specs.Prelude.{◌≡◌, ◌<◌, ◌≤◌, ◌^◌, ℕ, List, length, slice_get, sum, Some, IfOk, OnOk};
ghost use Rattle.std.specs.List.{All};
ghost use Rattle.rio_chain.specs.declared.segment.Segment.{Segment as FileSegment};
ghost use Rattle.rio_effect.specs.TreeRecords.{record_of_basket};
ghost use Rattle.rio_fill.specs.Fill.{BranchFill, count_before, entry_count};
ghost use Rattle.rio_session.specs.Fillings.{put_open, words_of_open};
ghost use Rattle.rio_session.specs.Measures.{flags_for};
ghost use Rattle.rio_session.specs.Noted.{IsPlannedMore, PlansBaskets, flagged, open_length_of};

use crate::open_tree::{OpenTree, basket_length};
use crate::steps::Step;
use rio_fill::{Filler, Flags, is_flagged};
use rio_num::{Bytes, Lengths, NoMemory, Places, padded};
use rio_tree::{BasketAt, Baskets};
use std::alloc::Global;

/// Puts of baskets, and where they stand then, in order of branches.
#[derive(Drop)]
pub(crate) struct PlannedBaskets {
    pub(crate) steps: Vec<Step>,
    pub(crate) ats: Baskets,
}

// How long the record of the open basket of the branch at `k` is, with its zero bytes.
fn open_length(tree: &OpenTree, k: usize) -> u64
    ensures exact { (b : BranchFill) → slice_get tree.now.fill.branches k ≡ Some b
        → result ≡ open_length_of tree.now.name b }
    ensures low { result < 2 ^ 26 }
{
    tree.stays_bounded();
    match (tree.filler.def(k), tree.filler.basket(k)) {
        (Some(def), Some(basket)) => padded(basket_length(
            tree.name.as_slice(),
            def,
            basket.count() as u64,
            basket.entries_length() as u64,
        )),
        _ => 0,
    }
}

/// How long the records are of the open baskets of the flagged branches.
pub(crate) fn open_lengths(
    alloc: Global,
    tree: &OpenTree,
    flags: Flags,
) -> Result<Lengths, NoMemory>
    ensures exact { IfOk result (λ lengths. (datime count : ℕ) (segments : List FileSegment)
        → lengths ≡ (put_open datime tree.now.name count segments tree.now.fill.branches
        (flags_for tree.now.fill.branches flags)).lengths) }
    ensures few { IfOk result (λ lengths. length lengths ≤ 64) }
    ensures small { IfOk result (λ lengths. sum lengths < 2 ^ 32) }
{
    tree.stays_bounded();
    let mut lengths = Lengths::new(alloc);
    for k in 0..tree.filler.width() {
        if is_flagged(flags, k) {
            lengths.push(open_length(tree, k))?;
        }
    }
    Ok(lengths)
}

// The record of the open basket of the branch at `k`, for this place.
fn open_record(
    alloc: Global,
    tree: &OpenTree,
    k: usize,
    place: u64,
    datime: u32,
) -> Result<Bytes, NoMemory>
    requires low { place < 2 ^ 32 }
    ensures exact { (b : BranchFill) → slice_get tree.now.fill.branches k ≡ Some b
        → IfOk result (λ made. made.bytes
        ≡ record_of_basket place (words_of_open tree.now.name datime b)) }
    ensures spare { (b : BranchFill) → slice_get tree.now.fill.branches k ≡ Some b
        → IfOk result (λ made. 4 ≤ made.spare) }
    ensures long { (b : BranchFill) → slice_get tree.now.fill.branches k ≡ Some b
        → IfOk result (λ made. length made.bytes ≡ open_length_of tree.now.name b) }
    ensures short { IfOk result (λ made. length made.bytes < 2 ^ 26) }
{
    tree.stays_bounded();
    match (tree.filler.def(k), tree.filler.basket(k)) {
        (Some(def), Some(basket)) => {
            basket.to_record(place, tree.name.as_slice(), def.name.as_slice(), datime)
        }
        _ => Ok(Bytes::new(alloc)),
    }
}

// The number of the first entry of the open basket of the branch at `k`.
fn first_entry(filler: &Filler, k: usize) -> u64
    ensures { (b : BranchFill) → slice_get filler.now.branches k ≡ Some b
        → result ≡ count_before (entry_count filler.now) b }
{
    match filler.first(k) {
        Some(first) => first,
        None => 0,
    }
}

// Plans the put of the open basket of the branch at `k`, at this place.
fn plan_basket(
    alloc: Global,
    tree: &OpenTree,
    k: usize,
    place: u64,
    datime: u32,
    planned: &mut PlannedBaskets,
) -> Result<(), NoMemory>
    requires low { place < 2 ^ 32 }
    ensures { (b : BranchFill) → slice_get tree.now.fill.branches k ≡ Some b
        → OnOk result (IsPlannedMore datime tree.now.name (entry_count tree.now.fill) b place
        planned.old.steps.items planned.old.ats planned.new.steps.items planned.new.ats) }
{
    let body = open_record(alloc, tree, k, place, datime)?;
    planned.ats.push(BasketAt {
        bytes: body.len() as u32,
        first: first_entry(&tree.filler, k),
        seek: place,
    })?;
    planned.steps.push(Step::Put { place, body })?;
    Ok(())
}

// Plans it at the place that is next.
fn plan_next(
    alloc: Global,
    tree: &OpenTree,
    k: usize,
    places: &Places,
    next: usize,
    datime: u32,
    planned: &mut PlannedBaskets,
) -> Result<(), NoMemory>
    requires low { All (λ place. place < 2 ^ 32) places.now }
    ensures { (b : BranchFill) (place : ℕ) → slice_get tree.now.fill.branches k ≡ Some b
        → slice_get places.now next ≡ Some place
        → OnOk result (IsPlannedMore datime tree.now.name (entry_count tree.now.fill) b place
        planned.old.steps.items planned.old.ats planned.new.steps.items planned.new.ats) }
{
    match places.get(next) {
        Some(place) => plan_basket(alloc, tree, k, *place, datime, planned),
        None => Ok(()),
    }
}

/// Plans the puts of the open baskets of the flagged branches, in order of branches, at the first of these places.
pub(crate) fn plan_baskets(
    alloc: Global,
    tree: &OpenTree,
    flags: Flags,
    places: &Places,
    datime: u32,
) -> Result<PlannedBaskets, NoMemory>
    requires low { All (λ place. place < 2 ^ 32) places.now }
    requires enough { length (flagged tree.now.fill.branches
        (flags_for tree.now.fill.branches flags)) ≤ length places.now }
    ensures { IfOk result (λ planned. PlansBaskets datime tree.now flags places.now
        planned.steps.items planned.ats) }
{
    tree.stays_bounded();
    let mut planned = PlannedBaskets {
        steps: Vec::new(alloc),
        ats: Baskets::new(alloc),
    };
    let mut next = 0;
    for k in 0..tree.filler.width() {
        if is_flagged(flags, k) {
            plan_next(alloc, tree, k, places, next, datime, &mut planned)?;
            next += 1;
        }
    }
    Ok(planned)
}
