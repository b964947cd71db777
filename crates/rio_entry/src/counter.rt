//! Which leaf counts each leaf of a branch.
ghost use Rattle.std.specs.Prelude.{◌≡◌, ℕ, List, [], Some, IfOk, OnOk, if◌then◌else◌};
ghost use Rattle.std.specs.Str.{bytes_eq};
ghost use Rattle.rio_entry.specs.Counting.{LeadsTo, Places as PlacesBefore, counter_among, counters_from, place_by_name};

use rio_leaf::{Dim, Leaf, Shape};
use rio_num::NoMemory;
use std::alloc::Global;
use std::collections::BTreeMap;
use std::marker::Model;

// The number of the nearest leaf of each name.
type Places<'a> = BTreeMap<&'a [u8], usize>;

// The name leads to this leaf from now on.
fn put_place<'a>(places: &mut Places<'a>, name: &'a [u8], k: usize) -> Result<(), NoMemory>
    ensures { OnOk result
        ((q : List ℕ) →
        place_by_name places.new q
        ≡ (if bytes_eq q name.now then Some k else place_by_name places.old q)) }
{
    places.insert(name, k)?;
    Ok(())
}

fn place_of(places: &Places, name: &[u8]) -> Option<usize>
    ensures { result ≡ place_by_name places.now name.now }
{
    places.get(name).copied()
}

fn counter_among(places: &Places, dim: &Dim) -> Option<usize>
    ensures { (before : PlacesBefore) → LeadsTo places.now before
        → result ≡ counter_among dim.now before }
{
    match dim {
        Dim::Counted { counter, .. } => place_of(places, counter.as_slice()),
        _ => None,
    }
}

fn counters_of(alloc: Global, leaves: &[Leaf]) -> Result<Vec<Option<usize>>, NoMemory>
    ensures { IfOk result (λ counters. counters.items ≡ counters_from leaves.now 0 []) }
{
    let mut counters = Vec::new(alloc);
    let mut places = Places::new(alloc);
    for (k, leaf) in leaves.iter().enumerate() {
        counters.push(counter_among(&places, &leaf.dim))?;
        put_place(&mut places, leaf.name.as_slice(), k)?;
    }
    Ok(counters)
}

/// For each leaf of a branch the number of the leaf that counts it, from 0: the nearest leaf of the counter's name before it
/// in the branch. A leaf has none where it isn't counted, or its counter stands in another branch.
///
/// It depends on the branch alone. A caller that reads many entries of a branch makes it once, so that each entry costs a
/// time linear in its leaves.
#[derive(Drop)]
pub struct LeafCounters {
    at: Vec<Option<usize>>,
}

impl Model for LeafCounters {
    ghost use Rattle.std.specs.Prelude.{ℕ, List, Option};

    ghost Value = { List (Option ℕ) };

    ghost view = { λ counters. counters.at.items };
}

impl LeafCounters {
    ghost use Rattle.std.specs.Prelude.{◌≡◌, [], IfOk};
    ghost use Rattle.rio_entry.specs.Counting.{counter_at, counters_from, counters_within};

    /// The counters of a branch of this shape.
    pub fn new(alloc: Global, shape: &Shape) -> Result<LeafCounters, NoMemory>
        ensures { IfOk result (λ counters. counters ≡ counters_within shape.now) }
    {
        match shape {
            Shape::Leaves(leaves) => LeafCounters::of(alloc, leaves.as_slice()),
            Shape::Class(_) => Ok(LeafCounters {
                at: Vec::new(alloc),
            }),
        }
    }

    // The counters of these leaves.
    pub(crate) fn of(alloc: Global, leaves: &[Leaf]) -> Result<LeafCounters, NoMemory>
        ensures { IfOk result (λ counters. counters ≡ counters_from leaves.now 0 []) }
    {
        let at = counters_of(alloc, leaves)?;
        Ok(LeafCounters { at })
    }

    // The leaf that counts the leaf at `k`.
    pub(crate) fn get(&self, k: usize) -> Option<usize>
        ensures { result ≡ counter_at self.now k }
    {
        match self.at.get(k) {
            Some(counter) => *counter,
            None => None,
        }
    }
}
