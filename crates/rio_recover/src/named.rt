//! The places of the baskets that the headers of trees name.
ghost use Rattle.std.specs.Prelude.{◌≡◌, ℕ, List, IfOk};

use rio_num::NoMemory;
use rio_tree::{BasketAt, TreeHead};
use std::alloc::Global;
use std::collections::BTreeSet;

/// Places, each of which stands there once.
#[derive(Drop)]
pub(crate) struct NamedPlaces {
    places: BTreeSet<u64>,
}

impl NamedPlaces {
    ghost use Rattle.std.specs.Prelude.{◌==◌, [], map};
    ghost use Rattle.std.specs.List.{list_any};
    ghost use Rattle.rio_state.specs.Trees.{basket_places};
    ghost use Rattle.rio_recover.specs.Baskets.{HasPlaces, NotesPlaces};

    /// No places.
    pub(crate) fn new(alloc: Global) -> NamedPlaces
        ensures { HasPlaces [] result }
    {
        NamedPlaces {
            places: BTreeSet::new(alloc),
        }
    }

    /// Whether the place is among them.
    pub(crate) fn has(&self, place: u64) -> bool
        ensures { (places : List ℕ) → HasPlaces places self.now
            → result ≡ list_any (λ p. p == place) places }
    {
        self.places.contains(&place)
    }

    // Notes the places of these baskets, and tells whether all of them were new.
    fn note_baskets(&mut self, baskets: &[BasketAt]) -> Result<bool, NoMemory>
        ensures { IfOk result
            (NotesPlaces (map (λ at. at.seek) baskets.now) self.old self.new) }
    {
        for at in baskets {
            if !self.places.insert(at.seek)? {
                return Ok(false);
            }
        }
        Ok(true)
    }

    /// Notes the places of the baskets that a header names, and tells whether all of them were new. Where one
    /// wasn't, not all of them need be noted.
    pub(crate) fn note_head(&mut self, head: &TreeHead) -> Result<bool, NoMemory>
        ensures { IfOk result (NotesPlaces (basket_places head.now) self.old self.new) }
    {
        for branch in head.branches.as_slice() {
            if !self.note_baskets(branch.baskets.as_slice())? {
                return Ok(false);
            }
        }
        Ok(true)
    }
}
