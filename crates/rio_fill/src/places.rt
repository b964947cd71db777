//! A list of places with room for more.
use rio_num::NoMemory;
use rio_tree::BasketAt;
use std::alloc::Global;
use std::marker::Model;

/// Where baskets stand, and for how many more of them memory is promised.
#[derive(Drop)]
pub(crate) struct Places {
    items: Vec<BasketAt>,
    rooms: usize,
}

impl Model for Places {
    ghost use Rattle.std.specs.Prelude.{◌+◌, ◌≤◌, vec_len, vec_capacity};
    ghost use Rattle.rio_fill.specs.Fill.{PlaceRoom};

    ghost Value = { PlaceRoom };

    ghost view = { λ p. record { places = p.items.items; rooms = p.rooms } };

    ghost invariant = { λ p. vec_len p.items + p.rooms ≤ vec_capacity p.items };
}

impl Places {
    ghost use Rattle.std.specs.Prelude.{◌≡◌, ◌-◌, ◌<◌, [], ◌∷◌, ◌++◌, max, IfOk, OnOk, OnErr};

    /// These places.
    pub(crate) fn from_slice(alloc: Global, places: &[BasketAt]) -> Result<Places, NoMemory>
        ensures { IfOk result (λ p. p ≡ record { places = places.now; rooms = 0 }) }
    {
        Ok(Places {
            items: Vec::from_slice(alloc, places)?,
            rooms: 0,
        })
    }

    pub(crate) fn as_slice(&self) -> &[BasketAt]
        ensures { result.now ≡ self.now.places }
    {
        self.items.as_slice()
    }

    /// Makes room for one more place.
    pub(crate) fn reserve(&mut self) -> Result<(), NoMemory>
        ensures ok { OnOk result
            (self.new ≡ record { places = self.old.places; rooms = max self.old.rooms 1 }) }
        ensures err { OnErr result (self.new ≡ self.old) }
    {
        if self.rooms == 0 {
            self.items.reserve(1)?;
            self.rooms = 1;
        }
        Ok(())
    }

    /// Puts a place at the end, for which there is room.
    pub(crate) fn push(&mut self, at: BasketAt)
        requires { 0 < self.old.rooms }
        ensures { self.new
            ≡ record { places = self.old.places ++ at ∷ []; rooms = self.old.rooms - 1 } }
    {
        self.items.push_reserved(at);
        self.rooms -= 1;
    }
}
