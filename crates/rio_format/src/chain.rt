//! The classes of one name, each leading to the one before it.
ghost use Rattle.std.specs.Prelude.{◌≡◌, ◌∷◌, ◌++◌, [], Some, slice_get, OnOk, OnErr};
ghost use Rattle.std.specs.Option.{option_and_then};
ghost use Rattle.rio_format.specs.{Chain.{IsChainOf}, Places.{is_named, place}};

use crate::ClassDef;
use rio_num::NoMemory;
use std::alloc::Global;

/// Where the classes of each name stand, from the last of them back.
#[derive(Debug, Drop)]
pub(crate) struct Chain {
    // At the first class of a name, the last of that name.
    last: Vec<Option<usize>>,
    // At each class, the one before it of its name.
    before: Vec<Option<usize>>,
}

// The place that stands there, if one does.
fn led_to(places: &[Option<usize>], k: usize) -> Option<usize>
    ensures { result ≡ option_and_then (λ place. place) (slice_get places.now k) }
{
    match places.get(k) {
        Some(place) => *place,
        None => None,
    }
}

impl Chain {
    /// That of no classes.
    pub(crate) fn new(alloc: Global) -> Chain
        ensures { IsChainOf [] result }
    {
        Chain {
            last: Vec::new(alloc),
            before: Vec::new(alloc),
        }
    }

    /// The last class of the name whose first class stands at `first`.
    pub(crate) fn last(&self, first: usize) -> Option<usize>
        ensures { result ≡ option_and_then (λ place. place) (slice_get self.now.last.items first) }
    {
        led_to(self.last.as_slice(), first)
    }

    /// The class before the one at `k` that has the same name.
    pub(crate) fn before(&self, k: usize) -> Option<usize>
        ensures { result ≡ option_and_then (λ place. place) (slice_get self.now.before.items k) }
    {
        led_to(self.before.as_slice(), k)
    }

    /// Takes up a class that comes behind the others. `first` is the first of its name, which may be that class.
    pub(crate) fn put(
        &mut self,
        classes: &[ClassDef],
        class: &ClassDef,
        first: usize,
    ) -> Result<(), NoMemory>
        requires chain { IsChainOf classes.now self.old }
        requires first { place (is_named class.now.name) (classes.now ++ class.now ∷ [])
            ≡ Some first }
        ensures ok { OnOk result (IsChainOf (classes.now ++ class.now ∷ []) self.new) }
        ensures err { OnErr result (IsChainOf classes.now self.new) }
    {
        self.last.reserve(1)?;
        let before = self.last(first);
        self.before.push(before)?;
        self.last.push(None)?;
        self.last[first] = Some(classes.len());
        Ok(())
    }

    /// Lets go of a class that came behind the others. `first` is the first of the others that has its name. This takes
    /// no memory.
    pub(crate) fn forget(&mut self, classes: &[ClassDef], class: &ClassDef, first: Option<usize>)
        requires chain { IsChainOf (classes.now ++ class.now ∷ []) self.old }
        requires first { first ≡ place (is_named class.now.name) classes.now }
        ensures { IsChainOf classes.now self.new }
    {
        let kept = self.before(classes.len());
        self.last.truncate(classes.len());
        self.before.truncate(classes.len());
        if let Some(first) = first {
            self.last[first] = kept;
        }
    }
}
