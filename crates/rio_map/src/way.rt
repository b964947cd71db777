//! The way of a search from a class to those that its zero needs, each within the one before.
use rio_num::{Name, NoMemory};
use std::alloc::Global;
use std::collections::BTreeMap;
use std::marker::Model;

/// The classes on the way, the outermost first. Contracts see their names.
#[derive(Drop)]
pub(crate) struct Way<'a> {
    classes: Vec<Name>,
    // Of each class on the way, the number of the part to go on with.
    parts: Vec<usize>,
    // Of each class that was ever on the way, its place.
    places: BTreeMap<&'a [u8], usize>,
}

impl<'a> Model for Way<'a> {
    ghost use Rattle.std.specs.Prelude.{ℕ, List};

    ghost Value = { List (List ℕ) };

    ghost view = { λ way. way.classes.items };
}

impl<'a> Way<'a> {
    ghost use Rattle.std.specs.Prelude.{◌≡◌, ◌-◌, [], ◌∷◌, ◌++◌, length, slice_get, take, true, OnOk, Some};
    ghost use Rattle.std.specs.Option.{option_copied};

    /// No classes.
    pub(crate) fn new(alloc: Global) -> Way<'a>
        ensures { result ≡ [] }
    {
        Way {
            classes: Vec::new(alloc),
            parts: Vec::new(alloc),
            places: BTreeMap::new(alloc),
        }
    }

    // The class at this place.
    fn get(&self, place: usize) -> Option<&Name>
        ensures { option_copied result ≡ slice_get self.now place }
    {
        self.classes.get(place)
    }

    /// The innermost class.
    pub(crate) fn last(&self) -> Option<&Name>
        ensures { option_copied result ≡ slice_get self.now (length self.now - 1) }
    {
        self.get(self.classes.len().saturating_sub(1))
    }

    /// The number of its part to go on with.
    pub(crate) fn part(&self) -> usize {
        self.parts.last().copied().unwrap_or(0)
    }

    /// Where the class stood, if it ever was on the way.
    pub(crate) fn place_of(&self, class: &[u8]) -> Option<usize> {
        self.places.get(class).copied()
    }

    /// Whether the class stands at this place.
    pub(crate) fn is_at(&self, place: usize, class: &[u8]) -> bool
        ensures { result ≡ true → slice_get self.now place ≡ Some class.now }
    {
        match self.get(place) {
            Some(name) => name.as_slice() == class,
            None => false,
        }
    }

    /// Goes into a class that wasn't on the way before. Where there is no memory for it, the search can't go on.
    pub(crate) fn enter(&mut self, class: &'a [u8]) -> Result<(), NoMemory>
        ensures { OnOk result (self.new ≡ self.old ++ class.now ∷ []) }
    {
        let alloc = *self.classes.allocator();
        self.places.insert(class, self.classes.len())?;
        self.parts.push(0)?;
        self.classes.push(Name::from_slice(alloc, class)?)?;
        Ok(())
    }

    /// Leaves the innermost class.
    pub(crate) fn leave(&mut self)
        ensures { self.new ≡ take (length self.old - 1) self.old }
    {
        let _ = self.parts.pop();
        let _ = self.classes.pop();
    }

    /// The innermost class is to go on with this part.
    pub(crate) fn go_on(&mut self, part: usize) -> Result<(), NoMemory>
        ensures { OnOk result (self.new ≡ self.old) }
    {
        let _ = self.parts.pop();
        self.parts.push(part)?;
        Ok(())
    }
}
