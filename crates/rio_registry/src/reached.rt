//! The names that are reached, each once.
use indexmap::IndexSet;
use rio_num::NoMemory;
use std::alloc::Global;
use std::marker::Model;

/// Names in order, none of them twice, which stand elsewhere.
#[derive(Drop)]
pub(crate) struct ReachedNames<'a> {
    names: IndexSet<&'a [u8]>,
}

impl<'a> Model for ReachedNames<'a> {
    ghost use Rattle.std.specs.Prelude.{ℕ, List, map};

    ghost Value = { List (List ℕ) };

    ghost view = { λ reached. map (λ name. name.now) reached.names.keys };
}

impl<'a> ReachedNames<'a> {
    ghost use Rattle.std.specs.Prelude.{◌≡◌, ◌<◌, ◌^◌, [], length, OnOk, slice_get};
    ghost use Rattle.std.specs.Option.{option_copied};
    ghost use Rattle.std.specs.Str.{bytes_eq};
    ghost use Rattle.rio_num.specs.Word.{is_among};
    ghost use Rattle.rio_registry.specs.Reaching.{IsGrown};

    /// No names.
    pub(crate) fn new(alloc: Global) -> ReachedNames<'a>
        ensures { result ≡ [] }
    {
        ReachedNames {
            names: IndexSet::new(alloc),
        }
    }

    /// The name at `index`, counted from 0.
    pub(crate) fn get(&self, index: usize) -> Option<&'a [u8]>
        ensures name { option_copied result ≡ slice_get self.now index }
        ensures small { length self.now < 2 ^ 63 }
    {
        self.names.as_slice().get(index).copied()
    }

    /// Whether the name is there.
    pub(crate) fn contains(&self, name: &[u8]) -> bool
        ensures { result ≡ is_among self.now name.now }
    {
        self.names.contains(&name)
    }

    /// Puts the name at the end, unless it is there. Where there is no memory for it, the names may have changed.
    pub(crate) fn add(&mut self, name: &'a [u8]) -> Result<(), NoMemory>
        ensures { OnOk result (IsGrown self.old self.new (λ n. bytes_eq n name.now)) }
    {
        self.names.insert(name)?;
        Ok(())
    }
}
