//! Sets of borrowed names.
use crate::NoMemory;
use std::alloc::Global;
use std::collections::HashSet;
use std::marker::Model;

/// A set of names that stand elsewhere, which contracts see as a list of them: only what is among them counts.
#[derive(Drop)]
pub struct Names<'a> {
    names: HashSet<&'a [u8]>,
}

impl<'a> Model for Names<'a> {
    ghost use Rattle.std.specs.Prelude.{ℕ, List, map};

    ghost Value = { List (List ℕ) };

    ghost view = { λ names. map (λ name. name.now) names.names.keys };
}

impl<'a> Names<'a> {
    ghost use Rattle.std.specs.Prelude.{◌≡◌, ℕ, List, [], ◌||◌, OnOk};
    ghost use Rattle.std.specs.List.{list_any};
    ghost use Rattle.std.specs.Str.{bytes_eq};

    /// No names.
    pub fn new(alloc: Global) -> Names<'a>
        ensures { result ≡ [] }
    {
        Names {
            names: HashSet::new(alloc),
        }
    }

    /// One more name. Where there is no memory for it, the names may have changed.
    pub fn note(&mut self, name: &'a [u8]) -> Result<(), NoMemory>
        ensures { OnOk result ((other : List ℕ) → list_any (bytes_eq other) self.new
            ≡ (bytes_eq name.now other || list_any (bytes_eq other) self.old)) }
    {
        self.names.insert(name)?;
        Ok(())
    }

    /// Whether the name is among them.
    pub fn has(&self, name: &[u8]) -> bool
        ensures { result ≡ list_any (bytes_eq name.now) self.now }
    {
        self.names.contains(name)
    }
}
