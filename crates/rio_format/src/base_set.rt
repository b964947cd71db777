//! Sets of bases whose names stand elsewhere.
use indexmap::IndexSet;
use rio_num::NoMemory;
use std::alloc::Global;
use std::hash::{Hash, Hasher};
use std::marker::Model;

/// A class in a version, whose name stands elsewhere. Contracts see the base.
#[derive(Drop)]
pub(crate) struct BorrowedBase<'a> {
    pub(crate) name: &'a [u8],
    pub(crate) version: i32,
}

impl<'a> Model for BorrowedBase<'a> {
    ghost use Rattle.rio_format.specs.{Visits.{base_of}, declared.class.Base.{Base}};

    ghost Value = { Base };

    ghost view = { λ base. base_of base.name.now base.version };
}

impl<'a> PartialEq for BorrowedBase<'a> {
    ghost use Rattle.std.proofs.Common.{rules};
    ghost use Rattle.std.specs.Cmp.Rules.{comparing};
    ghost use Rattle.rio_format.specs.Visits.{same_base};

    ghost eq = { same_base };

    ghost laws = { Prim.search (comparing, rules) };

    fn eq(&self, other: &BorrowedBase<'a>) -> bool {
        self.name == other.name && self.version == other.version
    }
}

impl<'a> Eq for BorrowedBase<'a> {
    ghost use Rattle.std.proofs.Common.{rules};
    ghost use Rattle.std.specs.Cmp.Rules.{comparing};

    ghost laws = { Prim.search (comparing, rules) };
}

impl<'a> Hash for BorrowedBase<'a> {
    ghost use Rattle.std.proofs.Common.{rules};
    ghost use Rattle.std.specs.Prelude.{◌++◌};
    ghost use Rattle.std.specs.Cmp.Rules.{hashing};
    ghost use Rattle.std.specs.Hash as fed;

    ghost hash_input = { λ base. fed.slice fed.u8 base.name ++ fed.i32 base.version };

    ghost respects_eq = { Prim.search (hashing, rules) };

    fn hash<H: Hasher>(&self, state: &mut H) {
        self.name.hash(state);
        self.version.hash(state);
    }
}

/// Bases in the order in which they were put, of which no two are of one class and version.
#[derive(Drop)]
pub struct BaseSet<'a> {
    bases: IndexSet<BorrowedBase<'a>>,
}

impl<'a> Model for BaseSet<'a> {
    ghost use Rattle.std.specs.Prelude.{List};
    ghost use Rattle.rio_format.specs.declared.class.Base.{Base};

    ghost Value = { List Base };

    ghost view = { λ set. set.bases.keys };
}

impl<'a> BaseSet<'a> {
    ghost use Rattle.std.specs.Prelude.{◌≡◌, ◌<◌, [], length, OnOk, Some, slice_get};
    ghost use Rattle.rio_format.specs.Visits.{base_of, is_visited, with_visit};

    /// No bases.
    pub fn new(alloc: Global) -> BaseSet<'a>
        ensures { result ≡ [] }
    {
        BaseSet {
            bases: IndexSet::new(alloc),
        }
    }

    /// How many bases there are.
    pub fn len(&self) -> usize
        ensures { result ≡ length self.now }
    {
        self.bases.len()
    }

    /// The base at `k`, counted from 0.
    pub(crate) fn get(&self, k: usize) -> &BorrowedBase<'a>
        requires { k < length self.now }
        ensures { Some result.now ≡ slice_get self.now k }
    {
        &self.bases.as_slice()[k]
    }

    /// Whether the class in the version is one of them.
    pub fn contains(&self, name: &[u8], version: i32) -> bool
        ensures { result ≡ is_visited self.now (base_of name.now version) }
    {
        self.bases.contains(&BorrowedBase { name, version })
    }

    /// Puts a base at the end, if the class isn't there already in this version. Where there is no memory for it, the set
    /// may have changed.
    pub fn put(&mut self, name: &'a [u8], version: i32) -> Result<(), NoMemory>
        ensures { OnOk result (self.new ≡ with_visit self.old (base_of name.now version)) }
    {
        self.bases.insert(BorrowedBase { name, version })?;
        Ok(())
    }
}
