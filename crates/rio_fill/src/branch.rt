//! A branch that is being filled.
ghost use Rattle.std.specs.Prelude.{◌≡◌, ◌++◌, IfOk};

use crate::places::Places;
use rio_key::Basket;
use rio_leaf::BranchDef;
use rio_num::NoMemory;
use rio_tree::{BasketAt, Baskets, Branch, BranchNumbers};
use std::alloc::Global;
use std::marker::Model;
use std::mem;

// These places, and behind them more.
fn joined(alloc: Global, places: &[BasketAt], more: &[BasketAt]) -> Result<Baskets, NoMemory>
    ensures { IfOk result (λ all. all ≡ places.now ++ more.now) }
{
    let mut all = Baskets::from_slice(alloc, places)?;
    for at in more {
        all.push(*at)?;
    }
    Ok(all)
}

/// A branch that is being filled: its baskets that were written, and the open one.
#[derive(Drop)]
pub(crate) struct OpenBranch {
    alloc: Global,
    def: BranchDef,
    class_version: i32,
    offsets: bool,
    counted_by: BranchNumbers,
    places: Places,
    basket: Basket,
    // An empty basket, which takes the place of the open one when that is written.
    next: Basket,
}

impl Model for OpenBranch {
    ghost use Rattle.std.specs.Prelude.{◌≡◌, [], IsTrue};
    ghost use Rattle.std.specs.List.{list_all};
    ghost use Rattle.rio_tree.specs.Header.{has_offsets};
    ghost use Rattle.rio_fill.specs.Fill.{BranchFill};
    ghost use Rattle.rio_fill.specs.Prepare.{is_sized};

    ghost Value = { BranchFill };

    ghost view = { λ b. record {
      def = b.def;
      class_version = b.class_version;
      counted_by = b.counted_by;
      baskets = b.places.places;
      rooms = b.places.rooms;
      entries = b.basket.entries;
      room = record { rooms = b.basket.rooms; spare = b.basket.spare };
      next = record { rooms = b.next.rooms; spare = b.next.spare };
    } };

    ghost invariant = { λ b. record {
      offsets : b.offsets ≡ has_offsets b.def.shape;
      in_basket : b.basket.offsets ≡ b.offsets;
      in_next : b.next.offsets ≡ b.offsets;
      empty : b.next.entries ≡ [];
      sized : IsTrue (list_all (is_sized b.def.shape) b.basket.entries);
    } };
}

impl OpenBranch {
    ghost use Rattle.std.specs.Prelude.{◌≡◌, ◌<◌, length, IsTrue, IfOk, OnOk, OnErr};
    ghost use Rattle.std.specs.Option.{option_copied};
    ghost use Rattle.rio_tree.specs.Header.{has_offsets};
    ghost use Rattle.rio_fill.specs.Fill.{basket_of, branch_added, branch_fill_of, branch_put, takes};
    ghost use Rattle.rio_fill.specs.Heads.{saved_branch};
    ghost use Rattle.rio_fill.specs.Room.{branch_reserved, entry_reserved, may_be_added, without_room};

    /// A branch as it was saved, with nothing pending.
    pub(crate) fn new(alloc: Global, branch: &Branch) -> Result<OpenBranch, NoMemory>
        requires { branch.now.offsets ≡ has_offsets branch.now.def.shape }
        ensures { IfOk result (λ b. b ≡ branch_fill_of branch.now) }
    {
        Ok(OpenBranch {
            alloc,
            def: branch.def.copy()?,
            class_version: branch.class_version,
            offsets: branch.offsets,
            counted_by: BranchNumbers::from_slice(alloc, branch.counted_by.as_slice())?,
            places: Places::from_slice(alloc, branch.baskets.as_slice())?,
            basket: Basket::new(alloc, branch.offsets),
            next: Basket::new(alloc, branch.offsets),
        })
    }

    pub(crate) fn def(&self) -> &BranchDef
        ensures { result.now ≡ self.now.def }
    {
        &self.def
    }

    /// Where its baskets stand that were written.
    pub(crate) fn baskets(&self) -> &[BasketAt]
        ensures { result.now ≡ self.now.baskets }
    {
        self.places.as_slice()
    }

    pub(crate) fn basket(&self) -> &Basket
        ensures { result.now ≡ basket_of self.now }
    {
        &self.basket
    }

    /// How many entries the open basket has.
    pub(crate) fn count(&self) -> usize
        ensures { result ≡ length self.now.entries }
    {
        self.basket.count()
    }

    /// Whether the entry goes into the open basket.
    pub(crate) fn takes(&self, entry: &[u8]) -> bool
        ensures { result ≡ takes self.now entry.now }
    {
        self.basket.takes(entry.len() as u64)
    }

    // Makes room for the entry in the basket that it goes into.
    fn reserve_entry(&mut self, entry: &[u8]) -> Result<(), NoMemory>
        ensures ok { OnOk result (self.new ≡ entry_reserved self.old entry.now) }
        ensures err { OnErr result (self.new ≡ self.old) }
    {
        if self.takes(entry) {
            self.basket.reserve(entry.len() as u64)?;
        } else {
            self.next.reserve(entry.len() as u64)?;
        }
        Ok(())
    }

    /// Makes room for one more basket, and for an entry where one is given.
    pub(crate) fn reserve(&mut self, entry: Option<&[u8]>) -> Result<(), NoMemory>
        ensures ok { OnOk result (self.new ≡ branch_reserved self.old (option_copied entry.entry)) }
        ensures err { without_room self.new ≡ without_room self.old }
    {
        self.places.reserve()?;
        if let Some(entry) = entry {
            self.reserve_entry(entry)?;
        }
        Ok(())
    }

    /// The open basket stands there from now on, and an empty one takes its place.
    pub(crate) fn put(&mut self, at: BasketAt)
        requires { 0 < self.old.rooms }
        ensures { self.new ≡ branch_put at self.old }
    {
        self.places.push(at);
        let empty = Basket::new(self.alloc, self.offsets);
        self.basket = mem::replace(&mut self.next, empty);
    }

    /// The entry is the last one of the open basket from now on.
    pub(crate) fn add(&mut self, entry: &[u8])
        requires { IsTrue (may_be_added self.old entry.now) }
        ensures { self.new ≡ branch_added self.old entry.now }
    {
        self.basket.add(entry).unwrap();
    }

    /// What the header of a tree of so many entries says of the branch, which has these baskets besides.
    pub(crate) fn saved(&self, entries: u64, ats: &[BasketAt]) -> Result<Branch, NoMemory>
        ensures { IfOk result (λ b. b ≡ saved_branch entries self.now ats.now) }
    {
        let baskets = joined(self.alloc, self.places.as_slice(), ats)?;
        Ok(Branch {
            def: self.def.copy()?,
            class_version: self.class_version,
            entries,
            offsets: self.offsets,
            baskets,
            counted_by: BranchNumbers::from_slice(self.alloc, self.counted_by.as_slice())?,
            refused: None,
        })
    }
}
