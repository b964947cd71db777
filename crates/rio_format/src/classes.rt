//! Lists of classes, searched by maps beside them.
use crate::ClassDef;
use crate::index::Index;
use crate::members::can_read_all;
use rio_num::NoMemory;
use std::alloc::Global;
use std::marker::Model;

/// The classes that are known, in order. A class may stand in several versions, and more than once in one.
#[derive(Debug, Drop)]
pub struct Classes {
    items: Vec<ClassDef>,
    // Of each class, whether its members can be read.
    readable: Vec<bool>,
    index: Index,
}

impl Model for Classes {
    ghost use Rattle.std.specs.Prelude.{◌≡◌, List, map};
    ghost use Rattle.rio_format.specs.{Classes.{is_readable}, Index.{IsIndexOf}, declared.class.ClassDef.{ClassDef as Class}};

    ghost Value = { List Class };

    ghost view = { λ classes. classes.items.items };

    ghost invariant = { λ classes. (classes.readable.items ≡ map is_readable classes.items.items)
        × IsIndexOf classes.items.items classes.index };
}

impl Classes {
    ghost use Rattle.std.specs.Prelude.{◌≡◌, ◌-◌, [], ◌∷◌, ◌++◌, ◌↔◌, Some, length, slice_get, take, IsTrue, OnOk, OnErr};
    ghost use Rattle.std.specs.Option.{option_copied, option_map};
    ghost use Rattle.rio_format.specs.{Chain.{last_before}, Classes.{find_in, find_sum_in, judged, newest_in}, Places.{is_named}, declared.class.ClassDef.{ClassDef as Class}};

    /// No classes.
    pub fn new(alloc: Global) -> Classes
        ensures { result ≡ [] }
    {
        Classes {
            items: Vec::new(alloc),
            readable: Vec::new(alloc),
            index: Index::new(alloc),
        }
    }

    /// Puts a class at the end. Where there is no memory for it, it is dropped.
    pub fn push(&mut self, class: ClassDef) -> Result<(), NoMemory>
        ensures ok { OnOk result (self.new ≡ self.old ++ class ∷ []) }
        ensures err { OnErr result (self.new ≡ self.old) }
    {
        let alloc = *self.items.allocator();
        let readable = can_read_all(alloc, class.members.as_slice())?;
        self.items.reserve(1)?;
        self.readable.reserve(1)?;
        self.index.put(alloc, self.items.as_slice(), &class)?;
        self.items.push(class)?;
        self.readable.push(readable)?;
        Ok(())
    }

    /// Takes the last class out, if there is one. This takes no memory.
    pub fn remove_last(&mut self)
        ensures { self.new ≡ take (length self.old - 1) self.old }
    {
        let Some(class) = self.items.pop() else {
            return;
        };
        let _ = self.readable.pop();
        self.index.forget(self.items.as_slice(), &class);
    }

    pub fn len(&self) -> usize
        ensures { result ≡ length self.now }
    {
        self.items.len()
    }

    pub fn is_empty(&self) -> bool
        ensures { IsTrue result ↔ (self.now ≡ []) }
    {
        self.items.is_empty()
    }

    /// The class at `k`, counted from 0.
    pub fn get(&self, k: usize) -> Option<&ClassDef>
        ensures { option_copied result ≡ slice_get self.now k }
    {
        self.items.get(k)
    }

    pub fn as_slice(&self) -> &[ClassDef]
        ensures { result.now ≡ self.now }
    {
        self.items.as_slice()
    }

    /// The first class of that name and version.
    pub fn find(&self, name: &[u8], version: i32) -> Option<&ClassDef>
        ensures { option_copied result ≡ find_in self.now name.now version }
    {
        self.items
            .get(self.index.find(self.items.as_slice(), name, version)?)
    }

    /// The first class of that name that states this checksum.
    pub fn find_sum(&self, name: &[u8], sum: u32) -> Option<&ClassDef>
        ensures { option_copied result ≡ find_sum_in self.now name.now sum }
    {
        self.items
            .get(self.index.find_sum(self.items.as_slice(), name, sum)?)
    }

    /// The class of that name in its greatest version. Of several of this version the first is given.
    pub fn newest(&self, name: &[u8]) -> Option<&ClassDef>
        ensures { option_copied result ≡ newest_in self.now name.now }
    {
        self.items
            .get(self.index.newest(self.items.as_slice(), name)?)
    }

    /// The place of the last class of that name.
    pub fn last_named(&self, name: &[u8]) -> Option<usize>
        ensures { result ≡ last_before (is_named name.now) self.now (length self.now) }
    {
        self.index.last(self.items.as_slice(), name)
    }

    /// The place of the last class before the one at `k` that has the same name. So all classes of a name are found, the
    /// last of them first, and no other is looked at.
    pub fn same_name_before(&self, k: usize) -> Option<usize>
        ensures { (c : Class) → slice_get self.now k ≡ Some c
            → result ≡ last_before (is_named c.name) self.now k }
    {
        self.index.before(self.items.as_slice(), k)
    }

    /// The first class of that name and version, and whether its members can all be read: none is of a kind that isn't
    /// read, and each counter stands before the members that it counts.
    pub fn find_judged(&self, name: &[u8], version: i32) -> Option<(&ClassDef, bool)>
        ensures { option_map (λ p. (p.0.now, p.1)) result
            ≡ option_map judged (find_in self.now name.now version) }
    {
        self.judged(self.index.find(self.items.as_slice(), name, version)?)
    }

    /// The first class of that name that states this checksum, and whether its members can all be read.
    pub fn find_sum_judged(&self, name: &[u8], sum: u32) -> Option<(&ClassDef, bool)>
        ensures { option_map (λ p. (p.0.now, p.1)) result
            ≡ option_map judged (find_sum_in self.now name.now sum) }
    {
        self.judged(self.index.find_sum(self.items.as_slice(), name, sum)?)
    }

    fn judged(&self, k: usize) -> Option<(&ClassDef, bool)>
        ensures { option_map (λ p. (p.0.now, p.1)) result
            ≡ option_map judged (slice_get self.now k) }
    {
        let class = self.items.get(k)?;
        let readable = self.readable.get(k)?;
        Some((class, *readable))
    }
}

impl PartialEq for Classes {
    ghost use Rattle.std.specs.Prelude.{◌≡◌, ◌↔◌, IsTrue};
    ghost use Rattle.std.specs.Cmp.Lexicographic.{lists_per, pointwise};
    ghost use Rattle.rio_format.specs.contracts.class.ClassDefPartialEq.TheImpl.{eq-value as class_equal, Laws.{laws-law as class_laws}};

    ghost eq = { λ a b. pointwise class_equal.it a b };

    ghost laws = { lists_per class_laws };

    #[tactic(auto, using(crate::proofs::ClassEqualLaws::classes_decide))]
    fn eq(&self, other: &Classes) -> bool
        ensures pairs { result ≡ pointwise class_equal.it self.now other.now }
        ensures same { IsTrue result ↔ (self.now ≡ other.now) }
    {
        self.as_slice() == other.as_slice()
    }
}
