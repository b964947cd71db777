//! The names of a file's objects and trees.
ghost use Rattle.std.specs.Prelude.{◌≡◌, not, is_some, IfOk, if◌then◌else◌};
ghost use Rattle.std.specs.List.{find};
ghost use Rattle.rio_dir.specs.Table.{is_at_cycle, with_head};

use crate::keys::{is_top_key, is_tree_key};
use rio_dir::KeyTable;
use rio_key::KeyHead;
use rio_num::NoMemory;
use std::alloc::Global;

/// The keys of a file's trees and those of its objects, one of each name and cycle.
#[derive(Debug, Drop)]
pub(crate) struct NameIndex {
    trees: KeyTable,
    objects: KeyTable,
}

/// Puts a copy of the key into the table, unless one of its name and cycle is there, and tells whether
/// it was put.
pub(crate) fn put_new(table: &mut KeyTable, head: &KeyHead) -> Result<bool, NoMemory>
    ensures new { IfOk result (λ new. new
        ≡ not (is_some (find (is_at_cycle head.now.name head.now.cycle) table.old.heads))) }
    ensures heads { IfOk result (λ new. table.new.heads
        ≡ if new then with_head head.now table.old.heads else table.old.heads) }
{
    if table.find(head.name.as_slice(), Some(head.cycle)).is_some() {
        return Ok(false);
    }
    table.reserve_one()?;
    table.insert(head.copy()?);
    Ok(true)
}

impl NameIndex {
    ghost use Rattle.std.specs.Prelude.{◌≡◌, List, [], ◌∷◌, ◌++◌, IfOk, OnOk};
    ghost use Rattle.rio_state.specs.KeyedRecords.{KeyedRecord, is_mixed_name, is_outdated, top_keys};
    ghost use Rattle.rio_recover.specs.Keys.{keyed, keyed_by};
    ghost use Rattle.rio_recover.specs.Names.{IndexesNames};

    /// No names.
    fn new(alloc: Global) -> NameIndex
        ensures { IndexesNames [] result }
    {
        NameIndex {
            trees: KeyTable::new(alloc),
            objects: KeyTable::new(alloc),
        }
    }

    // Notes the key of an object or a tree.
    fn note(&mut self, head: &KeyHead) -> Result<(), NoMemory>
        ensures { OnOk result ((tops : List KeyedRecord) → IndexesNames tops self.old
            → IndexesNames (tops ++ keyed head.now ∷ []) self.new) }
    {
        if is_tree_key(head) {
            put_new(&mut self.trees, head)?;
        } else {
            put_new(&mut self.objects, head)?;
        }
        Ok(())
    }

    /// Those of the file with these keys.
    pub(crate) fn of(alloc: Global, heads: &[KeyHead]) -> Result<NameIndex, NoMemory>
        ensures { IfOk result (IndexesNames (top_keys (keyed_by heads.now))) }
    {
        let mut names = NameIndex::new(alloc);
        for head in heads {
            if is_top_key(head) {
                names.note(head)?;
            }
        }
        Ok(names)
    }

    /// Whether the name is that of a tree and of an object.
    pub(crate) fn is_mixed(&self, name: &[u8]) -> bool
        ensures { (tops : List KeyedRecord) → IndexesNames tops self.now
            → result ≡ is_mixed_name tops name.now }
    {
        self.trees.find(name, None).is_some() && self.objects.find(name, None).is_some()
    }

    /// Whether a tree of the same name has a greater cycle than the key.
    pub(crate) fn is_outdated(&self, head: &KeyHead) -> bool
        ensures { (tops : List KeyedRecord) → IndexesNames tops self.now
            → result ≡ is_outdated tops (keyed head.now) }
    {
        self.trees.next_cycle(head.name.as_slice()) > u32::from(head.cycle) + 1
    }
}
