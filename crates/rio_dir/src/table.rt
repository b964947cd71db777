//! The keys of a file, in the order of the key list.
ghost use Rattle.std.specs.Prelude.{◌≡◌, ◌+◌, ◌<◌, ◌≤◌, ◌^◌, false, length, slice_get, OnOk, OnErr};
ghost use Rattle.std.specs.Option.{option_copied, option_map_or};
ghost use Rattle.rio_dir.specs.Table.{heads_size, if_matching, is_at_cycle, is_before, is_name_before, is_of_name};

use rio_key::{KeyHead, key_length};
use rio_num::{Boxed, Name, NoMemory};
use std::alloc::Global;
use std::cmp::Ordering;
use std::marker::Model;

/// The keys of a file: a map from name and cycle, in the order of the key list, and for how many more there is room.
#[derive(Debug, Drop)]
pub struct KeyTable {
    // Boxed, so that few bytes move where a key is inserted before others.
    heads: Vec<Boxed<KeyHead>>,
    // The boxes for the next keys. The heads in them have no meaning.
    spare: Vec<Boxed<KeyHead>>,
}

impl Model for KeyTable {
    ghost use Rattle.std.specs.Prelude.{◌+◌, ◌≤◌, length, vec_len, vec_capacity};
    ghost use Rattle.rio_dir.specs.Table.{AreOrdered, TableRoom};

    ghost Value = { TableRoom };

    ghost view = { λ t. record { heads = t.heads.items; spare = length t.spare.items } };

    ghost invariant = { λ t. record {
      ordered : AreOrdered t.heads.items;
      room : vec_len t.heads + length t.spare.items ≤ vec_capacity t.heads;
    } };
}

// Whether a head comes before one of the name and cycle.
fn is_before(head: &KeyHead, name: &[u8], cycle: u16) -> bool
    ensures { result ≡ is_before name.now cycle head.now }
{
    match head.name.as_slice().cmp(name) {
        Ordering::Less => true,
        Ordering::Equal => cycle < head.cycle,
        Ordering::Greater => false,
    }
}

// Whether a head has the name and cycle.
fn is_at_cycle(head: &KeyHead, name: &[u8], cycle: u16) -> bool
    ensures { result ≡ is_at_cycle name.now cycle head.now }
{
    head.name.as_slice() == name && head.cycle == cycle
}

// Whether the name of a head comes before a name.
fn is_name_before(head: &KeyHead, name: &[u8]) -> bool
    ensures { result ≡ is_name_before name.now head.now }
{
    matches!(head.name.as_slice().cmp(name), Ordering::Less)
}

// Whether the head at `at` has the name and cycle.
fn is_cycle_at(heads: &[Boxed<KeyHead>], at: usize, name: &[u8], cycle: u16) -> bool
    ensures { result ≡ option_map_or (is_at_cycle name.now cycle) (slice_get heads.now at) false }
{
    match heads.get(at) {
        Some(head) => is_at_cycle(head.get(), name, cycle),
        None => false,
    }
}

// The head at `at`, if it has the name and cycle.
fn at_cycle<'a>(
    heads: &'a [Boxed<KeyHead>],
    at: usize,
    name: &[u8],
    cycle: u16,
) -> Option<&'a KeyHead>
    ensures { option_copied result
        ≡ if_matching (is_at_cycle name.now cycle) (slice_get heads.now at) }
{
    match heads.get(at) {
        Some(head) if is_at_cycle(head.get(), name, cycle) => Some(head.get()),
        _ => None,
    }
}

// The head at `at`, if it has the name.
fn of_name<'a>(heads: &'a [Boxed<KeyHead>], at: usize, name: &[u8]) -> Option<&'a KeyHead>
    ensures { option_copied result
        ≡ if_matching (is_of_name name.now) (slice_get heads.now at) }
{
    match heads.get(at) {
        Some(head) if head.get().name.as_slice() == name => Some(head.get()),
        _ => None,
    }
}

fn cycle_after(cycle: u16) -> u32
    ensures { result ≡ cycle + 1 }
{
    u32::from(cycle) + 1
}

// How many bytes are written of some heads.
fn heads_length(heads: &[Boxed<KeyHead>]) -> u64
    requires { heads_size heads.now < 2 ^ 64 }
    ensures { result ≡ heads_size heads.now }
{
    let mut length: u64 = 0;
    for head in heads {
        length += key_length(head.get());
    }
    length
}

// An empty head, for which no memory is allocated.
fn empty_head(alloc: Global) -> KeyHead {
    KeyHead {
        nbytes: 0,
        version: 0,
        objlen: 0,
        datime: 0,
        keylen: 0,
        cycle: 0,
        seek: 0,
        pdir: 0,
        class: Name::new(alloc),
        name: Name::new(alloc),
        title: Name::new(alloc),
    }
}

// Boxes up to so many.
fn make_boxes(alloc: Global, boxes: &mut Vec<Boxed<KeyHead>>, count: usize) -> Result<(), NoMemory>
    requires { length boxes.old.items ≤ count }
    ensures ok { OnOk result (length boxes.new.items ≡ count) }
    ensures err { OnErr result ((length boxes.old.items ≤ length boxes.new.items)
        × (length boxes.new.items < count)) }
{
    for _done in boxes.len()..count {
        let boxed = Boxed::new(alloc, empty_head(alloc))?;
        boxes.push(boxed)?;
    }
    Ok(())
}

impl KeyTable {
    ghost use Rattle.std.specs.Prelude.{◌≡◌, ◌+◌, ◌-◌, ◌<◌, ◌≤◌, ◌^◌, [], length, max, slice_get, None, Some, OnOk, OnErr};
    ghost use Rattle.std.specs.List.{find, prefix_len};
    ghost use Rattle.std.specs.Option.{option_copied};
    ghost use Rattle.rio_dir.specs.Table.{AreOrdered, HasRoomBelow, greatest_cycle, head_of, is_at_cycle, is_before, is_name_before, with_head, without_head};

    /// No keys.
    pub fn new(alloc: Global) -> KeyTable
        ensures { result ≡ record { heads = []; spare = 0 } }
    {
        KeyTable {
            heads: Vec::new(alloc),
            spare: Vec::new(alloc),
        }
    }

    /// How many keys there are.
    pub fn count(&self) -> usize
        ensures { result ≡ length self.now.heads }
    {
        self.heads.len()
    }

    /// The `k`-th head, counted from 0 in the order of the key list.
    pub fn head(&self, k: usize) -> Option<&KeyHead>
        ensures { option_copied result ≡ slice_get self.now.heads k }
    {
        match self.heads.get(k) {
            Some(head) => Some(head.get()),
            None => None,
        }
    }

    /// The heads in the order of the key list.
    pub fn as_slice(&self) -> &[Boxed<KeyHead>]
        ensures all { result.now ≡ self.now.heads }
        ensures ordered { AreOrdered self.now.heads }
    {
        self.heads.as_slice()
    }

    /// Makes room for one more key.
    pub fn reserve_one(&mut self) -> Result<(), NoMemory>
        ensures ok { OnOk result (self.new ≡ record self.old { spare = max self.old.spare 1 }) }
        ensures err { OnErr result ((self.new ≡ self.old) × (self.old.spare < 1)) }
    {
        self.reserve(1)
    }

    /// Makes room for so many more keys. Where memory runs out, there may be room for fewer.
    pub fn reserve(&mut self, count: usize) -> Result<(), NoMemory>
        ensures ok { OnOk result (self.new ≡ record self.old { spare = max self.old.spare count }) }
        ensures err { OnErr result (HasRoomBelow self.old self.new count) }
    {
        if self.spare.len() >= count {
            return Ok(());
        }
        let alloc = *self.heads.allocator();
        self.heads.reserve(count)?;
        make_boxes(alloc, &mut self.spare, count)
    }

    // How many keys come before one of the name and cycle.
    fn count_before(&self, name: &[u8], cycle: u16) -> usize
        ensures { result ≡ prefix_len (is_before name.now cycle) self.now.heads }
    {
        self.heads
            .partition_point(|head| is_before(head.get(), name, cycle))
    }

    /// Puts a key in its place, for which there is room. Its name and cycle are new.
    pub fn insert(&mut self, head: KeyHead)
        requires room { 1 ≤ self.old.spare }
        requires unique { find (is_at_cycle head.name head.cycle) self.old.heads ≡ None }
        ensures { self.new ≡ record {
          heads = with_head head self.old.heads;
          spare = self.old.spare - 1;
        } }
    {
        let at = self.count_before(head.name.as_slice(), head.cycle);
        let Some(mut boxed) = self.spare.pop() else {
            return;
        };
        boxed.set(head);
        let _ = self.heads.insert(at, boxed);
    }

    /// Takes a key out. None comes exactly where there is none of the name and cycle.
    pub fn remove(&mut self, name: &[u8], cycle: u16) -> Option<KeyHead>
        ensures head { result ≡ head_of name.now (Some cycle) self.old.heads }
        ensures rest { self.new ≡ record self.old {
          heads = without_head name.now cycle self.old.heads;
        } }
    {
        let at = self.count_before(name, cycle);
        if is_cycle_at(&self.heads, at, name, cycle) {
            Some(self.heads.remove(at).into_inner())
        } else {
            None
        }
    }

    // How many keys have a name before this one.
    fn count_names_before(&self, name: &[u8]) -> usize
        ensures { result ≡ prefix_len (is_name_before name.now) self.now.heads }
    {
        self.heads
            .partition_point(|head| is_name_before(head.get(), name))
    }

    /// The key of the name and cycle, or of the name's greatest cycle. None comes exactly where there is none.
    pub fn find(&self, name: &[u8], cycle: Option<u16>) -> Option<&KeyHead>
        ensures { option_copied result ≡ head_of name.now cycle self.now.heads }
    {
        match cycle {
            None => of_name(&self.heads, self.count_names_before(name), name),
            Some(cycle) => at_cycle(&self.heads, self.count_before(name, cycle), name, cycle),
        }
    }

    /// The cycle that the next key of the name gets: one more than its greatest, and 1 for a new name.
    pub fn next_cycle(&self, name: &[u8]) -> u32
        ensures { result ≡ greatest_cycle name.now self.now.heads + 1 }
    {
        match of_name(&self.heads, self.count_names_before(name), name) {
            Some(head) => cycle_after(head.cycle),
            None => 1,
        }
    }

    /// How many bytes are written of the heads: a number that fits 64 bits.
    pub fn heads_length(&self) -> u64
        requires { heads_size self.now.heads < 2 ^ 64 }
        ensures { result ≡ heads_size self.now.heads }
    {
        heads_length(&self.heads)
    }
}
