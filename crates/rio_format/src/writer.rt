//! Writing of objects, with counts that are open until they end.
ghost use Rattle.std.specs.Prelude.{◌≡◌, ◌≤◌, ◌+◌, ◌-◌, ◌^◌, ◌<◌, [], ◌∷◌, ◌++◌, length, max, nat_eq, All, None, OnOk, OnErr};
ghost use Rattle.indexmap.specs.IndexMap.{insert_entry, spare};
ghost use Rattle.indexmap.specs.IndexSet.{insert_key, spare as spare_keys};
ghost use Rattle.std.specs.List.{find};
ghost use Rattle.std.specs.Option.{option_map};
ghost use Rattle.std.specs.Str.{bytes_eq};
ghost use Rattle.std.specs.VecDeque.{deque_capacity, deque_len};
ghost use Rattle.rio_num.specs.Room.{with_more};
ghost use Rattle.rio_format.specs.Writer.{OpensCount, spelled};
ghost use Rattle.byteorder.specs.Endian.{big_bytes};

use indexmap::{IndexMap, IndexSet};
use rio_num::{Bytes, NoMemory};
use std::alloc::Global;
use std::collections::VecDeque;
use std::marker::Model;

/// An object that was begun and not ended, which contracts see as the place of its count word among the
/// bytes. It may be dropped where the writer is given up.
#[derive(Debug, Drop)]
pub struct Open {
    place: usize,
}

impl Model for Open {
    ghost use Rattle.std.specs.Prelude.{ℕ};

    ghost Value = { ℕ };

    ghost view = { λ o. o.place };
}

/// Bytes of objects that grow, with the classes and the pointed objects that they name.
#[derive(Drop)]
pub struct ObjWriter {
    alloc: Global,
    start: u64,
    bytes: Bytes,
    // Where the count words stand that are open, the innermost first.
    opened: VecDeque<usize>,
    // The places of the count words of pointed objects, in order of their labels.
    labels: IndexSet<u64>,
    // The places of the class words that spell out the names of classes, by these names in order of first use.
    names: IndexMap<Vec<u8>, u64>,
}

impl Model for ObjWriter {
    ghost use Rattle.std.specs.Prelude.{◌≡◌, ◌+◌, ◌-◌, ◌<◌, ◌≤◌, ◌^◌, length, All};
    ghost use Rattle.rio_format.specs.Writer.{WriterState, spelled};

    ghost Value = { WriterState };

    ghost view = { λ w. record { start = w.start; bytes = w.bytes.bytes; opened = w.opened.items; words = record { labels = w.labels.keys; names = spelled w.names } } };

    ghost invariant = { λ w.
        (w.bytes.spare ≡ 0) × All (λ place. place + 4 ≤ length w.bytes.bytes) w.opened.items
        × All (λ place. place < 2 ^ 30 - 2) w.labels.keys × All (λ e. e.0 < 2 ^ 30 + 2) (spelled w.names)
        × All (λ e. e.0 < w.start + length w.bytes.bytes) (spelled w.names) };
}

impl ObjWriter {
    ghost use Rattle.std.specs.Prelude.{◌≡◌, ◌+◌, ◌-◌, ◌<◌, ◌≤◌, ◌^◌, ◌↔◌, [], ◌∷◌, ◌++◌, length, slice_index, Some, None, IsTrue, IfSome};
    ghost use Rattle.std.specs.List.{find};
    ghost use Rattle.std.specs.Option.{option_map};
    ghost use Rattle.std.specs.Str.{bytes_eq};
    ghost use Rattle.byteorder.specs.Endian.{big_bytes};
    ghost use Rattle.rio_num.specs.Room.{room_of};
    ghost use Rattle.rio_num.specs.Text.{text_bytes};
    ghost use Rattle.rio_format.specs.Writer.{Begins, Puts, begun, begun_pointer, counted_from, ended, innermost, next_place, nothing_written};

    /// No bytes yet. The first one will have the place `start`.
    pub fn new(alloc: Global, start: u64) -> ObjWriter
        ensures { result ≡ nothing_written start }
    {
        ObjWriter {
            alloc,
            start,
            bytes: Bytes::new(alloc),
            opened: VecDeque::new(alloc),
            labels: IndexSet::new(alloc),
            names: IndexMap::new(alloc),
        }
    }

    /// Puts a byte at the end.
    pub fn put_u8(&mut self, v: u8) -> Result<(), NoMemory>
        ensures { Puts (big_bytes 1 v) result self.old self.new }
    {
        self.bytes.put_u8(v)
    }

    /// Puts a number at the end, in big-endian order.
    pub fn put_u16(&mut self, v: u16) -> Result<(), NoMemory>
        ensures { Puts (big_bytes 2 v) result self.old self.new }
    {
        self.bytes.put_u16(v)
    }

    /// Puts a number at the end, in big-endian order.
    pub fn put_u32(&mut self, v: u32) -> Result<(), NoMemory>
        ensures { Puts (big_bytes 4 v) result self.old self.new }
    {
        self.bytes.put_u32(v)
    }

    /// Puts a number at the end, in big-endian order.
    pub fn put_u64(&mut self, v: u64) -> Result<(), NoMemory>
        ensures { Puts (big_bytes 8 v) result self.old self.new }
    {
        self.bytes.put_u64(v)
    }

    /// Puts these bytes at the end.
    pub fn put_bytes(&mut self, more: &[u8]) -> Result<(), NoMemory>
        ensures { Puts more.now result self.old self.new }
    {
        self.bytes.put(more)
    }

    /// Puts a text at the end: its length, and its bytes.
    pub fn put_text(&mut self, t: &[u8]) -> Result<(), NoMemory>
        requires { length t.now < 2 ^ 32 }
        ensures { Puts (text_bytes t.now) result self.old self.new }
    {
        self.bytes.put_text(t)
    }

    /// Begins an object of a class in this version: its header, whose count is open.
    pub fn begin(&mut self, version: u16) -> Result<Open, NoMemory>
        ensures { Begins (begun (big_bytes 2 version)) result self.old self.new }
    {
        open_count(&mut self.bytes, &mut self.opened, &version.to_be_bytes())
    }

    // The place of the next byte.
    fn place(&self) -> u64
        requires { next_place self.now < 2 ^ 64 }
        ensures { result ≡ next_place self.now }
    {
        self.start + self.bytes.len() as u64
    }

    // Where the class word stands that spells out the class.
    fn place_of(&self, class: &[u8]) -> Option<u64>
        ensures value { result ≡ option_map (λ e. e.0)
            (find (λ e. bytes_eq e.1 class.now) self.now.words.names) }
        ensures low { IfSome result (λ place. place < 2 ^ 30 + 2) }
    {
        self.names.get(class).copied()
    }

    // Begins an object of a class that an earlier class word spells out.
    fn begin_known(&mut self, class: &[u8], class_place: u64) -> Result<Open, NoMemory>
        requires place { next_place self.old < 2 ^ 30 - 2 }
        requires low { class_place < 2 ^ 30 + 2 }
        requires met { option_map (λ e. e.0)
            (find (λ e. bytes_eq e.1 class.now) self.old.words.names) ≡ Some class_place }
        ensures { Begins (begun_pointer class.now) result self.old self.new }
    {
        let place = self.place();
        let word = class_place as u32 + 0x8000_0002;
        self.labels.reserve(1)?;
        let begun = open_count(&mut self.bytes, &mut self.opened, &word.to_be_bytes())?;
        keep_label(&mut self.labels, place);
        Ok(begun)
    }

    // Begins an object of a class that no earlier class word spells out.
    fn begin_new(&mut self, class: &[u8]) -> Result<Open, NoMemory>
        requires place { next_place self.old < 2 ^ 30 - 2 }
        requires new { option_map (λ e. e.0)
            (find (λ e. bytes_eq e.1 class.now) self.old.words.names) ≡ None }
        ensures { Begins (begun_pointer class.now) result self.old self.new }
    {
        let place = self.place();
        let name = Vec::from_slice(self.alloc, class)?;
        self.labels.reserve(1)?;
        self.names.reserve(1)?;
        let begun = open_spelled(&mut self.bytes, &mut self.opened, class)?;
        keep_name(&mut self.names, name, place + 4);
        keep_label(&mut self.labels, place);
        Ok(begun)
    }

    /// Begins an object that a pointer points to: a count word, which is open, and a class word. It spells
    /// out the class where that is named for the first time, and refers to the earlier word else. The
    /// object has the next label. Behind it the object itself is written, with its own header.
    pub fn begin_pointer(&mut self, class: &[u8]) -> Result<Open, NoMemory>
        requires { next_place self.old < 2 ^ 30 - 2 }
        ensures { Begins (begun_pointer class.now) result self.old self.new }
    {
        match self.place_of(class) {
            Some(class_place) => self.begin_known(class, class_place),
            None => self.begin_new(class),
        }
    }

    /// Ends the innermost object: its count is that of the bytes behind its count word.
    pub fn end(&mut self, begun: Open)
        requires innermost { innermost self.old.opened ≡ Some begun }
        requires size { counted_from begun self.old.bytes < 2 ^ 30 }
        ensures { self.new ≡ ended begun self.old }
    {
        let count = self.bytes.len() - (begun.place + 4);
        self.opened.pop_front();
        self.bytes
            .patch_u32(begun.place, count as u32 + 0x4000_0000);
    }

    /// Whether an object has the label.
    pub fn has_label(&self, label: u32) -> bool
        ensures { IsTrue result ↔ (label < length self.now.words.labels) }
    {
        (label as usize) < self.labels.len()
    }

    /// A reference to the earlier object of the label.
    pub fn back(&mut self, label: u32) -> Result<(), NoMemory>
        requires { label < length self.old.words.labels }
        ensures { Puts (big_bytes 4 (slice_index self.old.words.labels label + 2)) result self.old
            self.new }
    {
        let place = *self.labels.get_index(label as usize).unwrap();
        self.put_u32(place as u32 + 2)
    }

    /// The bytes of all objects.
    pub fn into_bytes(self) -> Bytes
        requires { self.opened ≡ [] }
        ensures { result ≡ room_of self.bytes }
    {
        self.bytes
    }
}

// Puts a count word at the end, which is open, and these bytes.
fn open_count(
    bytes: &mut Bytes,
    opened: &mut VecDeque<usize>,
    more: &[u8],
) -> Result<Open, NoMemory>
    ensures { OpensCount more.now result bytes.old bytes.new opened.old.items opened.new.items }
{
    reserve_count(bytes, opened, more.len() as u64)?;
    let begun = put_count(bytes, opened);
    put_reserved(bytes, more);
    Ok(begun)
}

// Puts a count word at the end, which is open, and the class word that spells out the class.
fn open_spelled(
    bytes: &mut Bytes,
    opened: &mut VecDeque<usize>,
    class: &[u8],
) -> Result<Open, NoMemory>
    ensures { OpensCount (big_bytes 4 (2 ^ 32 - 1) ++ (class.now ++ 0 ∷ [])) result
        bytes.old bytes.new opened.old.items opened.new.items }
{
    reserve_count(bytes, opened, class.len() as u64 + 5)?;
    let begun = put_count(bytes, opened);
    put_reserved(bytes, &u32::MAX.to_be_bytes());
    put_reserved(bytes, class);
    put_reserved(bytes, &[0]);
    Ok(begun)
}

// Makes room for a count word and so many bytes behind it.
fn reserve_count(
    bytes: &mut Bytes,
    opened: &mut VecDeque<usize>,
    behind: u64,
) -> Result<(), NoMemory>
    requires { behind + 4 < 2 ^ 64 }
    ensures same { opened.new.items ≡ opened.old.items }
    ensures ok { OnOk result ((bytes.new
        ≡ record bytes.old { spare = max bytes.old.spare (behind + 4) })
        × (deque_len opened.new < deque_capacity opened.new)) }
    ensures err { OnErr result (bytes.new ≡ bytes.old) }
{
    opened.reserve(1)?;
    bytes.reserve(behind + 4)
}

// Puts a count word at the end, which is open, where there is room.
fn put_count(bytes: &mut Bytes, opened: &mut VecDeque<usize>) -> Open
    requires spare { 4 ≤ bytes.old.spare }
    requires room { deque_len opened.old < deque_capacity opened.old }
    ensures place { result ≡ length bytes.old.bytes }
    ensures word { bytes.new ≡ with_more bytes.old (big_bytes 4 0) }
    ensures opened { opened.new.items ≡ length bytes.old.bytes ∷ opened.old.items }
{
    let place = bytes.len();
    put_reserved(bytes, &[0; 4]);
    opened.push_front(place).unwrap();
    Open { place }
}

// Puts these bytes at the end, which are spare.
fn put_reserved(bytes: &mut Bytes, more: &[u8])
    requires { length more.now ≤ bytes.old.spare }
    ensures { bytes.new ≡ with_more bytes.old more.now }
{
    bytes.put(more).unwrap();
}

// Keeps the place of one more object.
fn keep_label(labels: &mut IndexSet<u64>, place: u64)
    requires { 0 < spare_keys labels.old }
    ensures { labels.new.keys ≡ insert_key nat_eq labels.old.keys place }
{
    labels.insert(place).unwrap();
}

// Keeps the name of one more class, whose class word stands at the place.
fn keep_name(names: &mut IndexMap<Vec<u8>, u64>, name: Vec<u8>, place: u64)
    requires room { 0 < spare names.old }
    requires new { option_map (λ e. e.0) (find (λ e. bytes_eq e.1 name.items) (spelled names.old))
        ≡ None }
    requires later { All (λ e. e.0 < place) (spelled names.old) }
    ensures { spelled names.new ≡ insert_entry nat_eq (spelled names.old) place name.items }
{
    names.insert(name, place).unwrap();
}
