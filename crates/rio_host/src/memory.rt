//! The host in memory.
ghost use Rattle.std.specs.Prelude.{◌≡◌, ◌≤◌, ◌<◌, ◌+◌, ◌%◌, ◌^◌, ℕ, List, [], Some, length, IfOk, OnOk, OnErr, IsErr, IsOk};
ghost use Rattle.byteorder.specs.Endian.{big_bytes};
ghost use Rattle.rio_host.specs.Failing.{next_count, FailsByNumber, FailsOrRunsShort};
ghost use Rattle.rio_host.specs.Flight.{Flies, SaysInParts};
ghost use Rattle.rio_host.specs.Host.{OnDisk, Elapses, Speaking, Becomes, Rose, Longer, LongerByPart, IsWithin, IsLength, IsQuiet};
ghost use Rattle.rio_host.specs.Image.{Has, Torn, Put, PutOrNot, Same};
ghost use Rattle.rio_host.specs.Memory.{mem_view, mem_lawful};
ghost use Rattle.rio_host.specs.Replay.{IsStill};

use crate::change::{Change, Left, Remains};
use crate::count::{is_next_failing, raised};
use crate::recording::Recording;
use crate::{Failed, Host};
use rio_num::{Bytes, Items, NoMemory, Numbers};
use std::alloc::Global;

/// A file and a text in memory. It remembers all calls that changed it, and answers for every
/// moment.
///
/// A call that finds no memory for what it has to keep fails, and leaves file and text as they
/// were. A write that failed so is not in flight.
#[derive(Drop)]
pub struct MemHost {
    recording: Recording,
    failing: Numbers,
    made: u64,
    shortages: u64,
    disk_faults: u64,
    say_faults: u64,
    reads: u64,
    writes: Numbers,
    ghost still: { IsStill recording },
}

impl MemHost {
    ghost use Rattle.std.specs.Prelude.{◌≡◌, [], Some, IfOk, min};
    ghost use Rattle.rio_host.specs.declared.change.Change.{Change};
    ghost use Rattle.rio_host.specs.Host.{IsQuiet};
    ghost use Rattle.rio_host.specs.MemHost.{memory_of, view_of, tally_of, write_numbers_of, NotesWrite};
    ghost use Rattle.rio_host.specs.Replay.{Makes, ChangeDone, disk_after, change_start};
    ghost use Rattle.rio_host.specs.Stops.{IsLeft};

    /// A file with this image, all of it on the disk, and no text. The numbers are those of the
    /// calls that fail, counted from 0.
    pub fn new(alloc: Global, image: Bytes, failing: Numbers) -> MemHost
        ensures holds { (view_of result).holds ≡ Some image.bytes }
        ensures said { (view_of result).said ≡ Some [] }
        ensures quiet { IsQuiet (view_of result) }
        ensures disk_faults { (view_of result).disk_faults ≡ 0 }
        ensures say_faults { (view_of result).say_faults ≡ 0 }
        ensures reads { (view_of result).reads ≡ 0 }
        ensures counts { tally_of result ≡ record { made = 0; failing = failing; shortages = 0 } }
        ensures noted { write_numbers_of result ≡ [] }
    {
        MemHost {
            recording: Recording::new(alloc, image),
            failing,
            made: 0,
            shortages: 0,
            disk_faults: 0,
            say_faults: 0,
            reads: 0,
            writes: Numbers::new(alloc),
        }
    }

    /// What reads give.
    pub fn image(&self) -> &[u8]
        ensures { (view_of self.now).holds ≡ Some result.now }
    {
        self.recording.image()
    }

    /// The text that was said.
    pub fn said(&self) -> &Bytes
        ensures { (view_of self.now).said ≡ Some result.now.bytes }
    {
        self.recording.text()
    }

    /// The numbers of the calls that were writes or words, counted from 0 over all calls: those
    /// that a later host may be told to fail. One that found no memory for its number or for a copy
    /// of its bytes is not among them.
    pub fn writes(&self) -> &[u64]
        ensures { result.now ≡ write_numbers_of self.now }
    {
        self.writes.as_slice()
    }

    /// The moment: how many calls changed the file or the text. A write that failed is one, for a
    /// stop may leave it, and a say is two: between them its bytes are being said.
    pub fn moment(&self) -> u64
        ensures { result ≡ (view_of self.now).now }
    {
        self.recording.len()
    }

    /// What a stop at this moment leaves, or one now where the moment is still to come: of each
    /// write that was in flight then, the first of them first, what the choice says, and of the
    /// bytes that were being said the front of this length. Nothing is left of a write for which
    /// there is no choice.
    pub fn left(&self, moment: u64, remains: &[Remains], front: u64) -> Result<Left, NoMemory>
        ensures exact { IfOk result (λ left. IsLeft
            (disk_after moment (memory_of self.now)) remains.now front
            left.image.bytes left.said.bytes) }
        ensures allowed { IfOk result (λ left. (view_of self.now).left_since
            (min moment (view_of self.now).now) left.image.bytes left.said.bytes) }
    {
        self.recording.left(moment, remains, front)
    }

    // A call on the file found no memory for what it has to keep.
    fn run_short(&mut self) -> Failed
        ensures disk { (change : Change)
            → OnDisk (Makes change) (view_of self.old) (view_of self.new) }
        ensures rose { Rose self.old.disk_faults self.new.disk_faults }
        ensures fields { self.new ≡ record self.old {
          made = next_count self.old.made;
          shortages = next_count self.old.shortages;
          disk_faults = next_count self.old.disk_faults;
        } }
    {
        self.made = raised(self.made);
        self.shortages = raised(self.shortages);
        self.disk_faults = raised(self.disk_faults);
        Failed
    }

    // A write or a word.
    fn put(&mut self, change: Change) -> Result<(), Failed>
        requires { IsWithin (view_of self.old) (change_start change) }
        ensures written { OnOk result
            (Becomes (ChangeDone change) (view_of self.old).holds (view_of self.new).holds) }
        ensures disk { OnDisk (Makes change) (view_of self.old) (view_of self.new) }
        ensures reads { (view_of self.new).reads ≡ (view_of self.old).reads }
        ensures counted { IsOk result
            → (view_of self.new).disk_faults ≡ (view_of self.old).disk_faults }
        ensures cause { IsErr result
            → Rose (view_of self.old).disk_faults (view_of self.new).disk_faults }
        ensures failed { OnErr result ((view_of self.new).holds ≡ (view_of self.old).holds) }
        ensures noted { NotesWrite self.old self.new }
        ensures fails { FailsOrRunsShort
            (Flies (Makes change) (view_of self.old) (view_of self.new))
            (tally_of self.old) (tally_of self.new) result }
    {
        if self.writes.push(self.made).is_err() {
            return Err(self.run_short());
        }
        if is_next_failing(&mut self.made, self.failing.as_slice()) {
            self.disk_faults = raised(self.disk_faults);
            return match self.recording.fail_write(change) {
                Ok(()) => Err(Failed),
                Err(NoMemory) => {
                    self.shortages = raised(self.shortages);
                    Err(Failed)
                }
            };
        }
        match self.recording.write(change) {
            Ok(()) => Ok(()),
            Err(NoMemory) => {
                self.shortages = raised(self.shortages);
                self.disk_faults = raised(self.disk_faults);
                Err(Failed)
            }
        }
    }
}

impl Host for MemHost {
    ghost use Rattle.rio_host.specs.MemHost.{view_of, tally_of, write_numbers_of, NotesWrite};

    ghost view = { λ h. mem_view h.recording h.disk_faults h.say_faults h.reads };

    ghost lawful = { λ h. mem_lawful h.recording h.disk_faults h.say_faults h.reads h.still };

    fn length(&mut self) -> Result<u64, Failed>
        ensures length { IfOk result (IsLength (view_of self.old)) }
        ensures disk { OnDisk Same (view_of self.old) (view_of self.new) }
        ensures holds { (view_of self.new).holds ≡ (view_of self.old).holds }
        ensures reads { Rose (view_of self.old).reads (view_of self.new).reads }
        ensures counted { IsOk result
            → (view_of self.new).disk_faults ≡ (view_of self.old).disk_faults }
        ensures cause { IsErr result
            → Rose (view_of self.old).disk_faults (view_of self.new).disk_faults }

        ensures noted { write_numbers_of self.new ≡ write_numbers_of self.old }
        ensures fails { FailsByNumber (tally_of self.old) (tally_of self.new) result }
        ensures flies { Flies Same (view_of self.old) (view_of self.new) }
    {
        self.reads = raised(self.reads);
        if is_next_failing(&mut self.made, self.failing.as_slice()) {
            self.disk_faults = raised(self.disk_faults);
            return Err(Failed);
        }
        Ok(self.recording.image().len() as u64)
    }

    fn read(&mut self, place: u64, into: &mut [u8]) -> Result<(), Failed>
        requires { IsWithin (view_of self.old) (place + length into.old) }
        ensures bytes { OnOk result
            ((bytes : List ℕ) → (view_of self.old).holds ≡ Some bytes → Has bytes place into.new) }
        ensures disk { OnDisk Same (view_of self.old) (view_of self.new) }
        ensures holds { (view_of self.new).holds ≡ (view_of self.old).holds }
        ensures reads { Rose (view_of self.old).reads (view_of self.new).reads }
        ensures counted { IsOk result
            → (view_of self.new).disk_faults ≡ (view_of self.old).disk_faults }
        ensures cause { IsErr result
            → Rose (view_of self.old).disk_faults (view_of self.new).disk_faults }

        ensures noted { write_numbers_of self.new ≡ write_numbers_of self.old }
        ensures fails { FailsByNumber (tally_of self.old) (tally_of self.new) result }
        ensures flies { Flies Same (view_of self.old) (view_of self.new) }
    {
        self.reads = raised(self.reads);
        if is_next_failing(&mut self.made, self.failing.as_slice()) {
            self.disk_faults = raised(self.disk_faults);
            return Err(Failed);
        }
        let image = self.recording.image();
        let from = place as usize;
        into.copy_from_slice(&image[from..from + into.len()]);
        Ok(())
    }

    fn write(&mut self, place: u64, bytes: &[u8]) -> Result<(), Failed>
        requires within { IsWithin (view_of self.old) place }
        requires fits { place + length bytes.now < 2 ^ 64 }
        ensures written { OnOk result
            (Becomes (Put place bytes.now) (view_of self.old).holds (view_of self.new).holds) }
        ensures disk { OnDisk (Torn place (length bytes.now))
            (view_of self.old) (view_of self.new) }
        ensures reads { (view_of self.new).reads ≡ (view_of self.old).reads }
        ensures counted { IsOk result
            → (view_of self.new).disk_faults ≡ (view_of self.old).disk_faults }
        ensures cause { IsErr result
            → Rose (view_of self.old).disk_faults (view_of self.new).disk_faults }

        ensures failed { OnErr result ((view_of self.new).holds ≡ (view_of self.old).holds) }
        ensures noted { NotesWrite self.old self.new }
        ensures fails { FailsOrRunsShort
            (Flies (Torn place (length bytes.now)) (view_of self.old) (view_of self.new))
            (tally_of self.old) (tally_of self.new) result }
    {
        match Items::from_slice(self.writes.allocator(), bytes) {
            Ok(bytes) => self.put(Change::Range { place, bytes }),
            Err(NoMemory) => Err(self.run_short()),
        }
    }

    fn write_word(&mut self, place: u64, word: u32) -> Result<(), Failed>
        requires within { IsWithin (view_of self.old) place }
        requires aligned { place % 4 ≡ 0 }
        ensures written { OnOk result
            (Becomes (Put place (big_bytes 4 word))
            (view_of self.old).holds (view_of self.new).holds) }
        ensures disk { OnDisk (PutOrNot place (big_bytes 4 word))
            (view_of self.old) (view_of self.new) }
        ensures reads { (view_of self.new).reads ≡ (view_of self.old).reads }
        ensures counted { IsOk result
            → (view_of self.new).disk_faults ≡ (view_of self.old).disk_faults }
        ensures cause { IsErr result
            → Rose (view_of self.old).disk_faults (view_of self.new).disk_faults }

        ensures failed { OnErr result ((view_of self.new).holds ≡ (view_of self.old).holds) }
        ensures noted { NotesWrite self.old self.new }
        ensures fails { FailsOrRunsShort
            (Flies (PutOrNot place (big_bytes 4 word)) (view_of self.old) (view_of self.new))
            (tally_of self.old) (tally_of self.new) result }
    {
        self.put(Change::Whole { place, word })
    }

    fn sync(&mut self) -> Result<(), Failed>
        ensures quiet { OnOk result (IsQuiet (view_of self.new)) }
        ensures disk { OnDisk Same (view_of self.old) (view_of self.new) }
        ensures holds { (view_of self.new).holds ≡ (view_of self.old).holds }
        ensures reads { (view_of self.new).reads ≡ (view_of self.old).reads }
        ensures counted { IsOk result
            → (view_of self.new).disk_faults ≡ (view_of self.old).disk_faults }
        ensures cause { IsErr result
            → Rose (view_of self.old).disk_faults (view_of self.new).disk_faults }

        ensures failed { OnErr result (Flies Same (view_of self.old) (view_of self.new)) }
        ensures noted { write_numbers_of self.new ≡ write_numbers_of self.old }
        ensures fails { FailsOrRunsShort (Unit {0}) (tally_of self.old) (tally_of self.new) result }
    {
        if is_next_failing(&mut self.made, self.failing.as_slice()) {
            self.disk_faults = raised(self.disk_faults);
            return Err(Failed);
        }
        match self.recording.sync() {
            Ok(()) => Ok(()),
            Err(NoMemory) => {
                self.shortages = raised(self.shortages);
                self.disk_faults = raised(self.disk_faults);
                Err(Failed)
            }
        }
    }

    /// A say that fails says the half.
    fn say(&mut self, bytes: &[u8]) -> Result<(), Failed>
        ensures said { OnOk result
            (Becomes (Longer bytes.now) (view_of self.old).said (view_of self.new).said) }
        ensures failed { OnErr result
            (Becomes (LongerByPart bytes.now) (view_of self.old).said (view_of self.new).said) }
        ensures time { Elapses (view_of self.old) (view_of self.new)
            (Speaking bytes.now (view_of self.old)) }
        ensures holds { (view_of self.new).holds ≡ (view_of self.old).holds }
        ensures reads { (view_of self.new).reads ≡ (view_of self.old).reads }
        ensures disk_faults { (view_of self.new).disk_faults ≡ (view_of self.old).disk_faults }
        ensures say_faults { (view_of self.old).say_faults ≤ (view_of self.new).say_faults }
        ensures counted { IsOk result
            → (view_of self.new).say_faults ≡ (view_of self.old).say_faults }
        ensures cause { IsErr result
            → Rose (view_of self.old).say_faults (view_of self.new).say_faults }

        ensures noted { write_numbers_of self.new ≡ write_numbers_of self.old }
        ensures fails { FailsOrRunsShort (SaysInParts (view_of self.old) (view_of self.new))
            (tally_of self.old) (tally_of self.new) result }
    {
        if is_next_failing(&mut self.made, self.failing.as_slice()) {
            self.say_faults = raised(self.say_faults);
            return match self.recording.say(&bytes[..bytes.len() / 2]) {
                Ok(()) => Err(Failed),
                Err(NoMemory) => {
                    self.shortages = raised(self.shortages);
                    Err(Failed)
                }
            };
        }
        match self.recording.say(bytes) {
            Ok(()) => Ok(()),
            Err(NoMemory) => {
                self.shortages = raised(self.shortages);
                self.say_faults = raised(self.say_faults);
                Err(Failed)
            }
        }
    }
}
