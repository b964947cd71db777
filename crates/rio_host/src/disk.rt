//! The disk of a host in memory, as its first calls leave it.
use crate::call::Call;
use crate::change::{Change, Remains};
use crate::contents::Contents;
use rio_num::{Items, NoMemory};
use std::alloc::Global;

/// What a disk holds, with the writes in flight and the text.
#[derive(Drop)]
pub struct Disk {
    /// The file as the last sync left it.
    pub base: Contents,
    /// The writes in flight since then, the first of them first.
    pub flight: Items<Change>,
    /// What reads give.
    pub contents: Contents,
    /// The text that was said.
    pub text: Contents,
    /// The bytes that are being said.
    pub speaking: Contents,
}

impl Disk {
    ghost use Rattle.std.specs.Prelude.{◌≡◌, ◌++◌, ◌∷◌, [], IfOk, OnOk};
    ghost use Rattle.rio_host.specs.Replay.{at_first, disk_behind, replay};
    ghost use Rattle.rio_host.specs.Stops.{left_image, left_text};

    /// A disk with this file, and no text.
    pub fn new(alloc: Global, first: &[u8]) -> Result<Disk, NoMemory>
        ensures { IfOk result (λ d. d ≡ at_first first.now) }
    {
        Ok(Disk {
            base: Contents::from_slice(alloc, first)?,
            flight: Items::new(alloc),
            contents: Contents::from_slice(alloc, first)?,
            text: Contents::new(alloc),
            speaking: Contents::new(alloc),
        })
    }

    fn set_in_flight(&mut self, alloc: Global, change: &Change) -> Result<(), NoMemory>
        ensures { OnOk result (self.new
            ≡ record self.old { flight = self.old.flight ++ change.now ∷ [] }) }
    {
        self.flight.push(change.copy(alloc)?)
    }

    fn sync(&mut self, alloc: Global) -> Result<(), NoMemory>
        ensures { OnOk result
            (self.new ≡ record self.old { base = self.old.contents; flight = [] }) }
    {
        self.base = Contents::from_slice(alloc, self.contents.as_slice())?;
        self.flight = Items::new(alloc);
        Ok(())
    }

    fn say(&mut self, alloc: Global) -> Result<(), NoMemory>
        ensures { OnOk result (self.new
            ≡ record self.old { text = self.old.text ++ self.old.speaking; speaking = [] }) }
    {
        self.text.put_behind(self.speaking.as_slice())?;
        self.speaking = Contents::new(alloc);
        Ok(())
    }

    // One call more.
    fn step(&mut self, alloc: Global, call: &Call) -> Result<(), NoMemory>
        ensures { OnOk result (self.new ≡ disk_behind self.old call.now) }
    {
        match call {
            Call::Write(change) => {
                self.set_in_flight(alloc, change)?;
                self.contents.put_change(change)
            }
            Call::FailedWrite(change) => self.set_in_flight(alloc, change),
            Call::Sync => self.sync(alloc),
            Call::Saying(bytes) => {
                self.speaking = Contents::from_slice(alloc, bytes.as_slice())?;
                Ok(())
            }
            Call::Said => self.say(alloc),
        }
    }

    /// The disk after these calls.
    pub fn after(alloc: Global, first: &[u8], calls: &[Call]) -> Result<Disk, NoMemory>
        ensures { IfOk result (λ d. d ≡ replay (at_first first.now) calls.now) }
    {
        let mut disk = Disk::new(alloc, first)?;
        for call in calls {
            disk.step(alloc, call)?;
        }
        Ok(disk)
    }

    /// The file that a stop leaves, with a choice for each write in flight. Nothing is left of one
    /// for which there is none.
    pub fn left_image(self, alloc: Global, remains: &[Remains]) -> Result<Contents, NoMemory>
        ensures { IfOk result (λ file. file ≡ left_image self.base self.flight remains.now) }
    {
        let mut rest = remains;
        let mut file = self.base;
        for change in self.flight.as_slice() {
            let Some((first, others)) = rest.split_first() else {
                return Ok(file);
            };
            file.leave(alloc, change, *first)?;
            rest = others;
        }
        Ok(file)
    }

    /// The text that a stop leaves, with so many bytes of what is being said.
    pub fn left_text(&self, alloc: Global, front: u64) -> Result<Contents, NoMemory>
        ensures { IfOk result (λ text. text ≡ left_text self.now front) }
    {
        let mut text = Contents::from_slice(alloc, self.text.as_slice())?;
        let speaking = self.speaking.as_slice();
        let front = speaking.len().min(front as usize);
        text.put_behind(&speaking[..front])?;
        Ok(text)
    }
}
