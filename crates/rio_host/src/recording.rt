//! What a host in memory keeps: the file, the text, and the calls that made them.
ghost use Rattle.std.specs.Prelude.{◌≡◌, OnOk, OnErr};
ghost use Rattle.rio_host.specs.Memory.{held_bytes};
ghost use Rattle.rio_host.specs.Replay.{put_by};

use crate::call::Call;
use crate::change::{Change, Left, Remains};
use crate::contents::Contents;
use crate::disk::Disk;
use rio_num::{Bytes, Items, NoMemory};
use std::alloc::Global;
use std::marker::Model;

/// A file and a text in memory, and the calls that made them what they are.
#[derive(Drop)]
pub struct Recording {
    alloc: Global,
    first: Bytes,
    calls: Vec<Call>,
    held: Option<Contents>,
    text: Bytes,
}

impl Model for Recording {
    ghost use Rattle.rio_host.specs.Memory.{IsKept, held_bytes};
    ghost use Rattle.rio_host.specs.Replay.{Memory};

    ghost Value = { Memory };

    ghost view = { λ r. record { first = r.first.bytes; calls = r.calls.items } };

    ghost invariant = { λ r. IsKept (record { first = r.first.bytes; calls = r.calls.items })
        (held_bytes r.first r.held) r.text.bytes };
}

// The bytes that reads give, with those of this write. Where nothing was written yet, they are
// those of the first image, and from now on apart from it.
fn put_held(
    alloc: Global,
    held: &mut Option<Contents>,
    first: &Bytes,
    change: &Change,
) -> Result<(), NoMemory>
    ensures ok { OnOk result
        (held_bytes first.now held.new ≡ put_by change.now (held_bytes first.now held.old)) }
    ensures err { OnErr result (held_bytes first.now held.new ≡ held_bytes first.now held.old) }
{
    match held {
        Some(held) => held.put_change(change),
        None => {
            let mut copy = Contents::from_slice(alloc, first.as_slice())?;
            copy.put_change(change)?;
            *held = Some(copy);
            Ok(())
        }
    }
}

impl Recording {
    ghost use Rattle.std.specs.Prelude.{◌≡◌, [], length, IfOk, OnOk, OnErr};
    ghost use Rattle.rio_host.specs.Replay.{Memory, and_then, disk_of, disk_after};
    ghost use Rattle.rio_host.specs.Stops.{IsLeft};

    /// A file with this image, all of it on the disk, and no text.
    pub fn new(alloc: Global, image: Bytes) -> Recording
        ensures { result ≡ record { first = image.bytes; calls = [] } }
    {
        Recording {
            alloc,
            first: image,
            calls: Vec::new(alloc),
            held: None,
            text: Bytes::new(alloc),
        }
    }

    /// What reads give.
    pub fn image(&self) -> &[u8]
        ensures { result.now ≡ (disk_of self.now).contents }
    {
        match &self.held {
            Some(held) => held.as_slice(),
            None => self.first.as_slice(),
        }
    }

    /// The text that was said.
    pub fn text(&self) -> &Bytes
        ensures { result.now.bytes ≡ (disk_of self.now).text }
    {
        &self.text
    }

    /// A write that reads give.
    pub fn write(&mut self, change: Change) -> Result<(), NoMemory>
        ensures ok { OnOk result (self.new ≡ and_then self.old (Call.Write change)) }
        ensures err { OnErr result (self.new ≡ self.old) }
    {
        self.calls.reserve(1)?;
        put_held(self.alloc, &mut self.held, &self.first, &change)?;
        self.calls.push(Call::Write(change))?;
        Ok(())
    }

    /// A write that failed.
    pub fn fail_write(&mut self, change: Change) -> Result<(), NoMemory>
        ensures ok { OnOk result (self.new ≡ and_then self.old (Call.FailedWrite change)) }
        ensures err { OnErr result (self.new ≡ self.old) }
    {
        self.calls.push(Call::FailedWrite(change))?;
        Ok(())
    }

    /// A sync that succeeded.
    pub fn sync(&mut self) -> Result<(), NoMemory>
        ensures ok { OnOk result (self.new ≡ and_then self.old Call.Sync) }
        ensures err { OnErr result (self.new ≡ self.old) }
    {
        self.calls.push(Call::Sync)?;
        Ok(())
    }

    /// These bytes begin to be said, and are.
    pub fn say(&mut self, bytes: &[u8]) -> Result<(), NoMemory>
        ensures ok { OnOk result
            (self.new ≡ and_then (and_then self.old (Call.Saying bytes.now)) Call.Said) }
        ensures err { OnErr result (self.new ≡ self.old) }
    {
        let copy = Items::from_slice(self.alloc, bytes)?;
        self.calls.reserve(2)?;
        self.text.put(bytes)?;
        self.calls.push(Call::Saying(copy))?;
        self.calls.push(Call::Said)?;
        Ok(())
    }

    /// How many calls are remembered.
    pub fn len(&self) -> u64
        ensures { result ≡ length self.now.calls }
    {
        self.calls.len() as u64
    }

    /// What a stop after so many calls leaves, or after all where there are fewer: a choice for
    /// each write that was in flight, and the front of this length of what was being said.
    pub fn left(&self, moment: u64, remains: &[Remains], front: u64) -> Result<Left, NoMemory>
        ensures { IfOk result (λ left. IsLeft
            (disk_after moment self.now) remains.now front left.image.bytes left.said.bytes) }
    {
        let done = self.calls.len().min(moment as usize);
        let disk = Disk::after(self.alloc, self.first.as_slice(), &self.calls[..done])?;
        let said = disk.left_text(self.alloc, front)?;
        let image = disk.left_image(self.alloc, remains)?;
        Ok(Left {
            image: Bytes::from_slice(self.alloc, image.as_slice())?,
            said: Bytes::from_slice(self.alloc, said.as_slice())?,
        })
    }
}
