//! The bytes of a file in memory.
ghost use Rattle.std.specs.Prelude.{◌≡◌, ◌≤◌, ◌+◌, ◌++◌, length, take, drop};

use crate::change::{Change, Remains};
use rio_num::NoMemory;
use std::alloc::Global;
use std::marker::Model;

/// The bytes of a file, which are written where they stand.
#[derive(Debug, Drop)]
pub struct Contents {
    items: Vec<u8>,
}

impl Model for Contents {
    ghost use Rattle.std.specs.Prelude.{ℕ, List};

    ghost Value = { List ℕ };

    ghost view = { λ c. c.items.items };
}

// Puts these bytes over those that stand there.
fn put_over(file: &mut [u8], place: usize, bytes: &[u8])
    requires { place + length bytes.now ≤ length file.old }
    ensures { file.new ≡ take place file.old
        ++ (bytes.now ++ drop (place + length bytes.now) file.old) }
{
    file[place..place + bytes.len()].copy_from_slice(bytes);
}

impl Contents {
    ghost use Rattle.std.specs.Prelude.{◌≡◌, ◌≤◌, ◌<◌, ◌-◌, ◌++◌, [], length, replicate, OnOk, OnErr, IfOk};
    ghost use Rattle.rio_host.specs.Replay.{put_at, put_by, spliced};
    ghost use Rattle.rio_host.specs.Stops.{left_by, patched};

    /// No bytes.
    pub fn new(alloc: Global) -> Contents
        ensures { result ≡ [] }
    {
        Contents {
            items: Vec::new(alloc),
        }
    }

    /// These bytes.
    pub fn from_slice(alloc: Global, bytes: &[u8]) -> Result<Contents, NoMemory>
        ensures { IfOk result (λ c. c ≡ bytes.now) }
    {
        Ok(Contents {
            items: Vec::from_slice(alloc, bytes)?,
        })
    }

    pub fn len(&self) -> usize
        ensures { result ≡ length self.now }
    {
        self.items.len()
    }

    pub fn as_slice(&self) -> &[u8]
        ensures { result.now ≡ self.now }
    {
        self.items.as_slice()
    }

    /// Puts these bytes at a place within the file or at its end, and does nothing where the file
    /// ends before. No byte that stays is moved.
    pub fn put(&mut self, place: u64, bytes: &[u8]) -> Result<(), NoMemory>
        ensures ok { OnOk result (self.new ≡ put_at self.old place bytes.now) }
        ensures err { OnErr result (self.new ≡ self.old) }
    {
        if place > self.items.len() as u64 {
            return Ok(());
        }
        self.put_within(place as usize, bytes)
    }

    fn put_within(&mut self, place: usize, bytes: &[u8]) -> Result<(), NoMemory>
        requires { place ≤ length self.old }
        ensures ok { OnOk result (self.new ≡ spliced self.old place bytes.now) }
        ensures err { OnErr result (self.new ≡ self.old) }
    {
        let within = bytes.len().min(self.items.len() - place);
        self.items.extend_from_slice(&bytes[within..])?;
        put_over(&mut self.items, place, &bytes[..within]);
        Ok(())
    }

    /// Puts the bytes of a write that reads give at their place.
    pub fn put_change(&mut self, change: &Change) -> Result<(), NoMemory>
        ensures ok { OnOk result (self.new ≡ put_by change.now self.old) }
        ensures err { OnErr result (self.new ≡ self.old) }
    {
        match change {
            Change::Range { place, bytes } => self.put(*place, bytes.as_slice()),
            Change::Whole { place, word } => self.put(*place, &word.to_be_bytes()),
        }
    }

    /// Puts these bytes at the end.
    pub fn put_behind(&mut self, bytes: &[u8]) -> Result<(), NoMemory>
        ensures { OnOk result (self.new ≡ self.old ++ bytes.now) }
    {
        self.items.extend_from_slice(bytes)?;
        Ok(())
    }

    /// Puts this byte at the end, again and again, up to this length.
    pub fn pad(&mut self, len: usize, byte: u8) -> Result<(), NoMemory>
        ensures { OnOk result (self.new ≡ self.old ++ replicate (len - length self.old) byte) }
    {
        if self.items.len() < len {
            self.items.resize(len, byte)?;
        }
        Ok(())
    }

    /// Puts these bytes at any place. Where the file ends before it, zero bytes stand between.
    pub fn patch(&mut self, place: u64, bytes: &[u8]) -> Result<(), NoMemory>
        ensures { OnOk result (self.new ≡ patched self.old place bytes.now) }
    {
        self.pad(place as usize, 0)?;
        self.put(place, bytes)
    }

    /// What remains of a write in flight.
    pub fn leave(
        &mut self,
        alloc: Global,
        change: &Change,
        remains: Remains,
    ) -> Result<(), NoMemory>
        ensures { OnOk result (self.new ≡ left_by remains change.now self.old) }
    {
        match (remains, change) {
            (Remains::Nothing, _) => Ok(()),
            (Remains::All, Change::Range { place, bytes }) => self.patch(*place, bytes.as_slice()),
            (Remains::All, Change::Whole { place, word }) => {
                self.patch(*place, &word.to_be_bytes())
            }
            (Remains::Front(n), Change::Range { place, bytes }) => {
                let bytes = bytes.as_slice();
                let front = bytes.len().min(n as usize);
                self.patch(*place, &bytes[..front])
            }
            (Remains::Filled(byte), Change::Range { place, bytes }) => {
                let mut filled = Contents::new(alloc);
                filled.pad(bytes.len(), byte)?;
                self.patch(*place, filled.as_slice())
            }
            (_, Change::Whole { .. }) => Ok(()),
        }
    }
}
