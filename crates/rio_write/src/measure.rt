//! How many bytes are written, counted without writing them.
ghost use Rattle.std.specs.Prelude.{◌≡◌, ◌+◌, ◌<◌, false};

use crate::sink::Sink;
use rio_format::LENGTH_LIMIT;
use rio_num::{Names, NoMemory, text_length};

/// The length of a word that counts the bytes behind it.
const COUNT_WORD: u64 = 4;

/// The length of a header: a count word and a version.
const HEADER: u64 = COUNT_WORD + 2;

/// A sink that counts: how many bytes are written so far, or 16,777,217 where they are more than 16,777,216.
#[derive(Drop)]
pub struct Total {
    /// How many bytes there are.
    pub bytes: u64,
}

impl Total {
    ghost use Rattle.std.specs.Prelude.{◌≡◌, ◌+◌, min};
    ghost use Rattle.rio_format.specs.Writer.{class_bytes};
    ghost use Rattle.rio_write.specs.Measuring.{Measures, too_long};

    // So many more bytes.
    fn add(&mut self, n: u64)
        ensures { self.new.bytes ≡ min (self.old.bytes + n) too_long }
    {
        self.bytes = self.bytes.saturating_add(n).min(LENGTH_LIMIT + 1);
    }

    // The word that names a class: it spells the class out where that is named for the first time, and refers to the earlier word
    // else.
    fn add_class<'a>(&mut self, names: &mut Names<'a>, class: &'a [u8]) -> Result<(), NoMemory>
        ensures { Measures (class_bytes class.now) result
            (record { total = self.old.bytes; names = names.old })
            (record { total = self.new.bytes; names = names.new }) }
    {
        if names.has(class) {
            self.add(4);
            return Ok(());
        }
        names.note(class)?;
        self.add(class.len() as u64 + 5);
        Ok(())
    }
}

impl Sink for Total {
    type Begun = ();

    ghost use Rattle.rio_write.specs.Measuring.{CountsFor};

    ghost stands = { λ x s. CountsFor (record { total = x.0.bytes; names = x.1 }) s };

    ghost bounded = { false };

    ghost place = { λ b. 0 };

    fn take_u8(&mut self, _n: u8) -> Result<(), NoMemory> {
        Ok(self.add(1))
    }

    fn take_u16(&mut self, _n: u16) -> Result<(), NoMemory> {
        Ok(self.add(2))
    }

    fn take_u32(&mut self, _n: u32) -> Result<(), NoMemory> {
        Ok(self.add(4))
    }

    fn take_u64(&mut self, _n: u64) -> Result<(), NoMemory> {
        Ok(self.add(8))
    }

    fn take_text(&mut self, text: &[u8]) -> Result<(), NoMemory> {
        Ok(self.add(text_length(text)))
    }

    fn take_back(&mut self, _label: u32) -> Result<(), NoMemory> {
        Ok(self.add(4))
    }

    fn take_header(&mut self, _version: u16) -> Result<(), NoMemory> {
        Ok(self.add(HEADER))
    }

    fn take_pointer<'a>(&mut self, names: &mut Names<'a>, class: &'a [u8]) -> Result<(), NoMemory> {
        self.add(COUNT_WORD);
        self.add_class(names, class)
    }

    fn close(&mut self, _begun: ()) {}
}
