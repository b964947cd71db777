//! What is written goes into a sink: the writer of objects takes the bytes, and a `Total` counts them.
ghost use Rattle.std.specs.Prelude.{◌<◌, ◌^◌, ℕ, List, length, Bool, IsTrue, true};
ghost use Rattle.byteorder.specs.Endian.{big_bytes};
ghost use Rattle.rio_format.specs.{Writer.{WriterState, begun, begun_pointer}, Written.{reference_bytes}};
ghost use Rattle.rio_num.specs.Text.{text_bytes};
ghost use Rattle.rio_write.specs.Sinks.{Accepts, CanClose, CanPoint, Closes, OpensIn, SinkTakes, StandsWithin};

use rio_format::{ObjWriter, Open};
use rio_num::{Names, NoMemory};

/// What takes what is written. With the names of classes that are spelled out so far, it stands for states
/// of writing. What a sink promises is what its `stands` says.
pub trait Sink {
    /// An object that was begun and not ended.
    type Begun: Drop;

    /// What it is for this sink, with these names, to stand for a state of writing.
    ghost stands: { Self × List (List ℕ) → WriterState → Type 0 };

    /// Whether it takes only bytes whose places can be referred to.
    ghost bounded: { Bool };

    /// The place of the count word of an object that was begun, where places are bounded.
    ghost place: { Self.Begun → ℕ };

    /// Takes a byte.
    fn take_u8(&mut self, n: u8) -> Result<(), NoMemory>
        ensures { SinkTakes stands (big_bytes 1 n) result self.old self.new };

    /// Takes a number, in big-endian order.
    fn take_u16(&mut self, n: u16) -> Result<(), NoMemory>
        ensures { SinkTakes stands (big_bytes 2 n) result self.old self.new };

    /// Takes a number, in big-endian order.
    fn take_u32(&mut self, n: u32) -> Result<(), NoMemory>
        ensures { SinkTakes stands (big_bytes 4 n) result self.old self.new };

    /// Takes a number, in big-endian order.
    fn take_u64(&mut self, n: u64) -> Result<(), NoMemory>
        ensures { SinkTakes stands (big_bytes 8 n) result self.old self.new };

    /// Takes a text: its length, and its bytes.
    fn take_text(&mut self, text: &[u8]) -> Result<(), NoMemory>
        requires { IsTrue bounded → length text.now < 2 ^ 32 }
        ensures { SinkTakes stands (text_bytes text.now) result self.old self.new };

    /// Takes a reference to the earlier object of the label.
    fn take_back(&mut self, label: u32) -> Result<(), NoMemory>
        ensures { (names : List (List ℕ)) → Accepts stands (reference_bytes label) result
            (self.old, names) (self.new, names) };

    /// Takes the header of an object of a class in this version, whose count is open.
    fn take_header(&mut self, version: u16) -> Result<Self::Begun, NoMemory>
        ensures { (names : List (List ℕ)) → OpensIn stands bounded place
            (begun (big_bytes 2 version)) result (self.old, names) (self.new, names) };

    /// Takes the front of a pointer to an object of the class: a count word, which is open, and the class
    /// word. The names may grow by the class.
    fn take_pointer<'a>(
        &mut self,
        names: &mut Names<'a>,
        class: &'a [u8],
    ) -> Result<Self::Begun, NoMemory>
        requires { StandsWithin stands bounded CanPoint (self.old, names.old) }
        ensures { OpensIn stands bounded place (begun_pointer class.now) result
            (self.old, names.old) (self.new, names.new) };

    /// The innermost object ends here.
    fn close(&mut self, begun: Self::Begun)
        requires { (names : List (List ℕ))
            × StandsWithin stands bounded (CanClose (place begun)) (self.old, names) }
        ensures { (names : List (List ℕ)) → Closes stands (self.old, names) (self.new, names) };
}

impl Sink for ObjWriter {
    type Begun = Open;

    ghost use Rattle.std.specs.Prelude.{◌≡◌};

    ghost stands = { λ w s. w.0 ≡ s };

    ghost bounded = { true };

    ghost place = { λ b. b };

    fn take_u8(&mut self, n: u8) -> Result<(), NoMemory> {
        self.put_u8(n)
    }

    fn take_u16(&mut self, n: u16) -> Result<(), NoMemory> {
        self.put_u16(n)
    }

    fn take_u32(&mut self, n: u32) -> Result<(), NoMemory> {
        self.put_u32(n)
    }

    fn take_u64(&mut self, n: u64) -> Result<(), NoMemory> {
        self.put_u64(n)
    }

    fn take_text(&mut self, text: &[u8]) -> Result<(), NoMemory> {
        self.put_text(text)
    }

    fn take_back(&mut self, label: u32) -> Result<(), NoMemory> {
        // There is no other label in a value that fits.
        if self.has_label(label) {
            self.back(label)
        } else {
            self.put_u32(2)
        }
    }

    fn take_header(&mut self, version: u16) -> Result<Open, NoMemory> {
        self.begin(version)
    }

    fn take_pointer<'a>(
        &mut self,
        _names: &mut Names<'a>,
        class: &'a [u8],
    ) -> Result<Open, NoMemory> {
        self.begin_pointer(class)
    }

    fn close(&mut self, begun: Open) {
        self.end(begun);
    }
}
