//! Reading within the data of objects.
ghost use Rattle.std.specs.Prelude.{◌≡◌, ◌==◌, ◌<◌, length, position, IfSome};
ghost use Rattle.rio_format.specs.Reader.{name_of};

use crate::{Header, ObjFault, PointerWord};
use indexmap::{IndexMap, IndexSet};
use rio_num::{Cursor, Name, NoMemory};
use std::alloc::Global;
use std::marker::Model;

/// Where the reading of objects stands in some data, and which classes and objects it met there.
#[derive(Drop)]
pub struct ObjReader<'a> {
    alloc: Global,
    cursor: Cursor<'a>,
    // The places of the count words of pointed objects, in order of their labels.
    labels: IndexSet<u64>,
    // The names of classes, by the places of the class words that spell them out.
    names: IndexMap<u64, &'a [u8]>,
}

impl<'a> Model for ObjReader<'a> {
    ghost use Rattle.std.specs.Prelude.{◌+◌, ◌<◌, ◌≤◌, ◌^◌, length};
    ghost use Rattle.rio_format.specs.ReaderState.{ReaderState, plain_names};

    ghost Value = { ReaderState };

    ghost view = { λ r. record { at = r.cursor; words = record { labels = r.labels.keys; names = plain_names r.names.entries } } };

    ghost invariant = { λ r. (r.cursor.place + length r.cursor.rest < 2 ^ 64) × (length r.labels.keys + length r.cursor.rest < 2 ^ 32) };
}

// A class word, with the name that it or an earlier one spells out.
#[derive(Clone, Copy)]
enum ClassWord<'a> {
    Spelled(&'a [u8]),
    Earlier(&'a [u8]),
}

impl<'a> ClassWord<'a> {
    fn name(self) -> &'a [u8]
        ensures { result.now ≡ name_of self.entry }
    {
        match self {
            ClassWord::Spelled(name) => name,
            ClassWord::Earlier(name) => name,
        }
    }
}

impl<'a> ObjReader<'a> {
    ghost use Rattle.std.specs.Prelude.{◌≡◌, ◌+◌, ◌<◌, ◌≤◌, ◌^◌, length, IsTrue, IfOk, IfErr, OnErr, Ok, Err};
    ghost use Rattle.rio_num.specs.Answers.{TellsUnless};
    ghost use Rattle.rio_num.specs.At.{AreBytes, GoesOn};
    ghost use Rattle.rio_num.specs.Layout.{any, name, number, text};
    ghost use Rattle.rio_num.specs.Meanings.{HasTaken, read};
    ghost use Rattle.rio_format.specs.{ReaderState.{standing, no_words, with_label, with_name}, Frames.{ReadsAs, is_count, data_end, end_of, finish, header_end, header, class_word, known_class, new_word, reference, pointer_word}};
    ghost use Rattle.rio_format.specs.{declared.fault.ObjFault.TheVariants.{NoMemory as OutOfMemory}, Reader.{TakesStep, MayTake, TakesSpelled, MayTakeSpelled, IsFirstFault, IsCounted, IsPointerWithin, name_of, noted}};

    /// Reads data whose first byte has the place `start`.
    pub fn new(alloc: Global, bytes: &'a [u8], start: u64) -> ObjReader<'a>
        requires places { start + length bytes.now < 2 ^ 64 }
        requires size { length bytes.now < 2 ^ 32 }
        ensures { result ≡ standing start bytes.now no_words }
    {
        ObjReader {
            alloc,
            cursor: Cursor::new(bytes, start),
            labels: IndexSet::new(alloc),
            names: IndexMap::new(alloc),
        }
    }

    /// The place of the next byte.
    pub fn place(&self) -> u64
        ensures value { result ≡ self.now.at.place }
        ensures bytes { AreBytes self.now.at.rest }
        ensures fits { data_end self.now < 2 ^ 64 }
        ensures size { length self.now.at.rest < 2 ^ 32 }
    {
        self.cursor.place()
    }

    /// How many bytes are left.
    pub fn left(&self) -> u64
        ensures value { result ≡ length self.now.at.rest }
        ensures fits { length self.now.at.rest < 2 ^ 32 }
    {
        self.cursor.left()
    }

    /// The next byte.
    pub fn take_u8(&mut self) -> Result<u8, ObjFault>
        ensures exact { TakesStep (λ x. x) result
            (read (number ObjFault.Short 1) self.old) self.old self.new }
        ensures goes { GoesOn self.old.at self.new.at }
    {
        Ok(self.cursor.take_u8()?)
    }

    /// The number in the next two bytes, in big-endian order.
    pub fn take_u16(&mut self) -> Result<u16, ObjFault>
        ensures exact { TakesStep (λ x. x) result
            (read (number ObjFault.Short 2) self.old) self.old self.new }
        ensures goes { GoesOn self.old.at self.new.at }
    {
        Ok(self.cursor.take_u16()?)
    }

    /// The number in the next four bytes, in big-endian order.
    pub fn take_u32(&mut self) -> Result<u32, ObjFault>
        ensures exact { TakesStep (λ x. x) result
            (read (number ObjFault.Short 4) self.old) self.old self.new }
        ensures goes { GoesOn self.old.at self.new.at }
    {
        Ok(self.cursor.take_u32()?)
    }

    /// The number in the next eight bytes, in big-endian order.
    pub fn take_u64(&mut self) -> Result<u64, ObjFault>
        ensures exact { TakesStep (λ x. x) result
            (read (number ObjFault.Short 8) self.old) self.old self.new }
        ensures goes { GoesOn self.old.at self.new.at }
    {
        Ok(self.cursor.take_u64()?)
    }

    /// The next text, which lives as long as the data.
    pub fn take_text(&mut self) -> Result<&'a [u8], ObjFault>
        ensures exact { TakesStep (λ t. t.now) result
            (read (text ObjFault.Short) self.old) self.old self.new }
        ensures goes { GoesOn self.old.at self.new.at }
    {
        Ok(self.cursor.take_text()?)
    }

    /// Passes over the next `n` bytes.
    pub fn skip(&mut self, n: u64) -> Result<(), ObjFault>
        ensures exact { TakesStep (λ _. tt) result
            (read (any ObjFault.Short n) self.old) self.old self.new }
        ensures goes { GoesOn self.old.at self.new.at }
    {
        Ok(self.cursor.skip(n)?)
    }

    /// Compares the bytes used since the count word at `place` with its count, by which they end at `end`.
    pub fn finish(&mut self, place: u64, end: u64) -> Result<(), ObjFault>
        requires { IsCounted place end self.old }
        ensures exact { TakesStep (λ _. tt) result
            (read (finish place end) self.old) self.old self.new }
        ensures found { IfOk result (λ _. HasTaken (finish place end) self.old tt self.new) }
        ensures only { TakesSpelled (finish place end) result self.old self.new }
        ensures broken { IfErr result (IsFirstFault (finish place end) self.old) }
        ensures goes { GoesOn self.old.at self.new.at }
    {
        let used_to = self.cursor.place();
        if used_to != end {
            return Err(ObjFault::CountMismatch {
                place,
                said: (end - place - 4) as u32,
                used: (used_to - place - 4) as u32,
            });
        }
        Ok(())
    }

    // Reading stands at the place again where it stood before these bytes.
    fn go_back(&mut self, rest: &'a [u8], place: u64)
        requires places { place + length rest.now < 2 ^ 64 }
        requires size { length self.old.words.labels + length rest.now < 2 ^ 32 }
        ensures { self.new ≡ standing place rest.now self.old.words }
    {
        self.cursor = Cursor::new(rest, place);
    }

    // Where the bytes end that the count word at `place` counts.
    fn end_of(&self, place: u64, word: u32) -> Result<u64, ObjFault>
        requires count { IsTrue (is_count word) }
        requires behind { place + 4 ≤ self.now.at.place }
        requires near { data_end self.now < place + 2 ^ 32 }
        ensures exact { TakesStep (λ x. x) result
            (read (end_of place word) self.now) self.now self.now }
        ensures within { IfOk result (λ end. IsCounted place end self.now) }
    {
        let data_end = self.cursor.place() + self.cursor.left();
        let begin = place + 4;
        let count = u64::from(word - 0x4000_0000);
        if data_end - begin < count {
            return Err(ObjFault::BadCount { place });
        }
        Ok(begin + count)
    }

    // ---- headers

    fn header_end(&self, place: u64, word: u32) -> Result<u64, ObjFault>
        requires behind { place + 4 ≤ self.now.at.place }
        requires near { data_end self.now < place + 2 ^ 32 }
        ensures exact { TakesStep (λ x. x) result
            (read (header_end place word) self.now) self.now self.now }
        ensures within { IfOk result (λ end. IsCounted place end self.now) }
    {
        if (0x4000_0000..0x8000_0000).contains(&word) {
            self.end_of(place, word)
        } else if word >= 0xC000_0000 {
            Err(ObjFault::BadCount { place })
        } else {
            Err(ObjFault::NoCount { place })
        }
    }

    // The same as `header`, but where it refuses, reading may have gone on.
    #[tactic(auto, unfolding(crate::specs::Frames::header))]
    fn read_header(&mut self) -> Result<Header, ObjFault>
        ensures ok { IfOk result (λ h. read header self.old ≡ Ok (h, self.new)) }
        ensures err { IfErr result (λ e. read header self.old ≡ Err e) }
        ensures within { IfOk result (λ h. IsCounted h.place h.end self.new) }
        ensures words { self.new.words ≡ self.old.words }
        ensures goes { GoesOn self.old.at self.new.at }
    {
        let place = self.place();
        let word = self.take_u32()?;
        let end = self.header_end(place, word)?;
        let version = i32::from(self.take_u16()?);
        let sum = if version == 0 {
            Some(self.take_u32()?)
        } else {
            None
        };
        Ok(Header {
            place,
            end,
            version,
            sum,
        })
    }

    /// The header of an object, whose count is within the data.
    pub fn header(&mut self) -> Result<Header, ObjFault>
        ensures exact { TakesStep (λ x. x) result (read header self.old) self.old self.new }
        // What is read is spelled by the bytes that were passed.
        ensures found { IfOk result (λ h. HasTaken header self.old h self.new) }
        // What the bytes spell there is read.
        ensures only { TakesSpelled header result self.old self.new }
        // A fault is the first one of the bytes.
        ensures broken { IfErr result (IsFirstFault header self.old) }
        ensures within { IfOk result (λ h. IsCounted h.place h.end self.new) }
        ensures goes { GoesOn self.old.at self.new.at }
    {
        let (place, rest) = (self.place(), self.cursor.rest());
        match self.read_header() {
            Ok(header) => Ok(header),
            Err(fault) => {
                self.go_back(rest, place);
                Err(fault)
            }
        }
    }

    // ---- pointers

    // A name that ends before a zero byte.
    fn class_name(&mut self) -> Result<&'a [u8], ObjFault>
        ensures ok { IfOk result (λ t. read (name ObjFault.Short) self.old ≡ Ok (t.now, self.new)) }
        ensures err { IfErr result (λ e. read (name ObjFault.Short) self.old ≡ Err e) }
        ensures words { self.new.words ≡ self.old.words }
        ensures goes { GoesOn self.old.at self.new.at }
    {
        let rest = self.cursor.rest();
        let Some(len) = first_zero(rest) else {
            return Err(ObjFault::Short {
                place: self.cursor.place() + self.cursor.left(),
                wanted: 1,
            });
        };
        self.cursor.skip(len as u64 + 1)?;
        Ok(&rest[..len])
    }

    // The class that an earlier class word spells out.
    #[tactic(auto, using(crate::proofs::PlainNames::plain_found))]
    fn earlier_class(&self, place: u64, word: u32) -> Result<&'a [u8], ObjFault>
        ensures { TakesStep (λ t. t.now) result
            (read (known_class place word) self.now) self.now self.now }
    {
        if word < 0x8000_0002 {
            return Err(ObjFault::UnknownClassWord { place, word });
        }
        match self.names.get(&u64::from(word - 0x8000_0002)) {
            Some(name) => Ok(*name),
            None => Err(ObjFault::UnknownClassWord { place, word }),
        }
    }

    // A class word. A name that it spells out isn't kept yet.
    #[tactic(auto, unfolding(crate::specs::Frames::class_word, crate::specs::Frames::new_class))]
    fn class_word(&mut self) -> Result<ClassWord<'a>, ObjFault>
        ensures ok { IfOk result (λ c. read class_word self.old
            ≡ Ok (name_of c, noted self.old.at.place c self.new)) }
        ensures err { IfErr result (λ e. read class_word self.old ≡ Err e) }
        ensures words { self.new.words ≡ self.old.words }
        ensures goes { GoesOn self.old.at self.new.at }
    {
        let place = self.place();
        let word = self.take_u32()?;
        if word == u32::MAX {
            return Ok(ClassWord::Spelled(self.class_name()?));
        }
        Ok(ClassWord::Earlier(self.earlier_class(place, word)?))
    }

    // The next label, for the object whose count word stands at `place`.
    fn label(&mut self, place: u64) -> Result<u32, NoMemory>
        requires { length self.old.words.labels + length self.old.at.rest + 1 < 2 ^ 32 }
        ensures ok { IfOk result (λ label. (label ≡ length self.old.words.labels)
            × (self.new ≡ record self.old { words = with_label self.old.words place })) }
        ensures err { OnErr result (self.new ≡ self.old) }
    {
        let label = self.labels.len();
        self.labels.insert(place)?;
        Ok(label as u32)
    }

    // The next label, and the name that the class word at `class_place` spells out.
    #[tactic(auto, using(crate::proofs::PlainNames::plain_added))]
    fn label_and_name(
        &mut self,
        place: u64,
        class_place: u64,
        name: &'a [u8],
    ) -> Result<u32, NoMemory>
        requires { length self.old.words.labels + length self.old.at.rest + 1 < 2 ^ 32 }
        ensures ok { IfOk result (λ label. (label ≡ length self.old.words.labels)
            × (self.new ≡ record self.old
            { words = with_label (with_name self.old.words class_place name.now) place })) }
        ensures err { OnErr result (self.new ≡ self.old) }
    {
        self.labels.reserve(1)?;
        let label = self.labels.len();
        self.names.insert(class_place, name)?;
        self.labels.insert(place).unwrap();
        Ok(label as u32)
    }

    // The object that begins behind the count word at `place`.
    #[tactic(auto, unfolding(crate::specs::Frames::new_word))]
    fn new_object(&mut self, place: u64, word: u32) -> Result<PointerWord, ObjFault>
        requires count { IsTrue (is_count word) }
        requires behind { place + 4 ≤ self.old.at.place }
        requires near { data_end self.old < place + 2 ^ 32 }
        requires labels { length self.old.words.labels + length self.old.at.rest + 1 < 2 ^ 32 }
        ensures exact { ReadsAs (λ x. x) result (read (new_word place word) self.old) self.new }
        ensures within { IfOk result (λ w. IsPointerWithin w self.new) }
        ensures words { OnErr result (self.new.words ≡ self.old.words) }
        ensures goes { GoesOn self.old.at self.new.at }
    {
        let end = self.end_of(place, word)?;
        let class_place = self.place();
        let class_word = self.class_word()?;
        let class = Name::from_slice(self.alloc, class_word.name())?;
        let label = match class_word {
            ClassWord::Spelled(name) => self.label_and_name(place, class_place, name)?,
            ClassWord::Earlier(_) => self.label(place)?,
        };
        Ok(PointerWord::New {
            label,
            place,
            end,
            class,
        })
    }

    // The earlier object that the word refers to.
    fn reference(&self, place: u64, word: u32) -> Result<PointerWord, ObjFault>
        ensures { TakesStep (λ x. x) result
            (read (reference place word) self.now) self.now self.now }
    {
        if word < 2 {
            return Err(ObjFault::UnknownRef { place, word });
        }
        match self.labels.get_index_of(&u64::from(word - 2)) {
            Some(label) => Ok(PointerWord::Back {
                label: label as u32,
            }),
            None => Err(ObjFault::UnknownRef { place, word }),
        }
    }

    // The same as `pointer`, but where it refuses, reading may have gone on.
    #[tactic(auto, unfolding(crate::specs::Frames::pointer_word))]
    fn read_pointer(&mut self) -> Result<PointerWord, ObjFault>
        ensures exact { ReadsAs (λ x. x) result (read pointer_word self.old) self.new }
        ensures within { IfOk result (λ w. IsPointerWithin w self.new) }
        ensures words { OnErr result (self.new.words ≡ self.old.words) }
        ensures goes { GoesOn self.old.at self.new.at }
    {
        let place = self.cursor.place();
        let word = self.take_u32()?;
        if word == 0 {
            Ok(PointerWord::Null)
        } else if (0x4000_0000..0x8000_0000).contains(&word) {
            self.new_object(place, word)
        } else {
            self.reference(place, word)
        }
    }

    /// The first word of a pointer, and for a new object its class word, behind which the object stands.
    pub fn pointer(&mut self) -> Result<PointerWord, ObjFault>
        ensures exact { MayTake (λ x. x) result (read pointer_word self.old) self.old self.new }
        // What is read is spelled by the bytes that were passed.
        ensures found { IfOk result (λ w. HasTaken pointer_word self.old w self.new) }
        // What the bytes spell there is read, unless memory runs out.
        ensures only { MayTakeSpelled pointer_word result self.old self.new }
        // A fault is the first one of the bytes, unless memory runs out.
        ensures broken { TellsUnless OutOfMemory (IsFirstFault pointer_word self.old) result }
        ensures within { IfOk result (λ w. IsPointerWithin w self.new) }
        ensures goes { GoesOn self.old.at self.new.at }
    {
        let (place, rest) = (self.place(), self.cursor.rest());
        match self.read_pointer() {
            Ok(word) => Ok(word),
            Err(fault) => {
                self.go_back(rest, place);
                Err(fault)
            }
        }
    }
}

// Where the first zero byte stands.
fn first_zero(bytes: &[u8]) -> Option<usize>
    ensures place { result ≡ position (λ b. b == 0) bytes.now }
    ensures within { IfSome result (λ k. k < length bytes.now) }
{
    bytes.iter().position(|b| *b == 0)
}
