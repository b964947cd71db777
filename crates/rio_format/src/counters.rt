//! The counters of an object, and what the last one of a name says.
ghost use Rattle.std.specs.Prelude.{◌≡◌, ℕ, List, if◌then◌else◌, Some, OnOk, OnErr};
ghost use Rattle.std.specs.Map.{lookup};
ghost use Rattle.std.specs.Str.{bytes_eq};
ghost use Rattle.rio_format.specs.Counts.{last_first, number_by_name};

use rio_num::NoMemory;
use smallvec::SmallVec;
use std::alloc::Global;
use std::collections::BTreeMap;
use std::marker::Model;

// So many counters, which most objects don't pass, take no memory, and are searched one by one.
const FEW: usize = 4;

type Numbers<'a> = BTreeMap<&'a [u8], i32>;

/// The counters of an object that were met, and what they say. Their names lie elsewhere. Contracts see the last one first.
#[derive(Drop)]
pub struct Counters<'a> {
    // All of them, the first one first.
    met: SmallVec<(&'a [u8], i32), FEW>,
    // Behind the first few, a name to what the last counter of that name says.
    numbers: Numbers<'a>,
}

impl<'a> Model for Counters<'a> {
    ghost use Rattle.std.specs.Prelude.{ℕ, ℤ, List, drop};
    ghost use Rattle.rio_format.specs.Counts.{SaysAsFirst, last_first};

    ghost Value = { List (List ℕ × ℤ) };

    ghost view = { λ counters. last_first counters.met.items };

    ghost invariant = { λ counters.
        SaysAsFirst counters.numbers (last_first (drop 4 counters.met.items)) };
}

impl<'a> Counters<'a> {
    ghost use Rattle.std.specs.Prelude.{◌≡◌, [], ◌∷◌, OnOk};
    ghost use Rattle.std.specs.Map.{lookup};
    ghost use Rattle.std.specs.Str.{bytes_eq};
    ghost use Rattle.rio_format.specs.Bodies.{count_by};

    /// No counters.
    pub fn new(alloc: Global) -> Counters<'a>
        ensures { result ≡ [] }
    {
        Counters {
            met: SmallVec::new(alloc),
            numbers: Numbers::new(alloc),
        }
    }

    /// One more counter of this name, which says the number.
    #[tactic(auto, using(crate::proofs::CounterLaws::few_more, crate::proofs::CounterLaws::many_more, crate::proofs::CounterLaws::last_is_first))]
    pub fn note(&mut self, name: &'a [u8], said: i32) -> Result<(), NoMemory>
        ensures { OnOk result (self.new ≡ (name.now, said) ∷ self.old) }
    {
        self.met.reserve(1)?;
        if self.met.len() >= FEW {
            put_number(&mut self.numbers, name, said)?;
        }
        self.met.push((name, said))?;
        Ok(())
    }

    /// What the last counter of the name says, or 0.
    pub fn count_by(&self, name: &[u8]) -> i32
        ensures { result ≡ count_by name.now self.now }
    {
        self.said(name).unwrap_or(0)
    }

    /// What the last counter of the name says, if there is one.
    pub fn said(&self, name: &[u8]) -> Option<i32>
        ensures { result ≡ lookup (bytes_eq name.now) self.now }
    {
        match self.numbers.get(name).copied() {
            Some(said) => Some(said),
            None => {
                let met = self.met.as_slice();
                last_said(&met[..FEW.min(met.len())], name)
            }
        }
    }
}

// What the last of these counters says that has the name, if one has it.
#[tactic(auto, using(crate::proofs::CounterLaws::said_on))]
fn last_said(counters: &[(&[u8], i32)], name: &[u8]) -> Option<i32>
    ensures { result ≡ lookup (bytes_eq name.now) (last_first counters.now) }
{
    let mut said = None;
    for counter in counters {
        if name == counter.0 {
            said = Some(counter.1);
        }
    }
    said
}

// The name leads to the number from now on.
fn put_number<'a>(numbers: &mut Numbers<'a>, name: &'a [u8], said: i32) -> Result<(), NoMemory>
    ensures ok { OnOk result
        ((q : List ℕ) →
        number_by_name numbers.new q
        ≡ (if bytes_eq q name.now then Some said else number_by_name numbers.old q)) }
    ensures err { OnErr result
        ((q : List ℕ) → number_by_name numbers.new q ≡ number_by_name numbers.old q) }
{
    numbers.insert(name, said)?;
    Ok(())
}
