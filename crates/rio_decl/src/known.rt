//! Members and bases that were read, with their names kept beside them.
ghost use Rattle.std.specs.Prelude.{◌≡◌, ℕ, List, ◌||◌, IfOk, OnOk};
ghost use Rattle.rio_num.specs.Word.{is_among};
ghost use Rattle.rio_decl.specs.Known.{KnowsCounters};
ghost use Rattle.rio_model.specs.ClassGrammar.{counts_by};

use crate::read_kind::may_count;
use rio_format::{Base, Bases, Kind, Member, Members};
use rio_num::{Name, Names, NoMemory};
use std::alloc::Global;
use std::marker::Model;

// Puts the name of what counts a value of the kind among others, if something does.
fn put_counter<'a>(counters: &mut Names<'a>, kind: &'a Kind) -> Result<(), NoMemory>
    ensures { OnOk result
        ((name : List ℕ) →
        is_among counters.new name
        ≡ (counts_by kind.now name || is_among counters.old name)) }
{
    match kind {
        Kind::Counted { counter, .. } => counters.note(counter.as_slice()),
        _ => Ok(()),
    }
}

/// The names that count some of the members.
pub(crate) fn counters_of<'a>(alloc: Global, members: &'a [Member]) -> Result<Names<'a>, NoMemory>
    ensures { IfOk result (λ counters. KnowsCounters members.now counters) }
{
    let mut counters = Names::new(alloc);
    for member in members {
        put_counter(&mut counters, &member.kind)?;
    }
    Ok(counters)
}

/// A member that is read, before those behind it are known.
#[derive(Drop)]
pub(crate) struct NewMember<'a> {
    pub(crate) name: &'a [u8],
    pub(crate) kind: Kind,
}

/// The members that were read.
#[derive(Drop)]
pub(crate) struct KnownMembers<'a> {
    members: Members,
    all: Names<'a>,
    integers: Names<'a>,
}

impl<'a> Model for KnownMembers<'a> {
    ghost use Rattle.std.specs.Prelude.{List};
    ghost use Rattle.rio_decl.specs.Known.{KnowsMembers};
    ghost use Rattle.rio_format.specs.declared.class.Member.{Member};

    ghost Value = { List Member };

    ghost view = { λ known. known.members };

    ghost invariant = { λ known. KnowsMembers known.members known.all known.integers };
}

impl<'a> KnownMembers<'a> {
    ghost use Rattle.std.specs.Prelude.{◌≡◌, [], ◌∷◌, ◌++◌, IfOk};
    ghost use Rattle.rio_format.specs.Bodies.{member};
    ghost use Rattle.rio_model.specs.ClassGrammar.{has_i32, has_member};

    /// No members.
    pub(crate) fn new(alloc: Global) -> KnownMembers<'a>
        ensures { result ≡ [] }
    {
        KnownMembers {
            members: Members::new(alloc),
            all: Names::new(alloc),
            integers: Names::new(alloc),
        }
    }

    /// Whether one of the members has the name.
    pub(crate) fn has_member(&self, name: &[u8]) -> bool
        ensures { result ≡ has_member self.now name.now }
    {
        self.all.has(name)
    }

    /// Whether one of the members has the name, and is an `i32`.
    pub(crate) fn has_integer(&self, name: &[u8]) -> bool
        ensures { result ≡ has_i32 self.now name.now }
    {
        self.integers.has(name)
    }

    /// The members with one more at the end.
    pub(crate) fn with(
        self,
        alloc: Global,
        next: NewMember<'a>,
    ) -> Result<KnownMembers<'a>, NoMemory>
        ensures { IfOk result
            (λ more. more ≡ self.entry ++ member next.entry.name.now next.entry.kind ∷ []) }
    {
        let KnownMembers {
            mut members,
            mut all,
            mut integers,
        } = self;
        let NewMember { name, kind } = next;
        if may_count(&kind) {
            integers.note(name)?;
        }
        all.note(name)?;
        members.push(Member {
            name: Name::from_slice(alloc, name)?,
            kind,
            title: Name::new(alloc),
        })?;
        Ok(KnownMembers {
            members,
            all,
            integers,
        })
    }

    /// The members alone.
    pub(crate) fn into_members(self) -> Members
        ensures { result ≡ self.entry }
    {
        let KnownMembers { members, .. } = self;
        members
    }
}

/// The bases that were read.
#[derive(Drop)]
pub(crate) struct KnownBases<'a> {
    bases: Bases,
    names: Names<'a>,
}

impl<'a> Model for KnownBases<'a> {
    ghost use Rattle.std.specs.Prelude.{List};
    ghost use Rattle.rio_decl.specs.Known.{KnowsBases};
    ghost use Rattle.rio_format.specs.declared.class.Base.{Base};

    ghost Value = { List Base };

    ghost view = { λ known. known.bases };

    ghost invariant = { λ known. KnowsBases known.bases known.names };
}

impl<'a> KnownBases<'a> {
    ghost use Rattle.std.specs.Prelude.{◌≡◌, [], ◌∷◌, ◌++◌, IfOk};
    ghost use Rattle.rio_model.specs.ClassGrammar.{base, has_base_named};

    /// No bases.
    pub(crate) fn new(alloc: Global) -> KnownBases<'a>
        ensures { result ≡ [] }
    {
        KnownBases {
            bases: Bases::new(alloc),
            names: Names::new(alloc),
        }
    }

    /// Whether one of the bases has the name.
    pub(crate) fn has_base_named(&self, name: &[u8]) -> bool
        ensures { result ≡ has_base_named self.now name.now }
    {
        self.names.has(name)
    }

    /// The bases with one more at the end, of version 0.
    pub(crate) fn with(self, alloc: Global, name: &'a [u8]) -> Result<KnownBases<'a>, NoMemory>
        ensures { IfOk result (λ more. more ≡ self.entry ++ base name.now ∷ []) }
    {
        let KnownBases {
            mut bases,
            mut names,
        } = self;
        names.note(name)?;
        bases.push(Base {
            name: Name::from_slice(alloc, name)?,
            version: 0,
        })?;
        Ok(KnownBases { bases, names })
    }

    /// The bases alone.
    pub(crate) fn into_bases(self) -> Bases
        ensures { result ≡ self.entry }
    {
        let KnownBases { bases, .. } = self;
        bases
    }
}
