//! Class lists of which it is known which classes have a TObject among their bases.
ghost use Rattle.std.specs.Prelude.{◌≡◌, ◌∷◌, [], ◌++◌, is_some, map, IfOk, OnOk};
ghost use Rattle.rio_format.specs.{Bases.{visit_bases}, Bodies.{built_in}, Lists.{listed}, Visits.{base_of}};
ghost use Rattle.rio_describe.specs.Heirs.{AreTheHeirs, Judged, built_in_base, built_in_bases, candidates_of, class_base, has_reaching, is_heir};

use rio_format::{
    Base, BaseSet, BuiltIn, ClassDef, ClassLists, Classes, headed_version, is_headed,
};
use rio_num::NoMemory;
use std::alloc::Global;
use std::marker::Model;

/// Class lists, with the classes of them that have a TObject among their bases. That is found out once, so that what is
/// written for a member takes a look-up.
#[derive(Drop)]
pub struct JudgedLists<'a> {
    lists: ClassLists<'a>,
    heirs: BaseSet<'a>,
}

impl<'a> Model for JudgedLists<'a> {
    ghost use Rattle.rio_format.specs.{Lists.{listed}, declared.lists.ClassLists.{ClassLists}};
    ghost use Rattle.rio_describe.specs.Heirs.{AreTheHeirs};

    ghost Value = { ClassLists };

    ghost view = { λ judged. judged.lists };

    ghost invariant = { λ judged. AreTheHeirs (listed judged.lists) judged.heirs };
}

impl<'a> JudgedLists<'a> {
    /// Judges these lists: it goes over them until no further class is found.
    pub fn new(alloc: Global, lists: ClassLists<'a>) -> Result<JudgedLists<'a>, NoMemory>
        ensures { IfOk result (λ judged. judged ≡ lists.entry) }
    {
        let heirs = heirs_of(alloc, &lists)?;
        Ok(JudgedLists { lists, heirs })
    }

    /// The lists.
    pub fn lists(&self) -> &ClassLists<'a>
        ensures { result.now ≡ self.now }
    {
        &self.lists
    }

    /// Whether the class in this version has a TObject among its bases.
    pub(crate) fn is_heir(&self, class: &[u8], version: i32) -> bool
        ensures { result ≡ is_heir (listed self.now) class.now version }
    {
        self.heirs.contains(class, version)
    }
}

// Whether one of the bases is a TObject or a known heir.
fn has_reaching(heirs: &BaseSet, bases: &[Base]) -> bool
    ensures { result ≡ has_reaching heirs.now bases.now }
{
    for base in bases {
        let name = base.name.as_slice();
        if name == b"TObject".as_slice() || heirs.contains(name, base.version) {
            return true;
        }
    }
    false
}

// Whether the class is built in in this version, and has a TObject as its base.
fn is_built_in(class: &[u8], version: i32) -> bool
    ensures { result ≡ is_some (built_in class.now version) }
{
    match headed_version(class) {
        Some(own) => own == version,
        None => false,
    }
}

// Whether one of the bases of the class in this version is a TObject or a known heir.
fn reaches_by_bases(lists: &ClassLists, heirs: &BaseSet, class: &[u8], version: i32) -> bool
    ensures { result
        ≡ has_reaching heirs.now (visit_bases (listed lists.now) (base_of class.now version)) }
{
    if !is_headed(class) {
        return false;
    }
    if is_built_in(class, version) {
        return true;
    }
    match lists.find(class, version) {
        Some(found) => has_reaching(heirs, found.bases.as_slice()),
        None => false,
    }
}

// The class in this version is among the heirs from then on, where its bases tell it.
fn judge<'a>(
    lists: &ClassLists<'a>,
    heirs: &mut BaseSet<'a>,
    class: &'a [u8],
    version: i32,
) -> Result<(), NoMemory>
    ensures { OnOk result
        (Judged (listed lists.now) (base_of class.now version ∷ []) heirs.old heirs.new) }
{
    if reaches_by_bases(lists, heirs, class, version) {
        heirs.put(class, version)?;
    }
    Ok(())
}

fn judge_own<'a>(
    lists: &ClassLists<'a>,
    heirs: &mut BaseSet<'a>,
    class: BuiltIn,
) -> Result<(), NoMemory>
    ensures { OnOk result
        (Judged (listed lists.now) (built_in_base class ∷ []) heirs.old heirs.new) }
{
    judge(lists, heirs, class.name(), class.version())
}

fn judge_built_in<'a>(lists: &ClassLists<'a>, heirs: &mut BaseSet<'a>) -> Result<(), NoMemory>
    ensures { OnOk result (Judged (listed lists.now) built_in_bases heirs.old heirs.new) }
{
    judge_own(lists, heirs, BuiltIn::Named)?;
    judge_own(lists, heirs, BuiltIn::ObjString)?;
    judge_own(lists, heirs, BuiltIn::Listed)?;
    judge_own(lists, heirs, BuiltIn::Arrayed)
}

fn judge_part<'a>(
    lists: &ClassLists<'a>,
    heirs: &mut BaseSet<'a>,
    part: &'a [ClassDef],
) -> Result<(), NoMemory>
    ensures { OnOk result
        (Judged (listed lists.now) (map class_base part.now) heirs.old heirs.new) }
{
    for class in part {
        judge(lists, heirs, class.name.as_slice(), class.version)?;
    }
    Ok(())
}

// The classes of both lists, one behind the other.
fn judge_both<'a>(
    lists: &ClassLists<'a>,
    heirs: &mut BaseSet<'a>,
    first: &'a Classes,
    second: &'a Classes,
) -> Result<(), NoMemory>
    ensures { OnOk result
        (Judged (listed lists.now) (map class_base (first.now ++ second.now)) heirs.old heirs.new) }
{
    judge_part(lists, heirs, first.as_slice())?;
    judge_part(lists, heirs, second.as_slice())
}

fn judge_described<'a>(lists: &ClassLists<'a>, heirs: &mut BaseSet<'a>) -> Result<(), NoMemory>
    ensures { OnOk result
        (Judged (listed lists.now) (map class_base (listed lists.now)) heirs.old heirs.new) }
{
    match lists {
        ClassLists::One(part) => judge_part(lists, heirs, part.as_slice()),
        ClassLists::Two(first, second) => judge_both(lists, heirs, first, second),
        ClassLists::With(first, second, class) => {
            judge_both(lists, heirs, first, second)?;
            judge(lists, heirs, class.name.as_slice(), class.version)
        }
    }
}

// All that may have bases, once.
fn judge_each<'a>(lists: &ClassLists<'a>, heirs: &mut BaseSet<'a>) -> Result<(), NoMemory>
    ensures { OnOk result
        (Judged (listed lists.now) (candidates_of (listed lists.now)) heirs.old heirs.new) }
{
    judge_built_in(lists, heirs)?;
    judge_described(lists, heirs)
}

// The heirs: a class whose bases stand before it is found the first time, so that mostly the second time finds no more.
fn heirs_of<'a>(alloc: Global, lists: &ClassLists<'a>) -> Result<BaseSet<'a>, NoMemory>
    ensures { IfOk result (λ heirs. AreTheHeirs (listed lists.now) heirs) }
{
    let mut heirs = BaseSet::new(alloc);
    let mut left = lists.len() + 1;
    while left > 0 {
        left -= 1;
        let before = heirs.len();
        judge_each(lists, &mut heirs)?;
        if heirs.len() == before {
            return Ok(heirs);
        }
    }
    Ok(heirs)
}
