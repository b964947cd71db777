//! Whether a declaration can give a class.
ghost use Rattle.std.specs.Prelude.{◌≡◌, ◌++◌, List, [], ◌∷◌, ◌&&◌, not, IfOk, OnOk};
ghost use Rattle.rio_num.specs.Word.{is_among, is_name_text};
ghost use Rattle.rio_format.specs.{declared.class.Base.{Base}, declared.class.Member.{Member}, Members.{is_counter}};
ghost use Rattle.rio_model.specs.Stated.{are_stated_bases, are_stated_members, has_stated_parts, is_class_version, is_class_word, is_stated_base, is_stated_class};
ghost use Rattle.rio_decl.specs.Known.{KnowsBases, KnowsPassed, is_known_kind, is_known_member};

use crate::checksum;
use crate::known::counters_of;
use crate::read_kind::{is_i32_primitive, primitive};
use rio_format::{Base, ClassDef, Kind, Member};
use rio_num::{Names, NoMemory, is_name};
use std::alloc::Global;

fn is_counter_kind(kind: &Kind) -> bool
    ensures { result ≡ is_counter kind.now }
{
    matches!(kind, Kind::Counter)
}

// Whether the word is no kind of its own, and so the class of an object.
fn names_class(word: &[u8]) -> bool
    ensures { result ≡ is_class_word word.now }
{
    is_name(word) && primitive(word).is_none() && word != b"text".as_slice()
}

// A kind behind these counters, of a member that counts or doesn't.
fn kind_is_stated(counters: &Names, counts: bool, kind: &Kind) -> bool
    ensures { result ≡ is_known_kind (is_among counters.now) counts kind.now }
{
    match kind {
        Kind::Plain { of } => !(is_i32_primitive(*of) && counts),
        Kind::Counter => counts,
        Kind::Fixed { count, .. } => 1 <= *count && *count <= 100_000,
        Kind::Counted { counter, .. } => counters.has(counter.as_slice()),
        Kind::Text => true,
        Kind::Inline { class } => names_class(class.as_slice()),
        Kind::Pointer { class } => is_name(class.as_slice()),
        Kind::Other { .. } => false,
    }
}

// A name that is none of these.
fn is_new(passed: &Names, name: &[u8]) -> bool
    ensures { result ≡ (is_name_text name.now && not (is_among passed.now name.now)) }
{
    is_name(name) && !passed.has(name)
}

// A member behind those of these names, among them these counters, where these names count.
fn member_is_stated(passed: &Names, counters: &Names, counting: &Names, member: &Member) -> bool
    ensures { result
        ≡ is_known_member (is_among passed.now) (is_among counters.now) (is_among counting.now)
        member.now }
{
    let name = member.name.as_slice();
    let kind = kind_is_stated(counters, counting.has(name), &member.kind);
    is_new(passed, name) && kind && member.title.is_empty()
}

// Puts a member's name among the others, and among those of the counters, if it is one.
fn pass_member<'a>(
    passed: &mut Names<'a>,
    counters: &mut Names<'a>,
    member: &'a Member,
) -> Result<(), NoMemory>
    ensures { OnOk result
        ((before : List Member) → KnowsPassed before passed.old counters.old →
        KnowsPassed (before ++ member.now ∷ []) passed.new counters.new) }
{
    let name = member.name.as_slice();
    if is_counter_kind(&member.kind) {
        counters.note(name)?;
    }
    passed.note(name)
}

fn members_are_stated(alloc: Global, members: &[Member]) -> Result<bool, NoMemory>
    ensures { IfOk result (λ stated. stated ≡ are_stated_members [] members.now) }
{
    let counting = counters_of(alloc, members)?;
    let mut passed = Names::new(alloc);
    let mut counters = Names::new(alloc);
    for member in members {
        if !member_is_stated(&passed, &counters, &counting, member) {
            return Ok(false);
        }
        pass_member(&mut passed, &mut counters, member)?;
    }
    Ok(true)
}

// A base behind those of these names.
fn base_is_stated(passed: &Names, base: &Base) -> bool
    ensures { (before : List Base) → KnowsBases before passed.now →
        result ≡ is_stated_base before base.now }
{
    is_new(passed, base.name.as_slice())
}

fn bases_are_stated(alloc: Global, bases: &[Base]) -> Result<bool, NoMemory>
    ensures { IfOk result (λ stated. stated ≡ are_stated_bases [] bases.now) }
{
    let mut passed = Names::new(alloc);
    for base in bases {
        if !base_is_stated(&passed, base) {
            return Ok(false);
        }
        passed.note(base.name.as_slice())?;
    }
    Ok(true)
}

fn version_is_stated(version: i32) -> bool
    ensures { result ≡ is_class_version version }
{
    1 <= version && version <= 32767
}

fn parts_are_stated(alloc: Global, class: &ClassDef) -> Result<bool, NoMemory>
    ensures { IfOk result (λ stated. stated ≡ has_stated_parts class.now) }
{
    Ok(
        is_name(class.name.as_slice())
            && version_is_stated(class.version)
            && bases_are_stated(alloc, class.bases.as_slice())?
            && members_are_stated(alloc, class.members.as_slice())?,
    )
}

/// Whether `read_class` can give the class, whatever versions its bases have: names are names, none
/// stands twice among the bases or among the members, the version is 1 to 32,767, a counted member has
/// its counter before it, a member of kind `Counter` counts one behind it, and so does no other `i32`,
/// nothing is of kind `Other`, no object's class is named as a kind, dimensions are 1 to 100,000, titles
/// are empty, and the checksum is that of the declaration.
#[tactic(auto, unfolding(rio_model::specs::Stated::is_stated_class))]
pub fn is_stated(alloc: Global, class: &ClassDef) -> Result<bool, NoMemory>
    ensures { IfOk result (λ stated. stated ≡ is_stated_class class.now) }
{
    if !parts_are_stated(alloc, class)? {
        return Ok(false);
    }
    let sum = checksum(alloc, class)?;
    Ok(class.sum == sum)
}
