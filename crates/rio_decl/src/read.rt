//! Classes read from the text of their declarations, from left to right.
ghost use Rattle.std.specs.Prelude.{◌≡◌, ◌<◌, ◌^◌, List, length, IfOk};
ghost use Rattle.rio_num.specs.Reading.{Takes};
ghost use Rattle.rio_token.specs.Reading.{AnswersText, Reads, TakesInMemory, list_at, more_at, some_at, word_that_at};
ghost use Rattle.rio_token.specs.Marks.{closing_brace, opening_brace};
ghost use Rattle.rio_format.specs.{Bodies.{member}, declared.class.Member.{Member}};
ghost use Rattle.rio_model.specs.ClassGrammar.{base, base_at, bases_at, class_at, class_in, counting_kind, is_new_base, is_new_member, member_at, with_counters, with_sum};
ghost use Rattle.rio_decl.specs.Known.{KnowsCounters};

use crate::checksum;
use crate::known::{KnownBases, KnownMembers, NewMember, counters_of};
use crate::read_kind::{may_count, read_kind};
use rio_format::{Base, Bases, ClassDef, Kind, Member, Members};
use rio_num::{Name, Names, NoMemory, is_name};
use rio_token::{TextFault, Tokens};
use std::alloc::Global;

/// The class that the text declares from `place` on, where the word `class` stands, up to its end. Its
/// bases have the version 0, its titles are empty, and its checksum is that of its text. `BadText` names
/// the first token that can't stand in a declaration.
pub fn read_class(alloc: Global, text: &[u8], place: u32) -> Result<ClassDef, TextFault>
    requires { length text.now < 2 ^ 32 }
    ensures { AnswersText result (class_in text.now place) }
{
    let mut tokens = Tokens::new(text, place);
    take_class(alloc, &mut tokens)
}

/// The class that the next tokens declare, from the word `class` on up to the end of the text, as
/// `read_class` gives it. `BadText` names the first token that can't stand in a declaration. A refused
/// call leaves the tokens as they were.
pub fn take_class(alloc: Global, tokens: &mut Tokens) -> Result<ClassDef, TextFault>
    ensures { TakesInMemory (λ c. c) result (class_at tokens.old) tokens.old tokens.new }
{
    let mut ahead = tokens.copy();
    let class = read_declaration(alloc, &mut ahead)?;
    *tokens = ahead;
    Ok(class)
}

#[tactic(auto, unfolding(rio_model::specs::ClassGrammar::class_at))]
fn read_declaration(alloc: Global, tokens: &mut Tokens) -> Result<ClassDef, TextFault>
    ensures { Reads (λ c. c) result (class_at tokens.old) tokens.new }
{
    tokens.expect_word(b"class")?;
    let name = tokens.take_name()?;
    let version = tokens.take_num_between(1, 32767)?;
    let bases = read_bases(alloc, tokens)?;
    let members = read_members(alloc, tokens)?;
    tokens.expect_end()?;
    let class = ClassDef {
        name: Name::from_slice(alloc, name)?,
        version: version as i32,
        sum: 0,
        bases,
        members: with_counting(alloc, members.as_slice())?,
    };
    Ok(with_checksum(alloc, class)?)
}

fn with_checksum(alloc: Global, mut class: ClassDef) -> Result<ClassDef, NoMemory>
    ensures { IfOk result (λ summed. summed ≡ with_sum class) }
{
    class.sum = checksum(alloc, &class)?;
    Ok(class)
}

// A base's name, which none before has.
#[tactic(auto, unfolding(rio_token::specs::Reading::word_that_at))]
fn take_base_name<'a>(tokens: &mut Tokens<'a>, before: &KnownBases) -> Result<&'a [u8], TextFault>
    ensures { Takes (λ word. word.now) result
        (word_that_at (is_new_base before.now) tokens.old) tokens.old tokens.new }
{
    match tokens.peek_word() {
        Some(word) if is_name(word) && !before.has_base_named(word) => {
            tokens.pass();
            Ok(word)
        }
        _ => Err(tokens.bad()),
    }
}

// A member's name, which none before has.
#[tactic(auto, unfolding(rio_token::specs::Reading::word_that_at))]
fn take_member_name<'a>(
    tokens: &mut Tokens<'a>,
    before: &KnownMembers,
) -> Result<&'a [u8], TextFault>
    ensures { Takes (λ word. word.now) result
        (word_that_at (is_new_member before.now) tokens.old) tokens.old tokens.new }
{
    match tokens.peek_word() {
        Some(word) if is_name(word) && !before.has_member(word) => {
            tokens.pass();
            Ok(word)
        }
        _ => Err(tokens.bad()),
    }
}

// A base's name.
#[tactic(auto, unfolding(rio_model::specs::ClassGrammar::base_at))]
fn read_base<'a>(tokens: &mut Tokens<'a>, before: &KnownBases) -> Result<&'a [u8], TextFault>
    ensures { Reads (λ name. base name.now) result (base_at before.now tokens.old) tokens.new }
{
    let name = take_base_name(tokens, before)?;
    Ok(name)
}

// The bases, if there are any, and the opening brace.
#[tactic(auto, unfolding(rio_model::specs::ClassGrammar::bases_at))]
fn read_bases(alloc: Global, tokens: &mut Tokens) -> Result<Bases, TextFault>
    ensures { Reads (λ b. b) result (bases_at tokens.old) tokens.new }
{
    if tokens.take_mark(b':') {
        return read_some_bases(alloc, tokens);
    }
    tokens.expect_mark(b'{')?;
    Ok(Bases::new(alloc))
}

#[tactic(auto, unfolding(rio_token::specs::Reading::some_at))]
fn read_some_bases(alloc: Global, tokens: &mut Tokens) -> Result<Bases, TextFault>
    ensures { Reads (λ b. b) result (some_at opening_brace base_at tokens.old) tokens.new }
{
    let none = KnownBases::new(alloc);
    let base = read_base(tokens, &none)?;
    let first = none.with(alloc, base)?;
    read_more_bases(alloc, tokens, first)
}

fn read_more_bases<'a>(
    alloc: Global,
    tokens: &mut Tokens<'a>,
    mut bases: KnownBases<'a>,
) -> Result<Bases, TextFault>
    ensures { Reads (λ b. b) result
        (more_at (length tokens.old.rest) opening_brace base_at bases.entry tokens.old) tokens.new }
{
    for _done in 0..tokens.left() {
        if tokens.take_mark(b'{') {
            return Ok(bases.into_bases());
        }
        tokens.expect_mark(b',')?;
        let base = read_base(tokens, &bases)?;
        bases = bases.with(alloc, base)?;
    }
    Err(tokens.bad())
}

#[tactic(auto, unfolding(rio_model::specs::ClassGrammar::member_at))]
fn read_member<'a>(
    alloc: Global,
    tokens: &mut Tokens<'a>,
    before: &KnownMembers,
) -> Result<NewMember<'a>, TextFault>
    ensures { Reads (λ m. member m.name.now m.kind) result
        (member_at before.now tokens.old) tokens.new }
{
    let name = take_member_name(tokens, before)?;
    tokens.expect_mark(b':')?;
    let kind = read_kind(alloc, tokens, before)?;
    Ok(NewMember { name, kind })
}

// The members, and the closing brace.
#[tactic(auto, unfolding(rio_token::specs::Reading::list_at, rio_token::specs::Reading::some_at))]
fn read_members(alloc: Global, tokens: &mut Tokens) -> Result<Members, TextFault>
    ensures { Reads (λ m. m) result (list_at closing_brace member_at tokens.old) tokens.new }
{
    let none = KnownMembers::new(alloc);
    if tokens.take_mark(b'}') {
        return Ok(none.into_members());
    }
    let member = read_member(alloc, tokens, &none)?;
    let first = none.with(alloc, member)?;
    read_more_members(alloc, tokens, first)
}

fn read_more_members<'a>(
    alloc: Global,
    tokens: &mut Tokens<'a>,
    mut members: KnownMembers<'a>,
) -> Result<Members, TextFault>
    ensures { Reads (λ m. m) result
        (more_at (length tokens.old.rest) closing_brace member_at members.entry tokens.old)
        tokens.new }
{
    for _done in 0..tokens.left() {
        if tokens.take_mark(b'}') {
            return Ok(members.into_members());
        }
        tokens.expect_mark(b',')?;
        let member = read_member(alloc, tokens, &members)?;
        members = members.with(alloc, member)?;
    }
    Err(tokens.bad())
}

// A member's kind: a counter, where it is an `i32` that counts.
fn kind_among(counters: &Names, member: &Member) -> Result<Kind, NoMemory>
    ensures { (members : List Member) → KnowsCounters members counters.now →
        IfOk result (λ kind. kind ≡ counting_kind members member.now) }
{
    if may_count(&member.kind) && counters.has(member.name.as_slice()) {
        Ok(Kind::Counter)
    } else {
        member.kind.copy()
    }
}

// The members, with those that count as counters.
#[tactic(auto, unfolding(rio_model::specs::ClassGrammar::with_counters))]
fn with_counting(alloc: Global, members: &[Member]) -> Result<Members, NoMemory>
    ensures { IfOk result (λ counting. counting ≡ with_counters members.now) }
{
    let counters = counters_of(alloc, members)?;
    let mut counting = Members::new(alloc);
    for member in members {
        counting.push(Member {
            name: member.name.copy()?,
            kind: kind_among(&counters, member)?,
            title: member.title.copy()?,
        })?;
    }
    Ok(counting)
}
