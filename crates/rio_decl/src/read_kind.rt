//! The kinds of members, each in knowledge of the members before it.
ghost use Rattle.std.specs.Prelude.{◌≡◌, IfOk};
ghost use Rattle.rio_token.specs.Reading.{Reads};
ghost use Rattle.rio_model.specs.ClassGrammar.{dimension_at, dimension_of, is_i32, is_i32_of, kind_at, plain_at, primitive_at, primitive_of, sized_at};

use crate::known::KnownMembers;
use rio_format::{Kind, Prim};
use rio_num::{Name, NoMemory};
use rio_token::{TextFault, Tokens, parse_num_between};
use std::alloc::Global;

/// The kind of single values that a word names.
#[tactic(auto, unfolding(rio_model::specs::ClassGrammar::primitive_of))]
pub(crate) fn primitive(word: &[u8]) -> Option<Prim>
    ensures { result ≡ primitive_of word.now }
{
    match word {
        b"i8" => Some(Prim::I8),
        b"i16" => Some(Prim::I16),
        b"i32" => Some(Prim::I32),
        b"i64" => Some(Prim::I64),
        b"u8" => Some(Prim::U8),
        b"u16" => Some(Prim::U16),
        b"u32" => Some(Prim::U32),
        b"u64" => Some(Prim::U64),
        b"bool" => Some(Prim::Bool),
        b"f32" => Some(Prim::F32),
        b"f64" => Some(Prim::F64),
        _ => None,
    }
}

pub(crate) fn is_i32_primitive(of: Prim) -> bool
    ensures { result ≡ is_i32_of of }
{
    matches!(of, Prim::I32)
}

/// Whether the kind is an `i32` that may count.
pub(crate) fn may_count(kind: &Kind) -> bool
    ensures { result ≡ is_i32 kind.now }
{
    match kind {
        Kind::Plain { of } => is_i32_primitive(*of),
        _ => false,
    }
}

// What a word in square brackets says: how many values there are, or which member before counts them.
#[tactic(auto, unfolding(rio_model::specs::ClassGrammar::dimension_of))]
fn dimension(
    alloc: Global,
    before: &KnownMembers,
    of: Prim,
    word: &[u8],
) -> Result<Option<Kind>, NoMemory>
    ensures { IfOk result (λ kind. kind ≡ dimension_of before.now of word.now) }
{
    if let Some(count) = parse_num_between(word, 1, 100_000) {
        return Ok(Some(Kind::Fixed { of, count }));
    }
    if before.has_integer(word) {
        let counter = Name::from_slice(alloc, word)?;
        return Ok(Some(Kind::Counted { of, counter }));
    }
    Ok(None)
}

fn read_dimension(
    alloc: Global,
    tokens: &mut Tokens,
    before: &KnownMembers,
    of: Prim,
) -> Result<Kind, TextFault>
    ensures { Reads (λ k. k) result (dimension_at before.now of tokens.old) tokens.new }
{
    let Some(word) = tokens.peek_word() else {
        return Err(tokens.bad());
    };
    match dimension(alloc, before, of, word)? {
        Some(kind) => {
            tokens.pass();
            Ok(kind)
        }
        None => Err(tokens.bad()),
    }
}

// A list of values, behind its opening bracket.
#[tactic(auto, unfolding(rio_model::specs::ClassGrammar::sized_at))]
fn read_sized(
    alloc: Global,
    tokens: &mut Tokens,
    before: &KnownMembers,
    of: Prim,
) -> Result<Kind, TextFault>
    ensures { Reads (λ k. k) result (sized_at before.now of tokens.old) tokens.new }
{
    let kind = read_dimension(alloc, tokens, before, of)?;
    tokens.expect_mark(b']')?;
    Ok(kind)
}

fn read_primitive(
    alloc: Global,
    tokens: &mut Tokens,
    before: &KnownMembers,
    of: Prim,
) -> Result<Kind, TextFault>
    ensures { Reads (λ k. k) result (primitive_at before.now of tokens.old) tokens.new }
{
    if tokens.take_mark(b'[') {
        read_sized(alloc, tokens, before, of)
    } else {
        Ok(Kind::Plain { of })
    }
}

// A kind behind its first word, which is no pointer's.
fn read_plain(
    alloc: Global,
    tokens: &mut Tokens,
    before: &KnownMembers,
    word: &[u8],
) -> Result<Kind, TextFault>
    ensures { Reads (λ k. k) result
        (plain_at before.now word.now (primitive_of word.now) tokens.old) tokens.new }
{
    match primitive(word) {
        Some(of) => read_primitive(alloc, tokens, before, of),
        None if word == b"text".as_slice() => Ok(Kind::Text),
        None => Ok(Kind::Inline {
            class: Name::from_slice(alloc, word)?,
        }),
    }
}

/// The kind of a member, in knowledge of the members before it.
#[tactic(auto, unfolding(rio_model::specs::ClassGrammar::kind_at))]
pub(crate) fn read_kind(
    alloc: Global,
    tokens: &mut Tokens,
    before: &KnownMembers,
) -> Result<Kind, TextFault>
    ensures { Reads (λ k. k) result (kind_at before.now tokens.old) tokens.new }
{
    let word = tokens.take_name()?;
    if tokens.take_mark(b'*') {
        return Ok(Kind::Pointer {
            class: Name::from_slice(alloc, word)?,
        });
    }
    read_plain(alloc, tokens, before, word)
}
