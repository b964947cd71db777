//! Values are read from left to right. A call reads a value with at most `levels` brackets within one
//! another.
//!
//! Up to 1,024 brackets are read within one another, by calls within one another. So these calls keep little: what is made of
//! a value that was read is made in calls of their own, which are left before the next value is read.
ghost use Rattle.std.specs.Prelude.{◌≡◌, ◌<◌, ◌^◌, ◌-◌, ◌++◌, [], ◌∷◌, length, IfErr, IfOk, OnOk, Ok, if◌then◌else◌};
ghost use Rattle.rio_format.specs.{Bodies.{part}, declared.value.Part.{Part as Parted}, declared.value.Value.{Value as Given, Object, Pointed}};
ghost use Rattle.rio_num.specs.Answers.{FailsUnless};
ghost use Rattle.rio_num.specs.At.{At};
ghost use Rattle.rio_num.specs.Word.{is_name_text};
ghost use Rattle.rio_token.specs.declared.fault.TextFault.TheVariants.{NoMemory as OutOfMemory};
ghost use Rattle.rio_token.specs.Tokens.{token_place};
ghost use Rattle.rio_token.specs.Reading.{AnswersText, Reads, TakesInMemory, list_at, more_at};
ghost use Rattle.rio_token.specs.Words.{bits_of, number_of};
ghost use Rattle.rio_token.specs.Marks.{closing_brace, closing_bracket};
ghost use Rattle.rio_model.specs.ValueGrammar.{bracket_limit, class_version_at, enclosed_at, listed, marked_value_at, number_or, bits_value, object_at, opens_object, part_at, pointer_at, row_at, text_value_at, value_and_end, value_in_text, value_in, values_at, word_value, word_value_at, worded};

use rio_format::{Part, Parts, Value, Values};
use rio_num::{Boxed, Name, NoMemory, is_name};
use rio_token::{Bits, TextFault, Token, Tokens, parse_bits, parse_number};
use std::alloc::Global;

/// How many brackets may stand within one another.
const BRACKET_LIMIT: u32 = 1024;

/// The value that the text spells from `place` on, and the place behind its last byte. Behind it anything
/// may stand. `BadText` names the first token that can't stand in a value.
pub fn read_value(alloc: Global, text: &[u8], place: u32) -> Result<(Value, u32), TextFault>
    requires { length text.now < 2 ^ 32 }
    ensures { AnswersText result (value_and_end (value_in text.now place)) }
{
    let mut tokens = Tokens::new(text, place);
    let value = take_value(alloc, &mut tokens)?;
    Ok((value, tokens.place()))
}

/// The value that the next tokens spell. `BadText` names the first token that can't stand in a value. A
/// refused call leaves the tokens as they were.
pub fn take_value(alloc: Global, tokens: &mut Tokens) -> Result<Value, TextFault>
    ensures { TakesInMemory (λ v. v) result
        (value_in_text (enclosed_at bracket_limit) tokens.old) tokens.old tokens.new }
{
    let mut ahead = tokens.copy();
    let value = read_next(alloc, &mut ahead, BRACKET_LIMIT)?;
    *tokens = ahead;
    Ok(value)
}

/// The value that the next tokens spell within brackets, which count among those that may stand within one
/// another. `BadText` names the first token that can't stand in a value. A refused call leaves the tokens as
/// they were.
pub fn take_inner_value(alloc: Global, tokens: &mut Tokens) -> Result<Value, TextFault>
    ensures { TakesInMemory (λ v. v) result
        (value_in_text (enclosed_at (bracket_limit - 1)) tokens.old) tokens.old tokens.new }
{
    let mut ahead = tokens.copy();
    let value = read_next(alloc, &mut ahead, BRACKET_LIMIT - 1)?;
    *tokens = ahead;
    Ok(value)
}

/// The row that the next tokens spell: a list of values, whose own brackets count among those that may
/// stand within one another. `BadText` names the first token that can't stand in it. A refused call leaves
/// the tokens as they were.
pub fn take_values(alloc: Global, tokens: &mut Tokens) -> Result<Values, TextFault>
    ensures { TakesInMemory (λ vs. vs) result (row_at tokens.old) tokens.old tokens.new }
{
    let mut ahead = tokens.copy();
    let values = read_values(alloc, &mut ahead, BRACKET_LIMIT - 1)?;
    *tokens = ahead;
    Ok(values)
}

#[cycle(value)]
#[tactic(auto, unfolding(rio_model::specs::ValueGrammar::value_in_text))]
fn read_next(alloc: Global, tokens: &mut Tokens, levels: u32) -> Result<Value, TextFault>
    ensures { Reads (λ v. v) result (value_in_text (enclosed_at levels) tokens.old) tokens.new }
{
    match tokens.peek() {
        Token::Word => read_word(alloc, tokens, levels),
        Token::Mark(mark) => read_marked(alloc, tokens, mark, levels),
        _ => read_text(alloc, tokens),
    }
}

#[tactic(auto, unfolding(rio_model::specs::ValueGrammar::text_value_at))]
fn read_text(alloc: Global, tokens: &mut Tokens) -> Result<Value, TextFault>
    ensures { Reads (λ v. v) result (text_value_at tokens.old) tokens.new }
{
    Ok(Value::Text(tokens.take_text(alloc)?))
}

#[cycle(value)]
fn read_marked(
    alloc: Global,
    tokens: &mut Tokens,
    mark: u8,
    levels: u32,
) -> Result<Value, TextFault>
    ensures { let read = marked_value_at (enclosed_at levels) mark tokens.old in
        Reads (λ v. v) result read tokens.new }
{
    match mark {
        b'[' => read_list(alloc, tokens, levels),
        b'@' => {
            tokens.pass();
            read_pointer(alloc, tokens, levels)
        }
        _ => Err(tokens.bad()),
    }
}

// The value that a word is by itself.
#[tactic(auto, unfolding(rio_model::specs::ValueGrammar::word_value))]
fn value_of_word(word: &[u8]) -> Option<Value>
    ensures { result ≡ word_value word.now }
{
    match word {
        b"true" => Some(Value::Bool(true)),
        b"false" => Some(Value::Bool(false)),
        b"null" => Some(Value::Null),
        _ => value_of_number(word),
    }
}

fn value_of_number(word: &[u8]) -> Option<Value>
    ensures { result ≡ number_or (number_of word.now) (bits_value (bits_of word.now)) }
{
    match (parse_number(word), parse_bits(word)) {
        (Some(n), _) => Some(Value::Int(n)),
        (None, Some(Bits::Four(n))) => Some(Value::Bits32(n)),
        (None, Some(Bits::Eight(n))) => Some(Value::Bits64(n)),
        (None, None) => None,
    }
}

// Whether an object goes on behind its class.
fn goes_on(tokens: &Tokens) -> bool
    ensures { result ≡ opens_object tokens.now }
{
    matches!(tokens.peek(), Token::Mark(b'{' | b'#'))
}

// What a word is that no object follows. `bad_word` is its fault.
fn word_alone(word: &[u8], tokens: &Tokens, bad_word: TextFault) -> Result<Value, TextFault>
    ensures { (s : At) → bad_word ≡ TextFault.BadText (token_place s) → Reads (λ v. v) result
        (worded (word_value word.now) (is_name_text word.now) s tokens.now) tokens.now }
{
    match value_of_word(word) {
        Some(value) => Ok(value),
        None if is_name(word) => Err(tokens.bad()),
        None => Err(bad_word),
    }
}

#[cycle(value)]
#[tactic(auto, unfolding(rio_model::specs::ValueGrammar::word_value_at))]
fn read_word(alloc: Global, tokens: &mut Tokens, levels: u32) -> Result<Value, TextFault>
    ensures { Reads (λ v. v) result (word_value_at (enclosed_at levels) tokens.old) tokens.new }
{
    let bad_word = tokens.bad();
    let word = tokens.take_word()?;
    if is_name(word) && goes_on(tokens) {
        return read_object(alloc, tokens, word, levels);
    }
    word_alone(word, tokens, bad_word)
}

// The version behind a class, or 0 where none stands there.
#[tactic(auto, unfolding(rio_model::specs::ValueGrammar::class_version_at))]
fn read_version(tokens: &mut Tokens) -> Result<i32, TextFault>
    ensures { Reads (λ n. n) result (class_version_at tokens.old) tokens.new }
{
    if tokens.take_mark(b'#') {
        let version = tokens.take_num_between(1, 32767)?;
        Ok(version as i32)
    } else {
        Ok(0)
    }
}

// An object of these parts.
fn object_with(alloc: Global, class: &[u8], version: i32, parts: Parts) -> Result<Value, TextFault>
    ensures ok { IfOk result (λ v. v ≡ Object class.now version parts) }
    ensures err { IfErr result (λ e. e ≡ TextFault.NoMemory) }
{
    let class = Name::from_slice(alloc, class)?;
    Ok(Value::Object {
        class,
        version,
        parts,
    })
}

// An object, behind its class.
#[cycle(value)]
#[tactic(auto, unfolding(rio_model::specs::ValueGrammar::object_at, rio_model::specs::ValueGrammar::enclosed_at, rio_model::specs::ValueGrammar::enclosed_by))]
fn read_object(
    alloc: Global,
    tokens: &mut Tokens,
    class: &[u8],
    levels: u32,
) -> Result<Value, TextFault>
    ensures { let read = object_at (enclosed_at levels) class.now tokens.old in
        Reads (λ v. v) result read tokens.new }
{
    let version = read_version(tokens)?;
    if levels == 0 {
        return Err(tokens.bad());
    }
    tokens.expect_mark(b'{')?;
    match read_parts(alloc, tokens, levels - 1) {
        Ok(parts) => object_with(alloc, class, version, parts),
        Err(fault) => Err(fault),
    }
}

// A pointer to the object of this label, which begins here.
fn pointed(alloc: Global, label: u32, object: Value) -> Result<Value, TextFault>
    ensures ok { IfOk result (λ v. v ≡ Pointed label object) }
    ensures err { IfErr result (λ e. e ≡ TextFault.NoMemory) }
{
    Ok(Value::Pointed {
        label,
        object: Boxed::new(alloc, object)?,
    })
}

// A pointer, behind its `@`.
#[cycle(value)]
#[tactic(auto, unfolding(rio_model::specs::ValueGrammar::pointer_at, rio_model::specs::ValueGrammar::named_object_at))]
fn read_pointer(alloc: Global, tokens: &mut Tokens, levels: u32) -> Result<Value, TextFault>
    ensures { Reads (λ v. v) result (pointer_at (enclosed_at levels) tokens.old) tokens.new }
{
    let label = tokens.take_num()?;
    if !tokens.take_mark(b'=') {
        return Ok(Value::Back(label));
    }
    let class = tokens.take_name()?;
    match read_object(alloc, tokens, class, levels) {
        Ok(object) => pointed(alloc, label, object),
        Err(fault) => Err(fault),
    }
}

#[cycle(value)]
#[tactic(auto, unfolding(rio_model::specs::ValueGrammar::enclosed_at, rio_model::specs::ValueGrammar::enclosed_by))]
fn read_list(alloc: Global, tokens: &mut Tokens, levels: u32) -> Result<Value, TextFault>
    ensures { Reads (λ v. v) result (enclosed_at levels listed tokens.old) tokens.new }
{
    if levels == 0 {
        return Err(tokens.bad());
    }
    match read_values(alloc, tokens, levels - 1) {
        Ok(items) => Ok(Value::List(items)),
        Err(fault) => Err(fault),
    }
}

// The values between square brackets.
#[cycle(value)]
#[tactic(auto, unfolding(rio_model::specs::ValueGrammar::values_at))]
fn read_values(alloc: Global, tokens: &mut Tokens, levels: u32) -> Result<Values, TextFault>
    ensures { Reads (λ vs. vs) result (values_at (enclosed_at levels) tokens.old) tokens.new }
{
    tokens.expect_mark(b'[')?;
    read_items(alloc, tokens, levels)
}

// Puts the next value at the end.
#[cycle(value)]
fn push_next(
    alloc: Global,
    tokens: &mut Tokens,
    items: &mut Values,
    levels: u32,
) -> Result<(), TextFault>
    ensures ok { OnOk result ((v : Given)
        × (value_in_text (enclosed_at levels) tokens.old ≡ Ok (v, tokens.new))
        × (items.new ≡ items.old ++ v ∷ [])) }
    ensures err { let read = value_in_text (enclosed_at levels) tokens.old in
        IfErr result (λ e. FailsUnless OutOfMemory e read) }
{
    match read_next(alloc, tokens, levels) {
        Ok(value) => Ok(items.push(value)?),
        Err(fault) => Err(fault),
    }
}

// The values of a list and its closing bracket.
#[cycle(value)]
#[tactic(auto, unfolding(rio_token::specs::Reading::list_at, rio_token::specs::Reading::some_at))]
fn read_items(alloc: Global, tokens: &mut Tokens, levels: u32) -> Result<Values, TextFault>
    ensures { Reads (λ vs. vs) result
        (list_at closing_bracket (λ before. value_in_text (enclosed_at levels)) tokens.old)
        tokens.new }
{
    let mut items = Values::new(alloc);
    if tokens.take_mark(b']') {
        return Ok(items);
    }
    push_next(alloc, tokens, &mut items, levels)?;
    read_more_items(alloc, tokens, items, levels)
}

#[cycle(value)]
fn read_more_items(
    alloc: Global,
    tokens: &mut Tokens,
    mut items: Values,
    levels: u32,
) -> Result<Values, TextFault>
    ensures { let left = length tokens.old.rest in
        Reads (λ vs. vs) result
        (more_at left closing_bracket (λ before. value_in_text (enclosed_at levels))
        items tokens.old) tokens.new }
{
    for _done in 0..tokens.left() {
        if tokens.take_mark(b']') {
            return Ok(items);
        }
        tokens.expect_mark(b',')?;
        push_next(alloc, tokens, &mut items, levels)?;
    }
    Err(tokens.bad())
}

// The parts of an object and its closing brace.
#[cycle(value)]
#[tactic(auto, unfolding(rio_token::specs::Reading::list_at, rio_token::specs::Reading::some_at))]
fn read_parts(alloc: Global, tokens: &mut Tokens, levels: u32) -> Result<Parts, TextFault>
    ensures { Reads (λ ps. ps) result
        (list_at closing_brace (λ before. part_at (enclosed_at levels)) tokens.old)
        tokens.new }
{
    let mut parts = Parts::new(alloc);
    if tokens.take_mark(b'}') {
        return Ok(parts);
    }
    push_part(alloc, tokens, &mut parts, levels)?;
    read_more_parts(alloc, tokens, parts, levels)
}

#[cycle(value)]
fn read_more_parts(
    alloc: Global,
    tokens: &mut Tokens,
    mut parts: Parts,
    levels: u32,
) -> Result<Parts, TextFault>
    ensures { let left = length tokens.old.rest in
        Reads (λ ps. ps) result
        (more_at left closing_brace (λ before. part_at (enclosed_at levels)) parts tokens.old)
        tokens.new }
{
    for _done in 0..tokens.left() {
        if tokens.take_mark(b'}') {
            return Ok(parts);
        }
        tokens.expect_mark(b',')?;
        push_part(alloc, tokens, &mut parts, levels)?;
    }
    Err(tokens.bad())
}

// The value behind the name of a part: that of a member, or a base.
#[cycle(value)]
fn read_named(
    alloc: Global,
    tokens: &mut Tokens,
    name: &[u8],
    is_member: bool,
    levels: u32,
) -> Result<Value, TextFault>
    ensures { Reads (λ v. v) result (if is_member then value_in_text (enclosed_at levels) tokens.old
        else object_at (enclosed_at levels) name.now tokens.old) tokens.new }
{
    if is_member {
        read_next(alloc, tokens, levels)
    } else {
        read_object(alloc, tokens, name, levels)
    }
}

// The name of a part. A base has none.
fn part_name(alloc: Global, name: &[u8], is_member: bool) -> Result<Name, NoMemory>
    ensures { IfOk result (λ n. n ≡ (if is_member then name.now else [])) }
{
    if is_member {
        Name::from_slice(alloc, name)
    } else {
        Ok(Name::new(alloc))
    }
}

// Puts a part at the end.
fn put_part(
    alloc: Global,
    parts: &mut Parts,
    name: &[u8],
    is_member: bool,
    value: Value,
) -> Result<(), TextFault>
    ensures ok { OnOk result
        (parts.new ≡ parts.old ++ part (if is_member then name.now else []) value ∷ []) }
    ensures err { IfErr result (λ e. e ≡ TextFault.NoMemory) }
{
    let name = part_name(alloc, name, is_member)?;
    Ok(parts.push(Part { name, value })?)
}

// Puts the next part at the end.
#[cycle(value)]
#[tactic(auto, unfolding(rio_model::specs::ValueGrammar::part_at))]
fn push_part(
    alloc: Global,
    tokens: &mut Tokens,
    parts: &mut Parts,
    levels: u32,
) -> Result<(), TextFault>
    ensures ok { OnOk result ((p : Parted)
        × (part_at (enclosed_at levels) tokens.old ≡ Ok (p, tokens.new))
        × (parts.new ≡ parts.old ++ p ∷ [])) }
    ensures err { let read = part_at (enclosed_at levels) tokens.old in
        IfErr result (λ e. FailsUnless OutOfMemory e read) }
{
    let name = tokens.take_name()?;
    let is_member = tokens.take_mark(b':');
    match read_named(alloc, tokens, name, is_member, levels) {
        Ok(value) => put_part(alloc, parts, name, is_member, value),
        Err(fault) => Err(fault),
    }
}
