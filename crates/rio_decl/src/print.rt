//! Classes printed as their declarations.
ghost use Rattle.std.specs.Prelude.{◌≡◌, ◌++◌, codes, OnOk, OnErr};
ghost use Rattle.std.specs.List.{flat_map};
ghost use Rattle.rio_num.specs.Room.{with_more};
ghost use Rattle.rio_model.specs.ClassText.{base_text, bases_text, kind_text, member_text, members_text, primitive_text, text_of_class};

use rio_format::{Base, ClassDef, Kind, Member, Prim};
use rio_num::{Bytes, NoMemory};

fn put_primitive(text: &mut Bytes, primitive: Prim) -> Result<(), NoMemory>
    ensures { OnOk result (text.new.bytes ≡ text.old.bytes ++ primitive_text primitive) }
{
    match primitive {
        Prim::I8 => text.put(b"i8"),
        Prim::I16 => text.put(b"i16"),
        Prim::I32 => text.put(b"i32"),
        Prim::I64 => text.put(b"i64"),
        Prim::U8 => text.put(b"u8"),
        Prim::U16 => text.put(b"u16"),
        Prim::U32 => text.put(b"u32"),
        Prim::U64 => text.put(b"u64"),
        Prim::Bool => text.put(b"bool"),
        Prim::F32 => text.put(b"f32"),
        Prim::F64 => text.put(b"f64"),
    }
}

fn put_fixed(text: &mut Bytes, of: Prim, count: u32) -> Result<(), NoMemory>
    ensures { OnOk result (text.new.bytes ≡ text.old.bytes ++ kind_text (Kind.Fixed of count)) }
{
    put_primitive(text, of)?;
    text.put(b"[")?;
    text.put_decimal(u64::from(count))?;
    text.put(b"]")
}

fn put_counted(text: &mut Bytes, of: Prim, counter: &[u8]) -> Result<(), NoMemory>
    ensures { OnOk result (text.new.bytes
        ≡ text.old.bytes ++ kind_text (Kind.Counted of counter.now)) }
{
    put_primitive(text, of)?;
    text.put(b"[")?;
    text.put_name(counter)?;
    text.put(b"]")
}

fn put_pointer(text: &mut Bytes, class: &[u8]) -> Result<(), NoMemory>
    ensures { OnOk result (text.new.bytes ≡ text.old.bytes ++ kind_text (Kind.Pointer class.now)) }
{
    text.put_name(class)?;
    text.put(b"*")
}

fn put_other(text: &mut Bytes, code: i32) -> Result<(), NoMemory>
    ensures { OnOk result (text.new.bytes ≡ text.old.bytes ++ kind_text (Kind.Other code)) }
{
    text.put(b"other(")?;
    text.put_integer(i128::from(code))?;
    text.put(b")")
}

fn put_kind(text: &mut Bytes, kind: &Kind) -> Result<(), NoMemory>
    ensures { OnOk result (text.new.bytes ≡ text.old.bytes ++ kind_text kind.now) }
{
    match kind {
        Kind::Plain { of } => put_primitive(text, *of),
        Kind::Counter => text.put(b"i32"),
        Kind::Fixed { of, count } => put_fixed(text, *of, *count),
        Kind::Counted { of, counter } => put_counted(text, *of, counter.as_slice()),
        Kind::Text => text.put(b"text"),
        Kind::Inline { class } => text.put_name(class.as_slice()),
        Kind::Pointer { class } => put_pointer(text, class.as_slice()),
        Kind::Other { code } => put_other(text, *code),
    }
}

fn put_member(text: &mut Bytes, member: &Member) -> Result<(), NoMemory>
    ensures { OnOk result (text.new.bytes ≡ text.old.bytes ++ member_text member.now) }
{
    text.put_name(member.name.as_slice())?;
    text.put(b": ")?;
    put_kind(text, &member.kind)
}

// A comma and a space, and then the member, for each of them.
fn put_more_members(text: &mut Bytes, members: &[Member]) -> Result<(), NoMemory>
    ensures { OnOk result
        (text.new.bytes
        ≡ text.old.bytes ++ flat_map (λ m. codes ", " ++ member_text m) members.now) }
{
    for member in members {
        text.put(b", ")?;
        put_member(text, member)?;
    }
    Ok(())
}

fn put_members(text: &mut Bytes, members: &[Member]) -> Result<(), NoMemory>
    ensures { OnOk result (text.new.bytes ≡ text.old.bytes ++ members_text members.now) }
{
    match members {
        [] => text.put(b"{ }"),
        [first, rest @ ..] => {
            text.put(b"{ ")?;
            put_member(text, first)?;
            put_more_members(text, rest)?;
            text.put(b" }")
        }
    }
}

// A comma and a space, and then the base, for each of them.
fn put_more_bases(text: &mut Bytes, bases: &[Base]) -> Result<(), NoMemory>
    ensures { OnOk result
        (text.new.bytes ≡ text.old.bytes ++ flat_map (λ b. codes ", " ++ base_text b) bases.now) }
{
    for base in bases {
        text.put(b", ")?;
        text.put_name(base.name.as_slice())?;
    }
    Ok(())
}

fn put_bases(text: &mut Bytes, bases: &[Base]) -> Result<(), NoMemory>
    ensures { OnOk result (text.new.bytes ≡ text.old.bytes ++ bases_text bases.now) }
{
    match bases {
        [] => Ok(()),
        [first, rest @ ..] => {
            text.put(b" : ")?;
            text.put_name(first.name.as_slice())?;
            put_more_bases(text, rest)
        }
    }
}

#[tactic(auto, unfolding(rio_model::specs::ClassText::text_of_class))]
fn put_class(text: &mut Bytes, class: &ClassDef) -> Result<(), NoMemory>
    ensures { OnOk result (text.new.bytes ≡ text.old.bytes ++ text_of_class class.now) }
{
    text.put(b"class ")?;
    text.put_name(class.name.as_slice())?;
    text.put(b" ")?;
    text.put_integer(i128::from(class.version))?;
    put_bases(text, class.bases.as_slice())?;
    text.put(b" ")?;
    put_members(text, class.members.as_slice())
}

/// Puts a class at the end as its declaration is printed, on one line:
/// `class NAME VERSION : BASE, BASE { NAME: KIND, NAME: KIND }`, without the colon where there are no
/// bases, and `{ }` where there are no members. A kind is the word of a primitive, as `i32`, or that
/// with its length, as `i32[5]`, or with its counter, as `u8[n]`; `text`; the class of an object; that
/// with a `*` for a pointer; `other(CODE)` for what isn't read. A counter is an `i32`. Names are
/// printed as `put_name` of `Bytes` says. Without memory nothing is put.
pub fn print_class(class: &ClassDef, into: &mut Bytes) -> Result<(), NoMemory>
    ensures ok { OnOk result (into.new ≡ with_more into.old (text_of_class class.now)) }
    ensures err { OnErr result (into.new ≡ into.old) }
{
    let mut text = Bytes::new(into.allocator());
    put_class(&mut text, class)?;
    into.put(text.as_slice())
}
