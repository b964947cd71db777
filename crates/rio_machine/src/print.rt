//! Refusals as they are said.
ghost use Rattle.std.specs.Prelude.{◌≡◌, ◌++◌, OnOk, OnErr, codes};
ghost use Rattle.rio_num.specs.Printed.{name_text, numbered};
ghost use Rattle.rio_num.specs.Room.{with_more};
ghost use Rattle.rio_machine.specs.RefusalText.{refusal_details, refusal_text};

use crate::Refusal;
use rio_num::{Bytes, NoMemory};

fn put_numbers(text: &mut Bytes, n: u64, other: u64) -> Result<(), NoMemory>
    ensures { OnOk result (text.new.bytes ≡
        text.old.bytes ++ (numbered n ++ numbered other)) }
{
    text.put_numbered(n)?;
    text.put_numbered(other)
}

// A blank and a name.
fn put_member(text: &mut Bytes, member: &[u8]) -> Result<(), NoMemory>
    ensures { OnOk result (text.new.bytes ≡ text.old.bytes ++ (codes " " ++ name_text member.now)) }
{
    text.put(b" ")?;
    text.put_name(member)
}

fn put_details(text: &mut Bytes, refusal: &Refusal) -> Result<(), NoMemory>
    ensures { OnOk result (text.new.bytes ≡ text.old.bytes ++ refusal_details refusal.now) }
{
    match refusal {
        Refusal::BadLine { line, place } => {
            put_numbers(text, u64::from(*line), u64::from(*place))
        }
        Refusal::KindChanged { member } => put_member(text, member.as_slice()),
        Refusal::Full { end, wanted } => put_numbers(text, *end, *wanted),
        _ => Ok(()),
    }
}

fn put_refusal(text: &mut Bytes, refusal: &Refusal) -> Result<(), NoMemory>
    ensures { OnOk result (text.new.bytes ≡ text.old.bytes ++ refusal_text refusal.now) }
{
    text.put(b"no ")?;
    text.put_decimal(u64::from(refusal.number()))?;
    text.put(b" ")?;
    text.put(refusal.name())?;
    put_details(text, refusal)?;
    text.put(b"\n")
}

/// Puts a refusal at the end as it is said, with its line feed: `no NUMBER NAME`, followed for BadLine by line and
/// place, for KindChanged by the member, for Full by end and wanted. Without memory nothing is put.
pub fn print_refusal(refusal: &Refusal, into: &mut Bytes) -> Result<(), NoMemory>
    ensures ok { OnOk result (into.new ≡ with_more into.old (refusal_text refusal.now)) }
    ensures err { OnErr result (into.new ≡ into.old) }
{
    let mut text = Bytes::new(into.allocator());
    put_refusal(&mut text, refusal)?;
    into.put(text.as_slice())
}
