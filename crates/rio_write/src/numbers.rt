//! Numbers, and what each takes in a slot.
ghost use Rattle.std.specs.Prelude.{◌≡◌, ◌<◌, [], ◌∷◌};
ghost use Rattle.std.specs.Int.{w8, w16, w32, w64, cast_unsigned};
ghost use Rattle.byteorder.specs.Endian.{big_bytes};
ghost use Rattle.rio_format.specs.{Slots.{kinded}, Written.{int_bytes, truth_byte}, declared.kind.Kind.TheVariants.{Plain}};
ghost use Rattle.rio_write.specs.Sinks.{SinkTakes};
ghost use Rattle.rio_write.specs.Writing.{bits_within};

use crate::sink::Sink;
use rio_format::{Prim, Slot, SlotKind};
use rio_num::NoMemory;

// The bits of a number in an unsigned type that has `size` numbers.
fn bits_within(n: i128, size: u128) -> u128
    requires { 0 < size }
    ensures value { result ≡ bits_within size n }
    ensures low { result < size }
{
    if n >= 0 {
        n.cast_unsigned() % size
    } else {
        size.saturating_sub(n.unsigned_abs()) % size
    }
}

pub(crate) fn bits_8(n: i128) -> u8
    ensures { big_bytes 1 result ≡ big_bytes 1 (cast_unsigned w8 n) }
{
    bits_within(n, 0x100) as u8
}

pub(crate) fn bits_16(n: i128) -> u16
    ensures { big_bytes 2 result ≡ big_bytes 2 (cast_unsigned w16 n) }
{
    bits_within(n, 0x1_0000) as u16
}

pub(crate) fn bits_32(n: i128) -> u32
    ensures { big_bytes 4 result ≡ big_bytes 4 (cast_unsigned w32 n) }
{
    bits_within(n, 0x1_0000_0000) as u32
}

fn bits_64(n: i128) -> u64
    ensures { big_bytes 8 result ≡ big_bytes 8 (cast_unsigned w64 n) }
{
    bits_within(n, 0x1_0000_0000_0000_0000) as u64
}

/// A number of this kind, by its lowest bits.
pub fn write_prim<S: Sink>(sink: &mut S, n: i128, of: Prim) -> Result<(), NoMemory>
    ensures { SinkTakes S.stands (int_bytes n (kinded (Plain of))) result sink.old sink.new }
{
    match of {
        Prim::I8 | Prim::U8 | Prim::Bool => sink.take_u8(bits_8(n)),
        Prim::I16 | Prim::U16 => sink.take_u16(bits_16(n)),
        Prim::I32 | Prim::U32 | Prim::F32 => sink.take_u32(bits_32(n)),
        Prim::I64 | Prim::U64 | Prim::F64 => sink.take_u64(bits_64(n)),
    }
}

/// A number, as it stands in the slot.
#[tactic(auto, using(crate::proofs::SinkLaws::nothing_accepted))]
pub(crate) fn write_int<S: Sink>(sink: &mut S, n: i128, slot: &Slot) -> Result<(), NoMemory>
    ensures { SinkTakes S.stands (int_bytes n slot.now) result sink.old sink.new }
{
    match slot.0 {
        SlotKind::Plain(of) => write_prim(sink, n, of),
        SlotKind::Counter => sink.take_u32(bits_32(n)),
        SlotKind::Flags => sink.take_u32(bits_32(n)),
        _ => Ok(()),
    }
}

/// A byte that is 1 or 0.
pub fn write_bool<S: Sink>(sink: &mut S, b: bool) -> Result<(), NoMemory>
    ensures { SinkTakes S.stands (truth_byte b ∷ []) result sink.old sink.new }
{
    sink.take_u8(u8::from(b))
}

/// A count of items, by its lowest 32 bits.
pub(crate) fn write_count<S: Sink>(sink: &mut S, count: usize) -> Result<(), NoMemory>
    ensures { SinkTakes S.stands (big_bytes 4 count) result sink.old sink.new }
{
    sink.take_u32(bits_32(count as i128))
}
