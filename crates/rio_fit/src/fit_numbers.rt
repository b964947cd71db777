//! Which numbers and other single values fit.
ghost use Rattle.std.specs.Prelude.{◌≡◌};
ghost use Rattle.rio_format.specs.{Fits.{bits32_fits, bits64_fits, fits_prim, fits_signed, fits_unsigned, int_fits, text_fits, truth_fits}, Slots.{flags}};

use rio_format::{Prim, Slot, SlotKind};

fn fits_8(n: i128) -> bool
    ensures { result ≡ fits_signed 8 n }
{
    i8::try_from(n).is_ok()
}

fn fits_16(n: i128) -> bool
    ensures { result ≡ fits_signed 16 n }
{
    i16::try_from(n).is_ok()
}

pub(crate) fn fits_32(n: i128) -> bool
    ensures { result ≡ fits_signed 32 n }
{
    i32::try_from(n).is_ok()
}

fn fits_64(n: i128) -> bool
    ensures { result ≡ fits_signed 64 n }
{
    i64::try_from(n).is_ok()
}

fn fits_u8(n: i128) -> bool
    ensures { result ≡ fits_unsigned 8 n }
{
    u8::try_from(n).is_ok()
}

fn fits_u16(n: i128) -> bool
    ensures { result ≡ fits_unsigned 16 n }
{
    u16::try_from(n).is_ok()
}

fn fits_u32(n: i128) -> bool
    ensures { result ≡ fits_unsigned 32 n }
{
    u32::try_from(n).is_ok()
}

fn fits_u64(n: i128) -> bool
    ensures { result ≡ fits_unsigned 64 n }
{
    u64::try_from(n).is_ok()
}

fn fits_prim(of: Prim, n: i128) -> bool
    ensures { result ≡ fits_prim of n }
{
    match of {
        Prim::I8 => fits_8(n),
        Prim::I16 => fits_16(n),
        Prim::I32 => fits_32(n),
        Prim::I64 => fits_64(n),
        Prim::U8 => fits_u8(n),
        Prim::U16 => fits_u16(n),
        Prim::U32 => fits_u32(n),
        Prim::U64 => fits_u64(n),
        Prim::Bool => false,
        Prim::F32 => false,
        Prim::F64 => false,
    }
}

// fBits, without its bit 4
fn fits_flags(n: i128) -> bool
    ensures { result ≡ int_fits n flags }
{
    match u32::try_from(n) {
        Ok(bits) => bits & 16 == 0,
        Err(_) => false,
    }
}

pub(crate) fn int_fits(n: i128, slot: &Slot) -> bool
    ensures { result ≡ int_fits n slot.now }
{
    match slot.0 {
        SlotKind::Plain(of) => fits_prim(of, n),
        SlotKind::Counter => fits_32(n),
        SlotKind::Flags => fits_flags(n),
        _ => false,
    }
}

pub(crate) fn bits32_fits(bits: u32, slot: &Slot) -> bool
    ensures { result ≡ bits32_fits bits slot.now }
{
    matches!(slot.0, SlotKind::Plain(Prim::F32))
}

pub(crate) fn bits64_fits(bits: u64, slot: &Slot) -> bool
    ensures { result ≡ bits64_fits bits slot.now }
{
    matches!(slot.0, SlotKind::Plain(Prim::F64))
}

pub(crate) fn truth_fits(slot: &Slot) -> bool
    ensures { result ≡ truth_fits slot.now }
{
    matches!(slot.0, SlotKind::Plain(Prim::Bool))
}

pub(crate) fn text_fits(slot: &Slot) -> bool
    ensures { result ≡ text_fits slot.now }
{
    matches!(slot.0, SlotKind::Text)
}
