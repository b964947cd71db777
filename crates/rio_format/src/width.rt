//! How many bytes numbers have.
ghost use Rattle.std.specs.Prelude.{◌≡◌, ◌<◌};
ghost use Rattle.rio_format.specs.Prims.{width_of};

use crate::Prim;

/// How many bytes a number has.
pub fn width_of(of: Prim) -> u64
    ensures value { result ≡ width_of of }
    ensures some { 0 < result }
{
    match of {
        Prim::I8 | Prim::U8 | Prim::Bool => 1,
        Prim::I16 | Prim::U16 => 2,
        Prim::I32 | Prim::U32 | Prim::F32 => 4,
        Prim::I64 | Prim::U64 | Prim::F64 => 8,
    }
}
