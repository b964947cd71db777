//! Lengths that zero bytes raise to a multiple of four.
ghost use Rattle.std.specs.Prelude.{◌≡◌, ◌+◌, ◌<◌, ◌^◌};
ghost use Rattle.rio_num.specs.Padding.{padded_length};

/// The length with the zero bytes that raise it to a multiple of four.
pub fn padded(n: u64) -> u64
    requires { n + 3 < 2 ^ 64 }
    ensures { result ≡ padded_length n }
{
    n + (4 - n % 4) % 4
}
