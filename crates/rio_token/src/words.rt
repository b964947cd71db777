//! Words that are numbers or bit patterns.
ghost use Rattle.std.specs.Prelude.{◌≡◌, ◌+◌, ◌*◌, ◌<◌, ◌≤◌, option_map, IfSome};
ghost use Rattle.rio_token.specs.Words.{at_most, bits_from, bits_of, decimal, digit_in, has_no_leading_zero, num_between_of, num_of, number_of, written};

use crate::quoted::hex_digit;

/// A bit pattern.
#[derive(Clone, Copy, Debug, PartialEq, Eq)]
pub enum Bits {
    /// Of 4 bytes.
    Four(u32),
    /// Of 8 bytes.
    Eight(u64),
}

fn digit(base: u64, byte: u8) -> Option<u64>
    ensures { result ≡ digit_in base byte }
{
    match hex_digit(byte) {
        Some(digit) if u64::from(digit) < base => Some(u64::from(digit)),
        _ => None,
    }
}

// The number with one digit more, up to the greatest.
fn with_digit(base: u64, most: u64, n: u64, byte: u8) -> Option<u64>
    ensures { result ≡ at_most most (option_map (λ d. n * base + d) (digit_in base byte)) }
{
    let digit = digit(base, byte)?;
    let n = n.checked_mul(base)?.checked_add(digit)?;
    if n <= most { Some(n) } else { None }
}

// The number that the digits write in the base, up to the greatest.
#[tactic(auto, unfolding(crate::specs::Words::written))]
fn number_in(base: u64, most: u64, digits: &[u8]) -> Option<u64>
    requires { 0 < base }
    ensures exact { result ≡ written base most digits.now }
    ensures fits { IfSome result (λ n. n ≤ most) }
{
    let mut n: u64 = 0;
    for byte in digits {
        match with_digit(base, most, n, *byte) {
            Some(more) => n = more,
            None => return None,
        }
    }
    Some(n)
}

fn is_plain(word: &[u8]) -> bool
    ensures { result ≡ has_no_leading_zero word.now }
{
    match word {
        [] => false,
        [first, rest @ ..] => *first != b'0' || rest.is_empty(),
    }
}

// The number that the word writes without a leading 0, up to the greatest.
#[tactic(auto, unfolding(crate::specs::Words::decimal))]
fn parse_decimal(most: u64, word: &[u8]) -> Option<u64>
    ensures exact { result ≡ decimal most word.now }
    ensures fits { IfSome result (λ n. n ≤ most) }
{
    if is_plain(word) {
        number_in(10, most, word)
    } else {
        None
    }
}

/// The number up to 4,294,967,295 that the word is: 0, or digits of which the first isn't 0.
pub fn parse_num(word: &[u8]) -> Option<u32>
    ensures { result ≡ num_of word.now }
{
    match parse_decimal(0xffff_ffff, word) {
        Some(n) => Some(n as u32),
        None => None,
    }
}

/// Such a number from `low` to `high`.
pub fn parse_num_between(word: &[u8], low: u32, high: u32) -> Option<u32>
    ensures exact { result ≡ num_between_of low high word.now }
    ensures between { IfSome result (λ n. (low ≤ n) × (n ≤ high)) }
{
    match parse_num(word) {
        Some(n) if low <= n && n <= high => Some(n),
        _ => None,
    }
}

/// The integer from -2^63 to 2^64 - 1 that the word is: 0, or digits of which the first isn't 0, with or
/// without a minus before them.
#[tactic(auto, unfolding(crate::specs::Words::number_of))]
pub fn parse_number(word: &[u8]) -> Option<i128>
    ensures { result ≡ number_of word.now }
{
    match word {
        [] => None,
        [b'-', digits @ ..] => match parse_decimal(0x8000_0000_0000_0000, digits) {
            Some(n) if n != 0 => Some(-(n as i128)),
            _ => None,
        },
        _ => match parse_decimal(u64::MAX, word) {
            Some(n) => Some(n as i128),
            None => None,
        },
    }
}

fn bits_in(digits: &[u8]) -> Option<Bits>
    ensures { result ≡ bits_from digits.now }
{
    match digits.len() {
        8 => match number_in(16, 0xffff_ffff, digits) {
            Some(n) => Some(Bits::Four(n as u32)),
            None => None,
        },
        16 => match number_in(16, u64::MAX, digits) {
            Some(n) => Some(Bits::Eight(n)),
            None => None,
        },
        _ => None,
    }
}

/// The bit pattern that the word is: `0x` and 8 or 16 digits 0 to 9 and a to f.
#[tactic(auto, unfolding(crate::specs::Words::bits_of))]
pub fn parse_bits(word: &[u8]) -> Option<Bits>
    ensures { result ≡ bits_of word.now }
{
    match word {
        [b'0', b'x', digits @ ..] => bits_in(digits),
        _ => None,
    }
}
