//! The checksum of a class.
ghost use Rattle.std.specs.Prelude.{◌≡◌, IfOk};
ghost use Rattle.std.specs.List.{fold};
ghost use Rattle.rio_model.specs.ClassGrammar.{checksum_of, summed};

use crate::print_class;
use rio_format::ClassDef;
use rio_num::{Bytes, NoMemory};
use std::alloc::Global;

// The checksum with one more byte of the text.
fn summed_with(sum: u32, byte: u8) -> u32
    ensures { result ≡ summed sum byte }
{
    ((3 * u64::from(sum) + u64::from(byte)) % 0x1_0000_0000) as u32
}

fn sum_of(text: &[u8]) -> u32
    ensures { result ≡ fold summed 0 text.now }
{
    let mut sum: u32 = 0;
    for byte in text {
        sum = summed_with(sum, *byte);
    }
    sum
}

/// The checksum of a class: 0 at first, and for each byte of its declaration as it is printed three times
/// what it was and the byte, modulo 2^32.
#[tactic(auto, unfolding(rio_model::specs::ClassGrammar::checksum_of))]
pub fn checksum(alloc: Global, class: &ClassDef) -> Result<u32, NoMemory>
    ensures { IfOk result (λ sum. sum ≡ checksum_of class.now) }
{
    let mut text = Bytes::new(alloc);
    print_class(class, &mut text)?;
    Ok(sum_of(text.as_slice()))
}
