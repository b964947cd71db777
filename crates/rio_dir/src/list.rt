//! The key list of a file.
ghost use Rattle.std.specs.Prelude.{◌≡◌, ◌+◌, ◌<◌, ◌^◌, ◌++◌, ℕ, List, Ok, length, IfOk};
ghost use Rattle.rio_num.specs.Answers.{GivesUnless, TellsUnless};
ghost use Rattle.rio_num.specs.Plain.{IsSpelledIn};
ghost use Rattle.rio_key.specs.{KeyList.{BreaksKeyList, SpellsKeyList, key_list_at}, declared.fault.KeyFault.TheVariants.{NoMemory as OutOfMemory}};
ghost use Rattle.rio_dir.specs.KeyList.{heads_in};

use rio_key::{Heads, KeyFault, read_heads};
use std::alloc::Global;

/// The key heads of a key list: its data are their count and so many heads, each ending with its
/// title; bytes behind them have no meaning. `base` is the place of the first byte. The fault is the
/// first one: Short at `base` where the count isn't whole, and else that of the first head that isn't
/// readable.
pub fn read_key_list(alloc: Global, bytes: &[u8], base: u64) -> Result<Heads, KeyFault>
    requires { base + length bytes.now < 2 ^ 64 }
    ensures exact { GivesUnless OutOfMemory (λ heads. heads) result
        (heads_in (key_list_at (record { place = base; rest = bytes.now }))) }
    // What is read is spelled so by a front of the bytes, and what is spelled so is read.
    ensures found { IfOk result (λ heads. IsSpelledIn (SpellsKeyList heads) bytes.now) }
    ensures only { (heads : List _) (front rest : List ℕ) → bytes.now ≡ front ++ rest
        → SpellsKeyList heads front → GivesUnless OutOfMemory (λ x. x) result (Ok heads) }
    // A fault is the first one: what stands before it is right, and there the list breaks.
    ensures broken { TellsUnless OutOfMemory (λ fault. (e : _) × (e.fault ≡ fault)
        × BreaksKeyList (record { place = base; rest = bytes.now }) e) result }
{
    match read_heads(alloc, bytes, base) {
        Ok(heads) => Ok(heads),
        Err(fault) => Err(fault.fault),
    }
}
