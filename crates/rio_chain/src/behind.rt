//! A word that makes what stands behind it count.
ghost use Rattle.std.specs.Prelude.{◌≡◌, ◌<◌, ◌^◌, ◌+◌, ◌%◌, ℕ, List, Some, length, OnOk};
ghost use Rattle.byteorder.specs.Endian.{big_bytes};
ghost use Rattle.rio_host.specs.Image.{Put};
ghost use Rattle.rio_host.specs.Host.{Elapses, IsDiskCause, IsQuiet, IsWithin, OnlyWrites};
ghost use Rattle.rio_chain.specs.Becoming.{FileBecomes};
ghost use Rattle.rio_chain.specs.Stops.{BodyThenWord, IsBodyBehind, IsWordOrNot};

use rio_host::{Failed, Host};

/// Writes bytes behind the word at `place`, and then, with them on the disk, the word. Failed comes
/// only where a call on the file failed.
pub fn put_behind<H: Host>(host: &mut H, place: u64, tail: &[u8], word: u32) -> Result<(), Failed>
    requires within { IsWithin (H.view host.old) (place + 4) }
    requires aligned { place % 4 ≡ 0 }
    requires quiet { IsQuiet (H.view host.old) }
    requires fits { place + 4 + length tail.now < 2 ^ 64 }
    ensures any_moment { (file : List ℕ) → (H.view host.old).holds ≡ Some file
        → Elapses (H.view host.old) (H.view host.new)
        (IsBodyBehind (H.view host.old) file place tail.now (big_bytes 4 word)) }
    ensures holds { OnOk result (FileBecomes (H.view host.old) (H.view host.new)
        (λ file. BodyThenWord file place tail.now (big_bytes 4 word))) }
    ensures quiet { OnOk result (IsQuiet (H.view host.new)) }
    ensures writes { OnlyWrites (H.view host.old) (H.view host.new) }
    ensures cause { IsDiskCause (H.view host.old) (H.view host.new) result }
{
    host.write(place + 4, tail)?;
    host.sync()?;
    host.write_word(place, word)?;
    host.sync()
}

/// Writes the word at `place`, with nothing behind it, and brings it to the disk. Failed comes only
/// where a call on the file failed.
pub fn put_word<H: Host>(host: &mut H, place: u64, word: u32) -> Result<(), Failed>
    requires within { IsWithin (H.view host.old) place }
    requires aligned { place % 4 ≡ 0 }
    requires quiet { IsQuiet (H.view host.old) }
    ensures any_moment { (file : List ℕ) → (H.view host.old).holds ≡ Some file
        → Elapses (H.view host.old) (H.view host.new)
        (IsWordOrNot (H.view host.old) file place (big_bytes 4 word)) }
    ensures holds { OnOk result (FileBecomes (H.view host.old) (H.view host.new)
        (Put place (big_bytes 4 word))) }
    ensures quiet { OnOk result (IsQuiet (H.view host.new)) }
    ensures writes { OnlyWrites (H.view host.old) (H.view host.new) }
    ensures cause { IsDiskCause (H.view host.old) (H.view host.new) result }
{
    host.write_word(place, word)?;
    host.sync()
}
