//! The gate: a file is made by the word at its beginning.
ghost use Rattle.std.specs.Prelude.{◌≡◌, ◌<◌, ◌^◌, ◌+◌, ◌++◌, ℕ, List, Some, codes, length, true, OnOk};
ghost use Rattle.rio_host.specs.Host.{Elapses, IsDiskCause, IsQuiet, OnlyWrites};
ghost use Rattle.rio_host.specs.Image.{Has};
ghost use Rattle.rio_dir.specs.Unborn.{is_unborn};
ghost use Rattle.rio_create.specs.Creation.{IsMadeOrNot};

use rio_chain::{put_behind, put_word};
use rio_host::{Failed, Host};

// The word `root`.
const ROOT: u32 = 0x726F_6F74;

// Makes a file: a zero word at its beginning, these bytes behind it, and then, with them on the
// disk, the word `root` in place of the zero.
pub(crate) fn put_file<H: Host>(host: &mut H, tail: &[u8]) -> Result<(), Failed>
    requires quiet { IsQuiet (H.view host.old) }
    requires fits { length tail.now < 2 ^ 32 }
    ensures any_moment { (file : List ℕ) → (H.view host.old).holds ≡ Some file
        → is_unborn file ≡ true → Elapses (H.view host.old) (H.view host.new)
        (IsMadeOrNot (H.view host.old) (codes "root" ++ tail.now)) }
    ensures made { OnOk result ((file : List ℕ) → (H.view host.old).holds ≡ Some file
        → (new : List ℕ) × ((H.view host.new).holds ≡ Some new)
        × Has new 0 (codes "root" ++ tail.now)) }
    ensures quiet { OnOk result (IsQuiet (H.view host.new)) }
    ensures writes { OnlyWrites (H.view host.old) (H.view host.new) }
    ensures cause { IsDiskCause (H.view host.old) (H.view host.new) result }
{
    put_word(host, 0, 0)?;
    put_behind(host, 0, tail, ROOT)
}
