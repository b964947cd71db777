//! The host: one file and one text output, as all callers see them.
ghost use Rattle.std.specs.Prelude.{◌≡◌, ◌≤◌, ◌<◌, ◌^◌, ◌+◌, ◌%◌, ℕ, List, Some, length, IfOk, OnOk, IsOk, IsErr, OnErr};
ghost use Rattle.byteorder.specs.Endian.{big_bytes};
ghost use Rattle.rio_host.specs.Image.{Has, Torn, Put, PutOrNot, Same};
ghost use Rattle.rio_host.specs.Host.{View, OnDisk, Elapses, Speaking, Becomes, Rose, Longer, LongerByPart, IsWithin, IsLength, IsQuiet, IsLawful};

use thiserror::Error;

/// The answer of a device that did not do what it was asked.
#[derive(Clone, Copy, Debug, PartialEq, Eq, Error)]
#[error("a device failed")]
pub struct Failed;

/// The answer of a call on a host of which the host failed a call. A library whose call has no
/// other fault answers it.
#[derive(Clone, Copy, Debug, PartialEq, Eq, Error)]
#[error("a call of the host failed")]
pub struct HostFault;

impl From<Failed> for HostFault {
    fn from(_: Failed) -> HostFault {
        HostFault
    }
}

/// One file and one text output.
///
/// A write is in flight from its call until the next sync that succeeds, also one that failed. A
/// stop may leave any bytes in the ranges of the writes in flight, but a word whole or not at all.
pub trait Host {
    ghost view: { Self → View };

    /// The file's length in bytes.
    fn length(&mut self) -> Result<u64, Failed>
        ensures length { IfOk result (IsLength (view self.old)) }
        ensures disk { OnDisk Same (view self.old) (view self.new) }
        ensures holds { (view self.new).holds ≡ (view self.old).holds }
        ensures reads { Rose (view self.old).reads (view self.new).reads }
        ensures counted { IsOk result → (view self.new).disk_faults ≡ (view self.old).disk_faults }
        ensures cause { IsErr result
            → Rose (view self.old).disk_faults (view self.new).disk_faults };

    /// Fills `into` with the file's bytes from `place` on.
    fn read(&mut self, place: u64, into: &mut [u8]) -> Result<(), Failed>
        requires { IsWithin (view self.old) (place + length into.old) }
        ensures bytes { OnOk result
            ((bytes : List ℕ) → (view self.old).holds ≡ Some bytes → Has bytes place into.new) }
        ensures disk { OnDisk Same (view self.old) (view self.new) }
        ensures holds { (view self.new).holds ≡ (view self.old).holds }
        ensures reads { Rose (view self.old).reads (view self.new).reads }
        ensures counted { IsOk result → (view self.new).disk_faults ≡ (view self.old).disk_faults }
        ensures cause { IsErr result
            → Rose (view self.old).disk_faults (view self.new).disk_faults };

    /// Puts these bytes at `place`, which makes the file longer where they pass its end.
    fn write(&mut self, place: u64, bytes: &[u8]) -> Result<(), Failed>
        requires within { IsWithin (view self.old) place }
        requires fits { place + length bytes.now < 2 ^ 64 }
        ensures written { OnOk result
            (Becomes (Put place bytes.now) (view self.old).holds (view self.new).holds) }
        ensures disk { OnDisk (Torn place (length bytes.now)) (view self.old) (view self.new) }
        ensures reads { (view self.new).reads ≡ (view self.old).reads }
        ensures counted { IsOk result → (view self.new).disk_faults ≡ (view self.old).disk_faults }
        ensures cause { IsErr result
            → Rose (view self.old).disk_faults (view self.new).disk_faults };

    /// Puts a word at `place`, its highest byte first. A stop leaves all of it or nothing.
    fn write_word(&mut self, place: u64, word: u32) -> Result<(), Failed>
        requires within { IsWithin (view self.old) place }
        requires aligned { place % 4 ≡ 0 }
        ensures written { OnOk result
            (Becomes (Put place (big_bytes 4 word)) (view self.old).holds (view self.new).holds) }
        ensures disk { OnDisk (PutOrNot place (big_bytes 4 word)) (view self.old) (view self.new) }
        ensures reads { (view self.new).reads ≡ (view self.old).reads }
        ensures counted { IsOk result → (view self.new).disk_faults ≡ (view self.old).disk_faults }
        ensures cause { IsErr result
            → Rose (view self.old).disk_faults (view self.new).disk_faults };

    /// Brings all writes to the disk. After one that succeeds, a stop leaves what reads give.
    fn sync(&mut self) -> Result<(), Failed>
        ensures quiet { OnOk result (IsQuiet (view self.new)) }
        ensures disk { OnDisk Same (view self.old) (view self.new) }
        ensures holds { (view self.new).holds ≡ (view self.old).holds }
        ensures reads { (view self.new).reads ≡ (view self.old).reads }
        ensures counted { IsOk result → (view self.new).disk_faults ≡ (view self.old).disk_faults }
        ensures cause { IsErr result
            → Rose (view self.old).disk_faults (view self.new).disk_faults };

    /// Puts these bytes at the end of the text that was said, or a front of them where it fails.
    fn say(&mut self, bytes: &[u8]) -> Result<(), Failed>
        ensures said { OnOk result
            (Becomes (Longer bytes.now) (view self.old).said (view self.new).said) }
        ensures failed { OnErr result
            (Becomes (LongerByPart bytes.now) (view self.old).said (view self.new).said) }
        ensures time { Elapses (view self.old) (view self.new)
            (Speaking bytes.now (view self.old)) }
        ensures holds { (view self.new).holds ≡ (view self.old).holds }
        ensures reads { (view self.new).reads ≡ (view self.old).reads }
        ensures disk_faults { (view self.new).disk_faults ≡ (view self.old).disk_faults }
        ensures say_faults { (view self.old).say_faults ≤ (view self.new).say_faults }
        ensures counted { IsOk result → (view self.new).say_faults ≡ (view self.old).say_faults }
        ensures cause { IsErr result → Rose (view self.old).say_faults (view self.new).say_faults };

    ghost lawful: { (host : Self) → IsLawful (view host) };
}
