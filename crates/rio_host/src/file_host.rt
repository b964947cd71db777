//! The host of a real file and of the standard output.
ghost use Rattle.std.specs.Prelude.{◌≡◌, ◌<◌, ◌+◌, ◌%◌, ◌^◌, ℕ, List, Some, length, IfOk, OnOk, IsOk, IsErr, IsTrue};
ghost use Rattle.byteorder.specs.Endian.{big_bytes};
ghost use Rattle.rio_host.specs.Host.{OnDisk, Becomes, Rose, IsWithin, IsLength, IsQuiet};
ghost use Rattle.rio_host.specs.Image.{Has, Torn, Put, PutOrNot, Same};
ghost use Rattle.rio_host.specs.FileHost.{view_of, in_use_of};
ghost use Rattle.rio_host.specs.Silent.{silent_view, silent_lawful};

use crate::count::{or_fault, raised};
use crate::late_file::LateFile;
use crate::{Failed, Host};
use rio_num::Name;
use std::fs::File;
use std::rt::Files;

/// A real file and the standard output. It tells nothing of what they hold.
///
/// The file is opened at the first call on it. A call on the file fails where the system fails it,
/// at a read past the end, where the path is no UTF-8, where it leads to what is neither a file nor
/// a device (a pipe, a folder), and after a sync that failed: what had still to reach the disk may
/// be lost then, and a later sync needn't tell. `say` goes on, since the standard output is another
/// thing than the disk.
///
/// A host that `writes` locks the file as soon as it is open, also one that it has made, until the
/// host is let go. Where another open of the file has the lock, of this process or another one, the
/// call fails, as `is_in_use` then says, and nothing is written. The lock is advisory: it keeps out
/// those that ask for it. A host that only reads takes none, and fails for none. Where the system
/// has no locks, the host goes without.
///
/// The first sync of a host that `writes` syncs the folder too that the file stands in, since the
/// file may be new there.
#[derive(Drop)]
pub struct FileHost<'a, R: Files<File = File> + Print> {
    rt: &'a R,
    file: LateFile<'a, R>,
    disk_faults: u64,
    say_faults: u64,
    reads: u64,
}

impl<'a, R: Files<File = File> + Print> FileHost<'a, R> {
    /// The file at this path, which is made where it isn't there only if it `writes`.
    pub fn new(rt: &'a R, path: Name, writes: bool) -> FileHost<'a, R> {
        FileHost {
            rt,
            file: LateFile::new(rt, path, writes),
            disk_faults: 0,
            say_faults: 0,
            reads: 0,
        }
    }

    /// Whether the last call on the file failed because another open of it has the lock.
    pub fn is_in_use(&self) -> bool
        ensures { result ≡ in_use_of self.now }
    {
        self.file.is_in_use()
    }
}

impl<'a, R: Files<File = File> + Print> Host for FileHost<'a, R> {
    ghost view = { λ h. silent_view h.disk_faults h.say_faults h.reads };

    ghost lawful = { λ h. silent_lawful h.disk_faults h.say_faults h.reads };

    fn length(&mut self) -> Result<u64, Failed>
        ensures length { IfOk result (IsLength (view_of self.old)) }
        ensures disk { OnDisk Same (view_of self.old) (view_of self.new) }
        ensures holds { (view_of self.new).holds ≡ (view_of self.old).holds }
        ensures reads { Rose (view_of self.old).reads (view_of self.new).reads }
        ensures counted { IsOk result
            → (view_of self.new).disk_faults ≡ (view_of self.old).disk_faults }
        ensures cause { IsErr result
            → Rose (view_of self.old).disk_faults (view_of self.new).disk_faults }
        ensures in_use { IsTrue (in_use_of self.new) → IsErr result }
    {
        self.reads = raised(self.reads);
        or_fault(self.file.length(), &mut self.disk_faults)
    }

    fn read(&mut self, place: u64, into: &mut [u8]) -> Result<(), Failed>
        requires { IsWithin (view_of self.old) (place + length into.old) }
        ensures bytes { OnOk result
            ((bytes : List ℕ) → (view_of self.old).holds ≡ Some bytes → Has bytes place into.new) }
        ensures disk { OnDisk Same (view_of self.old) (view_of self.new) }
        ensures holds { (view_of self.new).holds ≡ (view_of self.old).holds }
        ensures reads { Rose (view_of self.old).reads (view_of self.new).reads }
        ensures counted { IsOk result
            → (view_of self.new).disk_faults ≡ (view_of self.old).disk_faults }
        ensures cause { IsErr result
            → Rose (view_of self.old).disk_faults (view_of self.new).disk_faults }
        ensures in_use { IsTrue (in_use_of self.new) → IsErr result }
    {
        self.reads = raised(self.reads);
        or_fault(self.file.read(place, into), &mut self.disk_faults)
    }

    fn write(&mut self, place: u64, bytes: &[u8]) -> Result<(), Failed>
        requires within { IsWithin (view_of self.old) place }
        requires fits { place + length bytes.now < 2 ^ 64 }
        ensures written { OnOk result
            (Becomes (Put place bytes.now) (view_of self.old).holds (view_of self.new).holds) }
        ensures disk { OnDisk (Torn place (length bytes.now)) (view_of self.old) (view_of self.new) }
        ensures reads { (view_of self.new).reads ≡ (view_of self.old).reads }
        ensures counted { IsOk result
            → (view_of self.new).disk_faults ≡ (view_of self.old).disk_faults }
        ensures cause { IsErr result
            → Rose (view_of self.old).disk_faults (view_of self.new).disk_faults }
        ensures in_use { IsTrue (in_use_of self.new) → IsErr result }
    {
        or_fault(self.file.write(place, bytes), &mut self.disk_faults)
    }

    fn write_word(&mut self, place: u64, word: u32) -> Result<(), Failed>
        requires within { IsWithin (view_of self.old) place }
        requires aligned { place % 4 ≡ 0 }
        ensures written { OnOk result
            (Becomes (Put place (big_bytes 4 word))
            (view_of self.old).holds (view_of self.new).holds) }
        ensures disk { OnDisk (PutOrNot place (big_bytes 4 word))
            (view_of self.old) (view_of self.new) }
        ensures reads { (view_of self.new).reads ≡ (view_of self.old).reads }
        ensures counted { IsOk result
            → (view_of self.new).disk_faults ≡ (view_of self.old).disk_faults }
        ensures cause { IsErr result
            → Rose (view_of self.old).disk_faults (view_of self.new).disk_faults }
        ensures in_use { IsTrue (in_use_of self.new) → IsErr result }
    {
        let bytes = word.to_be_bytes();
        or_fault(self.file.write(place, &bytes), &mut self.disk_faults)
    }

    fn sync(&mut self) -> Result<(), Failed>
        ensures quiet { OnOk result (IsQuiet (view_of self.new)) }
        ensures disk { OnDisk Same (view_of self.old) (view_of self.new) }
        ensures holds { (view_of self.new).holds ≡ (view_of self.old).holds }
        ensures reads { (view_of self.new).reads ≡ (view_of self.old).reads }
        ensures counted { IsOk result
            → (view_of self.new).disk_faults ≡ (view_of self.old).disk_faults }
        ensures cause { IsErr result
            → Rose (view_of self.old).disk_faults (view_of self.new).disk_faults }
        ensures in_use { IsTrue (in_use_of self.new) → IsErr result }
    {
        or_fault(self.file.sync(), &mut self.disk_faults)
    }

    fn say(&mut self, bytes: &[u8]) -> Result<(), Failed> {
        or_fault(self.rt.write_all(bytes), &mut self.say_faults)
    }
}
