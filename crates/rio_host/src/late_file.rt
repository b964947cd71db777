//! A file of the system that is opened at its first use.
ghost use Rattle.std.specs.Prelude.{◌≡◌, ◌↔◌, IsTrue, IsErr, OnErr, Err, MatchResult, IsUtf8};

use rio_num::Name;
use std::fs::{File, FileType, OpenOptions, TryLockError};
use std::io::{ErrorKind, Read, Seek, SeekFrom, Write};
use std::os::unix::fs::FileTypeExt;
use std::path::Path;
use std::rt::Files;
use std::{fs, io};

/// A file that is opened at its first use.
///
/// One that it `writes` is locked as soon as it is open, before anything of it is read, until this
/// open ends. Where another open has the lock, the call fails, and the next call tries again. Where
/// the system has no locks, it goes without.
///
/// After a sync that failed every call fails: what the system had still to bring to the disk may be
/// lost, and a later sync needn't tell.
#[derive(Drop)]
pub struct LateFile<'a, R: Files<File = File>> {
    rt: &'a R,
    path: Name,
    writes: bool,
    file: Option<File>,
    is_in_use: bool,
    has_synced_folder: bool,
    has_failed_sync: bool,
}

// The folder that a path leads into.
fn folder_of(path: &str) -> &str {
    match Path::new(path).parent() {
        Some(folder) => {
            let folder = folder.as_os_str();
            if folder.is_empty() { "." } else { folder }
        }
        None => ".",
    }
}

fn as_text(path: &Name) -> io::Result<&str>
    ensures { MatchResult result (λ text. text.now ≡ path.now) (λ e. ¬ IsUtf8 path.now) }
{
    match str::from_utf8(path.as_slice()) {
        Ok(text) => Ok(text),
        Err(_) => Err(io::Error::from(ErrorKind::InvalidInput)),
    }
}

// A file that has places. A pipe has none, and whoever opens it waits for another program.
fn has_places(kind: FileType) -> bool {
    kind.is_file() || kind.is_block_device() || kind.is_char_device()
}

// Opens what is there. A file that is written is made where nothing is there.
fn open_file<R: Files<File = File>>(rt: &R, path: &str, writes: bool) -> io::Result<File> {
    let mut options = OpenOptions::new();
    options.read(true).write(writes);
    match fs::metadata(rt, path) {
        Ok(metadata) => {
            if !has_places(metadata.file_type()) {
                return Err(io::Error::from(ErrorKind::InvalidInput));
            }
        }
        Err(error) => {
            if !writes || error.kind() != ErrorKind::NotFound {
                return Err(error);
            }
            options.create(true);
        }
    }
    options.open(rt, path)
}

// Whether another open has the lock that was asked for.
fn is_held(answer: &Result<(), TryLockError>) -> bool
    ensures { IsTrue result ↔ answer.now ≡ Err TryLockError.WouldBlock }
{
    matches!(answer, Err(TryLockError::WouldBlock))
}

impl<'a, R: Files<File = File>> LateFile<'a, R> {
    /// The file at this path, not opened yet. Where it `writes`, it is made if it isn't there.
    pub fn new(rt: &'a R, path: Name, writes: bool) -> LateFile<'a, R> {
        LateFile {
            rt,
            path,
            writes,
            file: None,
            is_in_use: false,
            has_synced_folder: false,
            has_failed_sync: false,
        }
    }

    /// Whether the last call on the file failed because another open has the lock.
    pub fn is_in_use(&self) -> bool
        ensures { result ≡ self.now.is_in_use }
    {
        self.is_in_use
    }

    // Opens the file, and takes the lock on one that is written.
    fn take(&mut self) -> io::Result<File>
        ensures same { self.new.has_failed_sync ≡ self.old.has_failed_sync }
        ensures in_use { IsTrue self.new.is_in_use → IsErr result }
    {
        let file = open_file(self.rt, as_text(&self.path)?, self.writes)?;
        self.is_in_use = self.writes && is_held(&file.try_lock());
        if self.is_in_use {
            return Err(io::Error::from(ErrorKind::WouldBlock));
        }
        Ok(file)
    }

    fn open(&mut self) -> io::Result<()>
        ensures lost { IsTrue self.old.has_failed_sync → IsErr result }
        ensures same { self.new.has_failed_sync ≡ self.old.has_failed_sync }
        ensures in_use { IsTrue self.new.is_in_use → IsErr result }
    {
        self.is_in_use = false;
        if self.has_failed_sync {
            return Err(io::Error::from(ErrorKind::Other));
        }
        if self.file.is_none() {
            self.file = Some(self.take()?);
        }
        Ok(())
    }

    /// The file's length.
    pub fn length(&mut self) -> io::Result<u64>
        ensures lost { IsTrue self.old.has_failed_sync → IsErr result }
        ensures same { self.new.has_failed_sync ≡ self.old.has_failed_sync }
        ensures in_use { IsTrue self.new.is_in_use → IsErr result }
    {
        self.open()?;
        match &mut self.file {
            Some(file) => file.seek(SeekFrom::End(0)),
            None => Err(io::Error::from(ErrorKind::NotFound)),
        }
    }

    /// Fills `into` from `place` on. It fails where the file ends before.
    pub fn read(&mut self, place: u64, into: &mut [u8]) -> io::Result<()>
        ensures lost { IsTrue self.old.has_failed_sync → IsErr result }
        ensures same { self.new.has_failed_sync ≡ self.old.has_failed_sync }
        ensures in_use { IsTrue self.new.is_in_use → IsErr result }
    {
        self.open()?;
        match &mut self.file {
            Some(file) => {
                file.seek(SeekFrom::Start(place))?;
                file.read_exact(into)
            }
            None => Err(io::Error::from(ErrorKind::NotFound)),
        }
    }

    /// Puts these bytes at `place`.
    pub fn write(&mut self, place: u64, bytes: &[u8]) -> io::Result<()>
        ensures lost { IsTrue self.old.has_failed_sync → IsErr result }
        ensures same { self.new.has_failed_sync ≡ self.old.has_failed_sync }
        ensures in_use { IsTrue self.new.is_in_use → IsErr result }
    {
        self.open()?;
        match &mut self.file {
            Some(file) => {
                file.seek(SeekFrom::Start(place))?;
                file.write_all(bytes)
            }
            None => Err(io::Error::from(ErrorKind::NotFound)),
        }
    }

    /// Brings the file to the disk, and the first time the folder too that it stands in, where it
    /// `writes`: the file may be new there, also where another process made it.
    pub fn sync(&mut self) -> io::Result<()>
        ensures lost { IsTrue self.old.has_failed_sync → IsErr result }
        ensures failed { OnErr result (IsTrue self.new.has_failed_sync) }
        ensures in_use { IsTrue self.new.is_in_use → IsErr result }
    {
        let answer = self.bring_to_disk();
        if answer.is_err() {
            self.has_failed_sync = true;
        }
        answer
    }

    fn bring_to_disk(&mut self) -> io::Result<()>
        ensures lost { IsTrue self.old.has_failed_sync → IsErr result }
        ensures in_use { IsTrue self.new.is_in_use → IsErr result }
    {
        self.open()?;
        match &self.file {
            Some(file) => file.sync_all()?,
            None => return Err(io::Error::from(ErrorKind::NotFound)),
        }
        if self.writes && !self.has_synced_folder {
            let folder = folder_of(as_text(&self.path)?);
            let folder = OpenOptions::new().read(true).open(self.rt, folder)?;
            folder.sync_all()?;
            self.has_synced_folder = true;
        }
        Ok(())
    }
}
