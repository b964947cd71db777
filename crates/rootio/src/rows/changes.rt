//! Rows of `scan` of a file that changes while it is read. Each file is made by a run of a script.
ghost use Rattle.rio_host.specs.Host.{Rose};

use super::runs::{changed, host_of_copy, ran};
use crate::status::Status;
use rio_host::{Failed, Host};
use rio_num::{Bytes, NoMemory};
use std::alloc::Global;

// A file that is another one after so many calls that look at it, and a text. It tells nothing of both, and isn't written to.
#[derive(Drop)]
struct ChangingHost {
    before: Bytes,
    after: Bytes,
    calls: u64,
    said: Bytes,
    disk_faults: u64,
    say_faults: u64,
    reads: u64,
}

// One more.
fn raised(count: u64) -> u64
    ensures { Rose count result }
{
    count.saturating_add(1)
}

// Fills the buffer with the bytes from a place on, if they are there.
fn fill(image: &[u8], place: u64, into: &mut [u8]) -> bool {
    let from = usize::try_from(place).unwrap_or(usize::MAX);
    match image.get(from..from.saturating_add(into.len())) {
        Some(part) if part.len() == into.len() => {
            into.copy_from_slice(part);
            true
        }
        _ => false,
    }
}

impl Host for ChangingHost {
    ghost use Rattle.rio_host.specs.Silent.{silent_view, silent_lawful};

    ghost view = { λ h. silent_view h.disk_faults h.say_faults h.reads };

    ghost lawful = { λ h. silent_lawful h.disk_faults h.say_faults h.reads };

    fn length(&mut self) -> Result<u64, Failed> {
        self.reads = raised(self.reads);
        Ok(self.before.len() as u64)
    }

    fn read(&mut self, place: u64, into: &mut [u8]) -> Result<(), Failed> {
        let is_before = self.reads < self.calls;
        self.reads = raised(self.reads);
        let image = if is_before { &self.before } else { &self.after };
        if fill(image.as_slice(), place, into) {
            return Ok(());
        }
        self.disk_faults = raised(self.disk_faults);
        Err(Failed)
    }

    fn write(&mut self, _place: u64, _bytes: &[u8]) -> Result<(), Failed> {
        self.disk_faults = raised(self.disk_faults);
        Err(Failed)
    }

    fn write_word(&mut self, _place: u64, _word: u32) -> Result<(), Failed> {
        self.disk_faults = raised(self.disk_faults);
        Err(Failed)
    }

    fn sync(&mut self) -> Result<(), Failed> {
        self.disk_faults = raised(self.disk_faults);
        Err(Failed)
    }

    fn say(&mut self, bytes: &[u8]) -> Result<(), Failed> {
        if self.said.put(bytes).is_ok() {
            return Ok(());
        }
        self.say_faults = raised(self.say_faults);
        Err(Failed)
    }
}

// A script, the words of a scan of its file, after how many calls which words of the file are others, and what is said.
struct Row {
    script: &'static [u8],
    words: &'static [&'static str],
    calls: u64,
    changes: &'static [(usize, u32)],
    said: &'static [u8],
}

// Baskets of three, two and four entries for each of two branches. Those of `a` stand at 4812, 4256 and 4392, and the last one of `b`
// at 4468. Of a basket, fLast is at 52.
const NINE: &[u8] = b"tree T a=a/I b=b/I\nfill T [1, 11]\nfill T [2, 12]\nfill T [3, 13]\nsave T\n\
    fill T [4, 14]\nfill T [5, 15]\nsave T\nfill T [6, 16]\nfill T [7, 17]\nfill T [8, 18]\nfill T [9, 19]\n";

// An object whose `f` is a number, and another version in which it is a floating-point number. Its basket stands at 4712 with a key of
// 57 bytes, and the object's version is 4 bytes after that.
const ONE: &[u8] =
    b"class Q 1 { f: i32 }\ntree T a=class:Q\nfill T [Q{f: 9}]\nsave T\nclass Q 2 { f: f32 }\n";

// A scan looks at the file for its length, its header, its directory record, twice for each of the key list and the class list, and
// for the tree's header. Then it reads each basket twice, and with a version three times, before it says the rows.
static ROWS: [Row; 3] = [
    // The second basket of `a` can't be read any more.
    Row {
        script: NINE,
        words: &["scan", "a.root", "T"],
        calls: 20,
        changes: &[(4256 + 52, 0)],
        said: b"ok scan T 9\n0 [1, 11]\n1 [2, 12]\n2 [3, 13]\n3 fault BadLast 52\n4 fault BadLast 52\n\
            5 [6, 16]\n6 [7, 17]\n7 [8, 18]\n8 [9, 19]\n",
    },
    // Nor can the third one of `b`, which is longer by its key than by the tree's header. Each row has the fault of its own basket.
    Row {
        script: NINE,
        words: &["scan", "a.root", "T"],
        calls: 20,
        changes: &[(4256 + 52, 0), (4468, 77)],
        said: b"ok scan T 9\n0 [1, 11]\n1 [2, 12]\n2 [3, 13]\n3 fault BadLast 52\n4 fault BadLast 52\n\
            5 fault BadLast 0\n6 fault BadLast 0\n7 fault BadLast 0\n8 fault BadLast 0\n",
    },
    // The object is of version 2 now, and can't be had in version 1 any more.
    Row {
        script: ONE,
        words: &["scan", "a.root", "T", "Q#1"],
        calls: 11,
        changes: &[(4712 + 57 + 4, 0x0002_0000)],
        said: b"ok scan T 1\n0 fault KindChanged f\n",
    },
];

// The file that the script makes, and what it changes to.
fn host_of_row(alloc: Global, row: &Row) -> Result<ChangingHost, NoMemory> {
    let mut made = host_of_copy(alloc, b"", &[])?;
    ran(alloc, &["run", "a.root"], &mut made, row.script)?;
    Ok(ChangingHost {
        before: Bytes::from_slice(alloc, made.image())?,
        after: changed(alloc, made.image(), usize::MAX, row.changes)?,
        calls: row.calls,
        said: Bytes::new(alloc),
        disk_faults: 0,
        say_faults: 0,
        reads: 0,
    })
}

fn is_said(alloc: Global, row: &Row) -> Result<bool, NoMemory> {
    let mut host = host_of_row(alloc, row)?;
    Ok(ran(alloc, row.words, &mut host, b"")? == Status::Done && host.said.as_slice() == row.said)
}

#[test]
fn files_that_change(rt: HostRuntime) {
    for row in &ROWS {
        assert!(rt; is_said(rt.alloc(), row) == Ok(true));
    }
}
