//! How a run of the program ended.
ghost use Rattle.std.specs.Prelude.{◌≡◌, ◌++◌, OnOk, OnErr, IfOk, IsOk, MatchResult, codes};
ghost use Rattle.rio_num.specs.Room.{with_more};
ghost use Rattle.std.specs.Fmt.{decimal};
ghost use Rattle.rootio.specs.Status.{in_use_line, status_code, status_or_no_memory, status_text, told_line};

use rio_head::{FileFault, Reason};
use rio_num::{Bytes, NoMemory};
use std::alloc::Global;

/// How a run of the program ended.
#[derive(Clone, Copy, Debug, PartialEq, Eq)]
pub enum Status {
    /// All was done.
    Done,
    /// The words have no form.
    Usage,
    /// The file breaks the rule of this kind at this place, in bytes from its beginning.
    BadFile { place: u64, kind: FileFault },
    /// A call on the file failed.
    DiskFault,
    /// A read of the input failed.
    InputFault,
    /// There was no memory.
    NoMemory,
    /// The input has more bytes than it may have.
    InputTooLong,
    /// Nothing is written to the file, for this reason at this place.
    ReadOnly { place: u64, reason: Reason },
    /// What was to be said could not be said.
    SayFault,
}

/// The process's exit status.
pub fn code(status: &Status) -> u8
    ensures { result ≡ status_code status.now }
{
    match status {
        Status::Done => 0,
        Status::Usage => 1,
        Status::BadFile { .. } => 2,
        Status::DiskFault => 3,
        Status::InputFault => 4,
        Status::NoMemory => 5,
        Status::InputTooLong => 6,
        Status::ReadOnly { .. } => 7,
        Status::SayFault => 8,
    }
}

// What is told of a place of the file: what is wrong, the place, and its name.
fn told_at(alloc: Global, wrong: &[u8], place: u64, name: &str) -> Result<Bytes, NoMemory>
    ensures { IfOk result (λ text. text.bytes ≡
        wrong.now ++ decimal place ++ codes ": " ++ name.now) }
{
    let mut text = Bytes::from_slice(alloc, wrong)?;
    text.put_decimal(place)?;
    text.put(b": ")?;
    text.put(name.as_bytes())?;
    Ok(text)
}

fn bad_file(alloc: Global, place: u64, kind: FileFault) -> Result<Bytes, NoMemory>
    ensures { IfOk result (λ text. text.bytes ≡ status_text (Status.BadFile place kind)) }
{
    told_at(alloc, b"rootio: bad file at ", place, kind.name())
}

fn read_only(alloc: Global, place: u64, reason: Reason) -> Result<Bytes, NoMemory>
    ensures { IfOk result (λ text. text.bytes ≡ status_text (Status.ReadOnly place reason)) }
{
    told_at(alloc, b"rootio: read only at ", place, reason.name())
}

/// Puts what is told of the status on standard error at the end, without a line feed: nothing for Done.
pub fn fault_text(alloc: Global, status: &Status, into: &mut Bytes) -> Result<(), NoMemory>
    ensures ok { OnOk result (into.new ≡ with_more into.old (status_text status.now)) }
    ensures err { OnErr result (into.new ≡ into.old) }
{
    match status {
        Status::Done => Ok(()),
        Status::Usage => into.put(b"rootio: usage: rootio VERB FILE ARG..."),
        Status::BadFile { place, kind } => {
            let text = bad_file(alloc, *place, *kind)?;
            into.put(text.as_slice())
        }
        Status::DiskFault => into.put(b"rootio: disk fault"),
        Status::InputFault => into.put(b"rootio: input fault"),
        Status::NoMemory => into.put(b"rootio: no memory"),
        Status::InputTooLong => into.put(b"rootio: input too long"),
        Status::ReadOnly { place, reason } => {
            let text = read_only(alloc, *place, *reason)?;
            into.put(text.as_slice())
        }
        Status::SayFault => into.put(b"rootio: output fault"),
    }
}

fn put_line(alloc: Global, status: &Status, line: &mut Bytes) -> Result<(), NoMemory>
    ensures { OnOk result (line.new.bytes ≡
        line.old.bytes ++ (status_text status.now ++ codes "\n")) }
{
    fault_text(alloc, status, line)?;
    line.put(b"\n")
}

/// What is told of the status on standard error: a line, and nothing for Done.
pub fn told_line(alloc: Global, status: &Status) -> Result<Bytes, NoMemory>
    ensures line { IfOk result (λ line. line.bytes ≡ told_line status.now) }
    ensures done { status.now ≡ Status.Done → IsOk result }
{
    let mut line = Bytes::new(alloc);
    match status {
        Status::Done => {}
        _ => put_line(alloc, status, &mut line)?,
    }
    Ok(line)
}

/// The line itself, and that of want of memory where there was none to make it.
pub fn shown(line: &Result<Bytes, NoMemory>) -> &[u8]
    ensures { MatchResult line.now (λ line. result.now ≡ line.bytes)
        (λ e. result.now ≡ told_line Status.NoMemory) }
{
    match line {
        Ok(line) => line.as_slice(),
        Err(NoMemory) => b"rootio: no memory\n",
    }
}

/// What is told in a line more of a file that is in use, by its name, and nothing of one that isn't.
pub fn in_use_line(alloc: Global, is_in_use: bool, file: &[u8]) -> Result<Bytes, NoMemory>
    ensures { IfOk result (λ line. line.bytes ≡ in_use_line is_in_use file.now) }
{
    if !is_in_use {
        return Ok(Bytes::new(alloc));
    }
    let mut line = Bytes::from_slice(alloc, b"rootio: ")?;
    line.put(file)?;
    line.put(b" is in use\n")?;
    Ok(line)
}

/// How a run ended, also one that found no memory before it began.
pub fn ended(run: Result<Status, NoMemory>) -> Status
    ensures { result ≡ status_or_no_memory run }
{
    match run {
        Ok(status) => status,
        Err(NoMemory) => Status::NoMemory,
    }
}
