//! What `ls` says of a file.
ghost use Rattle.std.specs.Prelude.{◌≡◌, ◌++◌, IfOk, OnOk};
ghost use Rattle.rio_close.specs.Causes.{IsSayCause, IsTested};
ghost use Rattle.rio_dir.specs.Listing.{key_line, key_lines, listed_file, mark_of};
ghost use Rattle.rio_report.specs.Lists.{AtOnce, IsDone, Lists, Refuses, SaysFront, StaysSilent};

use rio_close::{ReportFault, open_closed};
use rio_host::Host;
use rio_key::KeyHead;
use rio_num::{Boxed, Bytes, NoMemory};
use rio_reply::put_item;
use std::alloc::Global;

// Puts what stands behind a compressed key at the end.
fn put_mark(text: &mut Bytes, key: &KeyHead) -> Result<(), NoMemory>
    ensures { OnOk result (text.new.bytes ≡ text.old.bytes ++ mark_of key.now) }
{
    if key.is_compressed() {
        text.put(b" compressed")?;
    }
    Ok(())
}

// Puts a key's line at the end.
fn put_line(text: &mut Bytes, key: &KeyHead) -> Result<(), NoMemory>
    ensures { OnOk result (text.new.bytes ≡ text.old.bytes ++ key_line key.now) }
{
    put_item(text, key.name.as_slice(), key.cycle)?;
    text.put(b" ")?;
    text.put_name(key.class.as_slice())?;
    put_mark(text, key)?;
    text.put(b"\n")
}

/// A line for each key of a key table, in order.
#[tactic(auto, unfolding(rio_dir::specs::Listing::key_lines))]
pub fn key_listing(alloc: Global, keys: &[Boxed<KeyHead>]) -> Result<Bytes, NoMemory>
    ensures { IfOk result (λ text. text.bytes ≡ key_lines keys.now) }
{
    let mut text = Bytes::new(alloc);
    for key in keys {
        put_line(&mut text, key.get())?;
    }
    Ok(text)
}

// A line for each key of a file's key list, in order.
#[tactic(auto, unfolding(rio_dir::specs::Listing::key_lines))]
fn file_listing(alloc: Global, keys: &[KeyHead]) -> Result<Bytes, NoMemory>
    ensures { IfOk result (λ text. text.bytes ≡ key_lines keys.now) }
{
    let mut text = Bytes::new(alloc);
    for key in keys {
        put_line(&mut text, key)?;
    }
    Ok(text)
}

// What `say_ls` does, with the clauses of its record apart, for the prover.
fn say_listing<H: Host>(alloc: Global, host: &mut H) -> Result<(), ReportFault>
    ensures done { IsDone listed_file (H.view host.old) (H.view host.new) result }
    ensures refused { Refuses listed_file (H.view host.old) result }
    ensures calls { SaysFront AtOnce listed_file (H.view host.old) (H.view host.new) }
    ensures silent { StaysSilent AtOnce (H.view host.old) (H.view host.new) result }
    ensures cause { IsSayCause (H.view host.old) (H.view host.new) result }
{
    let closed = open_closed(alloc, host)?;
    let text = file_listing(alloc, closed.keys.as_slice())?;
    match host.say(text.as_slice()) {
        Ok(()) => Ok(()),
        Err(_) => Err(ReportFault::SayFault),
    }
}

/// Says a line for each key of the file's key list, in its order: `NAME;CYCLE CLASS`, and
/// ` compressed` behind it where the key's data are. Reads the header, the directory record and the
/// key list, and nothing else of the file. BadFile is the first rule that these break. The lines are
/// said at once, after the last test; only a fault of the host can leave a front of them said.
pub fn say_ls<H: Host>(alloc: Global, host: &mut H) -> Result<(), ReportFault>
    ensures { Lists AtOnce IsTested listed_file (H.view host.old) (H.view host.new) result }
{
    say_listing(alloc, host)
}
