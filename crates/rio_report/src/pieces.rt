//! Lines that are gathered, and said some 64 KiB at a time.
ghost use Rattle.std.specs.Prelude.{◌≡◌, ◌++◌, ℕ, List, [], Err, IsErr, OnOk};
ghost use Rattle.std.specs.List.{flat_map};
ghost use Rattle.rio_host.specs.Host.{IsLength, Rose};
ghost use Rattle.rio_report.specs.Dump.{class_line, stored_line};
ghost use Rattle.rio_machine.specs.RefusalText.{refusal_text};
ghost use Rattle.rio_close.specs.Causes.{NoDiskFault, NoKind};
ghost use Rattle.rio_report.specs.Gathered.{CutShort, Gathers, SaysByLine};
ghost use Rattle.rio_report.specs.PiecesCause.{IsPiecesCauseOf};

use crate::content::put_stored_line;
use rio_close::ReportFault;
use rio_decl::print_class;
use rio_format::{ClassDef, Classes};
use rio_host::Host;
use rio_key::KeyHead;
use rio_machine::{Refusal, print_refusal};
use rio_num::{Bytes, NoMemory};
use std::alloc::Global;

// So many bytes are said as soon as they are gathered.
const LONG: usize = 65_536;

/// Says this text.
pub(crate) fn say_piece<H: Host>(host: &mut H, text: &[u8]) -> Result<(), ReportFault>
    ensures says { SaysByLine (λ file. text.now) (H.view host.old) (H.view host.new) result }
    ensures unsaid { IsErr result
        → Rose (H.view host.old).say_faults (H.view host.new).say_faults }
    ensures calm { NoDiskFault (H.view host.old) (H.view host.new) }
    ensures cause { IsPiecesCauseOf NoKind (H.view host.old) (H.view host.new) result }
{
    match host.say(text) {
        Ok(()) => Ok(()),
        Err(_) => Err(ReportFault::SayFault),
    }
}

/// Says all that is held.
pub(crate) fn say_held<H: Host>(host: &mut H, held: &Bytes) -> Result<(), ReportFault>
    ensures says { SaysByLine (λ file. held.now.bytes) (H.view host.old) (H.view host.new) result }
    ensures unsaid { IsErr result
        → Rose (H.view host.old).say_faults (H.view host.new).say_faults }
    ensures calm { NoDiskFault (H.view host.old) (H.view host.new) }
    ensures cause { IsPiecesCauseOf NoKind (H.view host.old) (H.view host.new) result }
{
    say_piece(host, held.as_slice())
}

/// Says what is held where it has become long, and then holds nothing.
pub(crate) fn say_long<H: Host>(
    alloc: Global,
    host: &mut H,
    held: &mut Bytes,
) -> Result<(), ReportFault>
    ensures says { Gathers [] (λ file. held.old.bytes) held.new.bytes
        (H.view host.old) (H.view host.new) result }
    ensures unsaid { IsErr result
        → Rose (H.view host.old).say_faults (H.view host.new).say_faults }
    ensures calm { NoDiskFault (H.view host.old) (H.view host.new) }
    ensures cause { IsPiecesCauseOf NoKind (H.view host.old) (H.view host.new) result }
{
    if held.len() >= LONG {
        say_held(host, held)?;
        *held = Bytes::new(alloc);
    }
    Ok(())
}

/// Says the lines that are held before this fault ends the listing. It is the answer also where saying them fails.
pub(crate) fn say_before<H: Host>(
    host: &mut H,
    held: &Bytes,
    fault: ReportFault,
) -> Result<(), ReportFault>
    ensures fault { result ≡ Err fault }
    ensures says { (text_of : List ℕ → List ℕ)
        → CutShort held.now.bytes text_of (H.view host.old) (H.view host.new) }
    ensures calm { NoDiskFault (H.view host.old) (H.view host.new) }
{
    match say_held(host, held) {
        Ok(()) => Err(fault),
        Err(_) => Err(fault),
    }
}

/// Holds a line behind the others, and says what is held where it has become long. Without memory for the line those before it
/// are said.
pub(crate) fn hold_line<H: Host>(
    alloc: Global,
    host: &mut H,
    line: &Bytes,
    held: &mut Bytes,
) -> Result<(), ReportFault>
    ensures says { Gathers held.old.bytes (λ file. line.now.bytes) held.new.bytes
        (H.view host.old) (H.view host.new) result }
    ensures cause { IsPiecesCauseOf NoKind (H.view host.old) (H.view host.new) result }
{
    match held.put(line.as_slice()) {
        Ok(()) => say_long(alloc, host, held),
        Err(NoMemory) => say_before(host, held, ReportFault::NoMemory),
    }
}

fn put_class(text: &mut Bytes, class: &ClassDef) -> Result<(), NoMemory>
    ensures { OnOk result (text.new.bytes ≡ text.old.bytes ++ class_line class.now) }
{
    print_class(class, text)?;
    text.put(b"\n")
}

fn gather_class<H: Host>(
    alloc: Global,
    host: &mut H,
    class: &ClassDef,
    held: &mut Bytes,
) -> Result<(), ReportFault>
    ensures says { Gathers held.old.bytes (λ file. class_line class.now) held.new.bytes
        (H.view host.old) (H.view host.new) result }
    ensures cause { IsPiecesCauseOf NoKind (H.view host.old) (H.view host.new) result }
{
    let mut line = Bytes::new(alloc);
    match put_class(&mut line, class) {
        Ok(()) => hold_line(alloc, host, &line, held),
        Err(NoMemory) => say_before(host, held, ReportFault::NoMemory),
    }
}

/// Gathers a line for each class.
pub(crate) fn gather_classes<H: Host>(
    alloc: Global,
    host: &mut H,
    classes: &[ClassDef],
    held: &mut Bytes,
) -> Result<(), ReportFault>
    ensures says { Gathers held.old.bytes (λ file. flat_map class_line classes.now)
        held.new.bytes (H.view host.old) (H.view host.new) result }
    ensures cause { IsPiecesCauseOf NoKind (H.view host.old) (H.view host.new) result }
{
    for class in classes {
        gather_class(alloc, host, class, held)?;
    }
    Ok(())
}

fn gather_key<H: Host>(
    alloc: Global,
    host: &mut H,
    file_length: u64,
    classes: &Classes,
    key: &KeyHead,
    held: &mut Bytes,
) -> Result<(), ReportFault>
    requires { IsLength (H.view host.old) file_length }
    ensures says { Gathers held.old.bytes (λ file. stored_line file classes.now key.now)
        held.new.bytes (H.view host.old) (H.view host.new) result }
    ensures cause { IsPiecesCauseOf NoKind (H.view host.old) (H.view host.new) result }
{
    let mut line = Bytes::new(alloc);
    match put_stored_line(alloc, host, file_length, classes, key, &mut line) {
        Ok(()) => hold_line(alloc, host, &line, held),
        Err(fault) => say_before(host, held, fault),
    }
}

/// Gathers the line of each key, one after the other: only one record is held at a time.
pub(crate) fn gather_keys<H: Host>(
    alloc: Global,
    host: &mut H,
    file_length: u64,
    classes: &Classes,
    keys: &[KeyHead],
    held: &mut Bytes,
) -> Result<(), ReportFault>
    requires { IsLength (H.view host.old) file_length }
    ensures says { Gathers held.old.bytes
        (λ file. flat_map (stored_line file classes.now) keys.now) held.new.bytes
        (H.view host.old) (H.view host.new) result }
    ensures cause { IsPiecesCauseOf NoKind (H.view host.old) (H.view host.new) result }
{
    for key in keys {
        gather_key(alloc, host, file_length, classes, key, held)?;
    }
    Ok(())
}

/// Says the line of one key.
pub(crate) fn say_key<H: Host>(
    alloc: Global,
    host: &mut H,
    file_length: u64,
    classes: &Classes,
    key: &KeyHead,
) -> Result<(), ReportFault>
    requires { IsLength (H.view host.old) file_length }
    ensures says { SaysByLine (λ file. stored_line file classes.now key.now)
        (H.view host.old) (H.view host.new) result }
    ensures cause { IsPiecesCauseOf NoKind (H.view host.old) (H.view host.new) result }
{
    let mut line = Bytes::new(alloc);
    put_stored_line(alloc, host, file_length, classes, key, &mut line)?;
    say_held(host, &line)
}

/// Says why there is no such key.
pub(crate) fn say_refusal<H: Host>(
    alloc: Global,
    host: &mut H,
    refusal: &Refusal,
) -> Result<(), ReportFault>
    ensures says { SaysByLine (λ file. refusal_text refusal.now)
        (H.view host.old) (H.view host.new) result }
    ensures cause { IsPiecesCauseOf NoKind (H.view host.old) (H.view host.new) result }
{
    let mut text = Bytes::new(alloc);
    print_refusal(refusal, &mut text)?;
    say_held(host, &text)
}
