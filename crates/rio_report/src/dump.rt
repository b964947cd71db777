//! What `dump` says of a file.
ghost use Rattle.std.specs.Prelude.{Some};
ghost use Rattle.std.specs.Option.{option_copied};
ghost use Rattle.rio_close.specs.Causes.{AnyKind, NoKind};
ghost use Rattle.rio_host.specs.Host.{IsLength};
ghost use Rattle.rio_report.specs.Dump.{dump_lines, dump_text, dumped_file, item_line};
ghost use Rattle.rio_report.specs.Item.{found_item};
ghost use Rattle.rio_report.specs.Gathered.{SaysByLine};
ghost use Rattle.rio_report.specs.Lists.{InPieces, IsDone, Lists, Refuses, SaysFront, SaysWholeLines, StaysSilent};
ghost use Rattle.rio_report.specs.PiecesCause.{IsPiecesCauseOf};

use crate::described::{Described, open_described};
use crate::item::{Item, found_item};
use crate::pieces::{gather_classes, gather_keys, say_held, say_key, say_refusal};
use rio_close::ReportFault;
use rio_format::Classes;
use rio_host::Host;
use rio_key::KeyHead;
use rio_num::Bytes;
use std::alloc::Global;

// Says all classes and then all keys.
#[tactic(auto, unfolding(crate::specs::Dump::dump_lines))]
fn say_all<H: Host>(
    alloc: Global,
    host: &mut H,
    file_length: u64,
    classes: &Classes,
    keys: &[KeyHead],
) -> Result<(), ReportFault>
    requires { IsLength (H.view host.old) file_length }
    ensures says { SaysByLine (λ file. dump_lines file classes.now keys.now)
        (H.view host.old) (H.view host.new) result }
    ensures cause { IsPiecesCauseOf NoKind (H.view host.old) (H.view host.new) result }
{
    let mut held = Bytes::new(alloc);
    gather_classes(alloc, host, classes.as_slice(), &mut held)?;
    gather_keys(alloc, host, file_length, classes, keys, &mut held)?;
    say_held(host, &held)
}

// Says the line of the item's key, or why there is none.
fn say_item<H: Host>(
    alloc: Global,
    host: &mut H,
    file_length: u64,
    classes: &Classes,
    keys: &[KeyHead],
    item: &Item,
) -> Result<(), ReportFault>
    requires { IsLength (H.view host.old) file_length }
    ensures says { SaysByLine (λ file. item_line file classes.now (found_item item.now keys.now))
        (H.view host.old) (H.view host.new) result }
    ensures cause { IsPiecesCauseOf NoKind (H.view host.old) (H.view host.new) result }
{
    match found_item(keys, item) {
        Ok(key) => say_key(alloc, host, file_length, classes, key),
        Err(refusal) => say_refusal(alloc, host, &refusal),
    }
}

// Says what there is to say of a file that breaks no rule.
fn say_described<H: Host>(
    alloc: Global,
    host: &mut H,
    file_length: u64,
    described: &Described,
    item: Option<&Item>,
) -> Result<(), ReportFault>
    requires { IsLength (H.view host.old) file_length }
    ensures says { SaysByLine (λ file. dump_text file (option_copied item.entry) described.now)
        (H.view host.old) (H.view host.new) result }
    ensures cause { IsPiecesCauseOf NoKind (H.view host.old) (H.view host.new) result }
{
    let keys = described.closed.keys.as_slice();
    match item {
        None => say_all(alloc, host, file_length, &described.classes, keys),
        Some(item) => say_item(alloc, host, file_length, &described.classes, keys, item),
    }
}

// What `say_dump` does, with the clauses of its record apart, for the prover.
fn say_all_or_item<H: Host>(
    alloc: Global,
    host: &mut H,
    item: Option<&Item>,
) -> Result<(), ReportFault>
    ensures done { IsDone (dumped_file (option_copied item.entry))
        (H.view host.old) (H.view host.new) result }
    ensures refused { Refuses (dumped_file (option_copied item.entry)) (H.view host.old) result }
    ensures calls { SaysFront InPieces (dumped_file (option_copied item.entry))
        (H.view host.old) (H.view host.new) }
    ensures silent { StaysSilent InPieces (H.view host.old) (H.view host.new) result }
    ensures lines { SaysWholeLines InPieces (H.view host.old) (H.view host.new) result }
    ensures cause { IsPiecesCauseOf AnyKind (H.view host.old) (H.view host.new) result }
{
    let file_length = host.length()?;
    let described = open_described(alloc, host, file_length)?;
    say_described(alloc, host, file_length, &described, item)
}

/// Says the classes that the file describes, a line for each in its order, and then a line for each key of
/// its key list: `NAME;CYCLE` and the key's value, or `compressed`, or `TTree`, or `fault`, its kind and
/// its numbers. With an item it says that key's line alone, or `no 3 NoSuchName` or `no 4 NoSuchCycle`
/// where there is none; without a cycle the item is the greatest of the name. A record is read as far as
/// the file goes, one at a time, and only where its value is said.
///
/// BadFile is the first rule that the header, the directory record, the key list or the class list breaks:
/// they are read first, and then nothing was said. The lines are gathered and said some 64 KiB at a time.
/// Where memory or a call on the file fails, the lines that are complete are said before that fault is
/// returned; only where saying them fails is the last one cut.
pub fn say_dump<H: Host>(
    alloc: Global,
    host: &mut H,
    item: Option<&Item>,
) -> Result<(), ReportFault>
    ensures { Lists InPieces AnyKind (dumped_file (option_copied item.entry))
        (H.view host.old) (H.view host.new) result }
{
    say_all_or_item(alloc, host, item)
}
