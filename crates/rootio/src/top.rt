//! The top call.
ghost use Rattle.std.specs.Prelude.{◌≡◌, ◌≤◌, Some, None, false, length};
ghost use Rattle.rio_cmd.specs.ImportWords.{IsImport};
ghost use Rattle.rootio.specs.Causes.{IsCause};
ghost use Rattle.rootio.specs.Complete.{IsComplete};
ghost use Rattle.rootio.specs.InARow.{LeavesCalls};
ghost use Rattle.rootio.specs.Input.{EndsWithInput, RefusesTooLong, TellsTooLong, status_of_input};
ghost use Rattle.rootio.specs.Reading.{EndsListing, RefusesBroken, TellsFirstFault};
ghost use Rattle.rootio.specs.Reading.{TellsUsage, reading_of, reads_input, rules_of, takes_input, work_of_form};
ghost use Rattle.rootio.specs.Script.{WorksOn};
ghost use Rattle.rootio.specs.Status.{status_of};
ghost use Rattle.rootio.specs.Words.{IsAsked, form_of_words};
ghost use Rattle.rootio.specs.Writing.{EndsWriting, RefusesReadOnly, TellsFirstReason, target_of};

use crate::class_word::ClassWord;
use crate::generate::generate_file;
use crate::import::run_import;
use crate::input::{InputError, read_input};
use crate::item_word::ItemWord;
use crate::recovery::recover_file;
use crate::script::run_script;
use crate::status::Status;
use crate::target::Target;
use crate::tree_word::TreeWord;
use crate::words::{Form, Listing, Work, read_form};
use rio_cmd::ImportWords;
use rio_host::{Host, Source};
use rio_num::{NoMemory, Words};
use rio_report::{ReportFault, say_dump, say_ls, say_scan};
use std::alloc::Global;

/// Does what the words ask for, over a file with its text output, and an input. The words are those
/// behind the program's name.
///
/// | words | what is done |
/// |---|---|
/// | `ls FILE` | a line for each key of the file's key list is said |
/// | `dump FILE` | a line for each class that the file describes is said, and one with the value of each key |
/// | `dump FILE NAME;CYCLE` | the line of that key is said; without `;CYCLE` that of the greatest cycle |
/// | `scan FILE TREE` | a line for each branch of the tree that can't be read is said, and one with the values of each entry |
/// | `scan FILE TREE CLASS#VERSION` | the same, with each object of the class as it is in that version |
/// | `export FILE TREE` | the same as CSV: a line of fields for each entry |
/// | `run FILE [DATIME]` | the commands of the script, which is the input, are done on the file, and it is closed |
/// | `recover FILE [DATIME]` | the file is opened and closed, and a line for each of its keys is said |
/// | `import FILE TREE EVERY SPEC...` | a tree is made with a branch for each SPEC, each row of CSV, which is the input, is filled in, the tree is saved after each EVERY rows, where that isn't 0, and the file is closed |
/// | `gen FILE N` | a new file is made with a tree of N entries in 20 branches and closed, and a line of what it holds is said |
///
/// The order is words, input, file, then command by command, and the close. Whatever ends a run ends it where it comes.
/// The words of an import take memory, so a run may end with them for want of it.
pub fn run<H: Host, S: Source>(alloc: Global, words: &Words, host: &mut H, input: &mut S) -> Status
    ensures usage { result ≡ Status.Usage → form_of_words words.now ≡ None }
    ensures formless { form_of_words words.now ≡ None → TellsUsage words.now result }
    ensures usage_alone { form_of_words words.now ≡ None → host.new ≡ host.old }
    ensures input { reads_input (form_of_words words.now) ≡ false → input.new ≡ input.old }
    // An input that is told to be too long is so, and one that is too long is told; then the file isn't looked at.
    ensures too_long { TellsTooLong (S.view input.old) result }
    ensures limited { RefusesTooLong (form_of_words words.now) (S.view input.old) result }
    ensures input_alone { EndsWithInput result → host.new ≡ host.old }
    // A fault that is told is the file's first, and a file with one is told so.
    ensures bad_file { (form : _) → form_of_words words.now ≡ Some form
        → TellsFirstFault (rules_of form) (H.view host.old) result }
    ensures refused { (form : _) → form_of_words words.now ≡ Some form
        → RefusesBroken (rules_of form) (H.view host.old) result }
    // A reason against writing that is told is the file's first, and a file with one is told so.
    ensures read_only { (form : _) → form_of_words words.now ≡ Some form
        → TellsFirstReason form (H.view host.old) result }
    ensures kept { (form : _) → form_of_words words.now ≡ Some form
        → RefusesReadOnly form (H.view host.old) result }
    // What a verb answers, says and leaves that reads.
    ensures lists { (list : _) → reading_of (form_of_words words.now) ≡ Some list
        → EndsListing list (H.view host.old) (H.view host.new) result }
    // And one that writes: the headline.
    ensures writes { (work : _) → work_of_form (form_of_words words.now) ≡ Some work
        → EndsWriting work (H.view host.old) (H.view host.new)
        (S.view input.old) (S.view input.new) result }
    // What a crash at any moment leaves is the image of a call, in a row of calls on one file.
    ensures row { (work : _) → work_of_form (form_of_words words.now) ≡ Some work
        → LeavesCalls work (H.view host.old) (H.view host.new) (S.view input.old) }
    ensures cause { IsCause (form_of_words words.now) (H.view host.old) (H.view host.new)
        (S.view input.old) (S.view input.new) result }
    // Where nothing fails all is done, unless memory runs out.
    ensures complete { (form : _) → form_of_words words.now ≡ Some form
        → IsComplete form (H.view host.old) (H.view host.new)
        (S.view input.old) (S.view input.new) result }
{
    match read_form(alloc, words) {
        Ok(None) => Status::Usage,
        Ok(Some(Form::Reads(list))) => say_file(alloc, host, &list),
        Ok(Some(Form::Writes(work))) => write_file(alloc, host, input, &work),
        Err(NoMemory) => Status::NoMemory,
    }
}

// How a run ends that tells a listing.
fn status_of(told: Result<(), ReportFault>) -> Status
    ensures { result ≡ status_of told }
{
    match told {
        Ok(()) => Status::Done,
        Err(ReportFault::BadFile { place, kind }) => Status::BadFile { place, kind },
        Err(ReportFault::NoMemory) => Status::NoMemory,
        Err(ReportFault::HostFault) => Status::DiskFault,
        Err(ReportFault::SayFault) => Status::SayFault,
    }
}

// What a verb answers that reads.
fn say_file<H: Host>(alloc: Global, host: &mut H, list: &Listing) -> Status
    ensures { EndsListing list.now (H.view host.old) (H.view host.new) result }
{
    match list {
        Listing::Ls => ls(alloc, host),
        Listing::Dump { item: None } => dump(alloc, host),
        Listing::Dump { item: Some(item) } => dump_item(alloc, host, item),
        Listing::Scan { tree, class: None } => scan(alloc, host, tree),
        Listing::Scan {
            tree,
            class: Some(class),
        } => scan_in_version(alloc, host, tree, class),
        Listing::Export { tree } => export(alloc, host, tree),
    }
}

fn ls<H: Host>(alloc: Global, host: &mut H) -> Status
    ensures { EndsListing Listing.Ls (H.view host.old) (H.view host.new) result }
{
    status_of(say_ls(alloc, host))
}

fn dump<H: Host>(alloc: Global, host: &mut H) -> Status
    ensures { EndsListing (Listing.Dump None) (H.view host.old) (H.view host.new) result }
{
    status_of(say_dump(alloc, host, None))
}

fn dump_item<H: Host>(alloc: Global, host: &mut H, word: &ItemWord) -> Status
    ensures { EndsListing (Listing.Dump (Some word.now))
        (H.view host.old) (H.view host.new) result }
{
    match word.to_item(alloc) {
        Ok(item) => status_of(say_dump(alloc, host, Some(&item))),
        Err(NoMemory) => Status::NoMemory,
    }
}

fn scan<H: Host>(alloc: Global, host: &mut H, tree: &TreeWord) -> Status
    ensures { EndsListing (Listing.Scan tree.now None) (H.view host.old) (H.view host.new) result }
{
    status_of(say_scan(alloc, host, tree.name, None, false))
}

fn scan_in_version<H: Host>(
    alloc: Global,
    host: &mut H,
    tree: &TreeWord,
    class: &ClassWord,
) -> Status
    ensures { EndsListing (Listing.Scan tree.now (Some class.now))
        (H.view host.old) (H.view host.new) result }
{
    match class.to_base(alloc) {
        Ok(class) => status_of(say_scan(alloc, host, tree.name, Some(&class), false)),
        Err(NoMemory) => Status::NoMemory,
    }
}

fn export<H: Host>(alloc: Global, host: &mut H, tree: &TreeWord) -> Status
    ensures { EndsListing (Listing.Export tree.now) (H.view host.old) (H.view host.new) result }
{
    status_of(say_scan(alloc, host, tree.name, None, true))
}

// How a run ends whose input could not be read whole.
fn status_of_input(error: InputError) -> Status
    ensures { result ≡ status_of_input error }
{
    match error {
        InputError::Fault => Status::InputFault,
        InputError::NoMemory => Status::NoMemory,
        InputError::TooLong => Status::InputTooLong,
    }
}

// A script is read and done.
fn do_script<H: Host, S: Source>(
    alloc: Global,
    host: &mut H,
    input: &mut S,
    target: &Target,
) -> Status
    requires { length target.now.name ≤ 200 }
    ensures work { WorksOn (Work.Run target.now) (H.view host.old) (H.view host.new)
        (S.view input.old) (S.view input.new) result }
    ensures input_alone { EndsWithInput result → host.new ≡ host.old }
{
    match read_input(alloc, input) {
        Ok(script) => run_script(alloc, host, target, script.as_slice()),
        Err(error) => status_of_input(error),
    }
}

// The rows of an import are read and filled in.
fn do_import<H: Host, S: Source>(
    alloc: Global,
    host: &mut H,
    input: &mut S,
    target: &Target,
    words: &ImportWords,
) -> Status
    requires name { length target.now.name ≤ 200 }
    requires stated { IsImport words.now }
    ensures work { WorksOn (Work.Import target.now words.now) (H.view host.old) (H.view host.new)
        (S.view input.old) (S.view input.new) result }
    ensures input_alone { EndsWithInput result → host.new ≡ host.old }
{
    match read_input(alloc, input) {
        Ok(rows) => run_import(alloc, host, target, words, rows.as_slice()),
        Err(error) => status_of_input(error),
    }
}

// What a verb answers that writes.
fn write_file<H: Host, S: Source>(alloc: Global, host: &mut H, input: &mut S, work: &Work) -> Status
    requires name { length (target_of work.now).name ≤ 200 }
    requires asked { IsAsked work.now }
    ensures work { WorksOn work.now (H.view host.old) (H.view host.new)
        (S.view input.old) (S.view input.new) result }
    ensures input { takes_input work.now ≡ false → input.new ≡ input.old }
    ensures input_alone { EndsWithInput result → host.new ≡ host.old }
{
    match work {
        Work::Run { target } => do_script(alloc, host, input, target),
        Work::Recover { target } => recover_file(alloc, host, target),
        Work::Import { target, words } => do_import(alloc, host, input, target, words),
        Work::Generate { target, entries } => generate_file(alloc, host, target, *entries),
    }
}
