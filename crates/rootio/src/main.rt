//! Reads and writes CERN's ROOT files: `rootio VERB FILE ARG...`.
//!
//! `run` does what the words ask for, over any host and input. `read_form` tells which form they have.
//! `say_file` prints a listing by the calls of `rio_report`. `run_script` opens the file as a session of
//! `rio_session`, does the commands of the script and closes it; `recover_file` opens it, closes it and
//! prints its keys. `run_import` does the commands that the rows of a CSV text are, which come one by one
//! (`do_from`), and `generate_file` those of a generated file, which it reads again. How it ended is a
//! `Status`, from which `code` and `told_line` make the exit status and the line on standard error. `main`
//! gives `run` the file and the streams of the process.
//!
//! `specs/Words.antt` has the forms, `Headline.antt` what a run leaves wherever it is cut off, `InARow.antt`
//! what several calls on one file leave, `Causes.antt` why a run ended so, `Complete.antt` that all is done
//! where nothing fails; the other files say what verbs and scripts return.
#![tactic(auto)]

mod class_word;
mod generate;
mod import;
mod input;
mod item_word;
mod laws;
mod recovery;
#[cfg(test)]
mod rows;
mod script;
mod source;
mod split;
mod status;
mod streams;
mod target;
mod top;
mod tree_word;
mod words;

use rio_host::{FileHost, StdSource};
use rio_num::{Bytes, Name, NoMemory, Words};
use split::{file_word, host_may_write, is_split};
use status::{Status, code, ended, in_use_line, shown, told_line};
use std::alloc::Global;
use std::env;
use std::io::{ErrorKind, Write};
use std::process::ExitCode;
use streams::Streams;
use top::run;

// The words behind the program's name: none where one of them is no text.
fn args_of(rt: &HostRuntime) -> Result<Vec<String>, NoMemory> {
    let mut args = Vec::new(rt.alloc());
    let all = match env::args(rt) {
        Ok(all) => all,
        Err(error) if error.kind() == ErrorKind::OutOfMemory => return Err(NoMemory),
        Err(_) => return Ok(args),
    };
    for word in all.skip(1) {
        args.push(word)?;
    }
    Ok(args)
}

fn words_of(alloc: Global, args: &[String]) -> Result<Words, NoMemory> {
    let mut words = Words::new(alloc);
    for word in args {
        words.push(Name::from_slice(alloc, word.as_bytes())?)?;
    }
    Ok(words)
}

// Does what the words ask for, over the file that they name and the process's own streams. Puts the
// line for a file in use into `note`, if there is memory for it.
fn run_words(rt: &HostRuntime, note: &mut Bytes) -> Result<Status, NoMemory> {
    let args = args_of(rt)?;
    let words = words_of(rt.alloc(), &args)?;
    let split = is_split(rt.alloc(), &args)?;
    let path = Name::from_slice(rt.alloc(), file_word(&words, split))?;
    let _streams = match Streams::hold(rt) {
        Ok(streams) => streams,
        Err(_) => return Ok(Status::DiskFault),
    };
    let mut host = FileHost::new(rt, path, host_may_write(&words, split));
    let mut input = StdSource::new(rt);
    let status = run(rt.alloc(), &words, &mut host, &mut input);
    if let Ok(line) = in_use_line(rt.alloc(), host.is_in_use(), file_word(&words, split)) {
        *note = line;
    }
    Ok(status)
}

fn main(rt: HostRuntime) -> ExitCode {
    let mut note = Bytes::new(rt.alloc());
    let status = ended(run_words(&rt, &mut note));
    // There is nothing left to do where the fault can't be told.
    let _ = rt
        .stderr()
        .write_all(shown(&told_line(rt.alloc(), &status)));
    let _ = rt.stderr().write_all(note.as_slice());
    ExitCode::from(code(&status))
}
