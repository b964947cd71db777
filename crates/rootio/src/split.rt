//! The words of the command line, as clap splits them, and what the host is given of them.
ghost use Rattle.std.specs.Prelude.{◌≡◌, ◌&&◌};
ghost use Rattle.rootio.specs.Naming.{file_word};
ghost use Rattle.rootio.specs.Words.{may_write};

use crate::words::may_write;
use clap::error::ErrorKind;
use clap::{Arg, ArgMatches, Command, Error};
use rio_num::{NoMemory, Words};
use std::alloc::Global;

// VERB FILE ARG..., each of which may be absent, and no flags.
fn split<'a>(alloc: Global, words: &'a [String]) -> Result<ArgMatches<'a>, Error> {
    Command::new(alloc, "rootio")
        .disable_help_flag(true)
        .disable_version_flag(true)
        .no_binary_name(true)
        .arg(Arg::new(alloc, "VERB"))?
        .arg(Arg::new(alloc, "FILE"))?
        .arg(Arg::new(alloc, "ARG").num_args(0..))?
        .try_get_matches_from(words)
}

/// Whether the words can be split so.
pub fn is_split(alloc: Global, words: &[String]) -> Result<bool, NoMemory> {
    match split(alloc, words) {
        Ok(_matches) => Ok(true),
        Err(error) if error.kind() == ErrorKind::OutOfMemory => Err(NoMemory),
        Err(_) => Ok(false),
    }
}

/// The word that names the file: the second one, and none where the words can't be split.
pub fn file_word(words: &Words, split: bool) -> &[u8]
    ensures { result.now ≡ file_word words.now split }
{
    if !split {
        return &[];
    }
    match words.as_slice() {
        [_, file, ..] => file.as_slice(),
        _ => &[],
    }
}

/// Whether the host may write: only by a verb that writes, and only where the words are split.
pub fn host_may_write(words: &Words, split: bool) -> bool
    ensures { result ≡ (split && may_write words.now) }
{
    split && may_write(words)
}
