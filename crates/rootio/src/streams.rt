//! The three standard streams.
use std::fs::File;
use std::io;
use std::rt::Files;

/// Three files that are open and that nothing reads or writes.
///
/// A file that is opened gets the lowest number that is free. A program can be started with its standard
/// input, output or error closed, and the next file that it opens is then taken for that stream: what is
/// said would be written into it. Once these three are open none of the numbers 0, 1 and 2 is free.
#[derive(Drop)]
pub struct Streams<R: Files> {
    _first: R::File,
    _second: R::File,
    _third: R::File,
}

impl<R: Files> Streams<R> {
    /// Opens the root folder three times, to be read. In place of a stream that is closed it can be
    /// neither written nor read, so a call on it fails, as on the closed one.
    pub fn hold(rt: &R) -> io::Result<Streams<R>> {
        Ok(Streams {
            _first: File::open(rt, "/")?,
            _second: File::open(rt, "/")?,
            _third: File::open(rt, "/")?,
        })
    }
}
