//! The input of the process.
ghost use Rattle.std.specs.Prelude.{None, ◌≤◌, length, IfOk};

use crate::count::raised;
use crate::{Failed, Source};
use std::io;
use std::io::{ErrorKind, Read};

/// The standard input. It tells nothing of what it holds. A read that a signal interrupts is tried again.
#[derive(Drop)]
pub struct StdSource<'a, R: Input> {
    rt: &'a R,
    reader: Option<R::Reader>,
    faults: u64,
}

impl<'a, R: Input> StdSource<'a, R> {
    /// The standard input, from where it stands.
    pub fn new(rt: &'a R) -> StdSource<'a, R> {
        StdSource {
            rt,
            reader: None,
            faults: 0,
        }
    }
}

impl<'a, R: Input> Source for StdSource<'a, R> {
    ghost view = { λ s. record { remaining = None; faults = s.faults } };

    fn read(&mut self, into: &mut [u8]) -> Result<usize, Failed> {
        let mut reader = match self.reader.take() {
            Some(reader) => reader,
            None => self.rt.reader(),
        };
        let answer = read_again(&mut reader, into);
        self.reader = Some(reader);
        match answer {
            Ok(n) => Ok(n),
            Err(_) => {
                self.faults = raised(self.faults);
                Err(Failed)
            }
        }
    }
}

// The next bytes. A read that a signal interrupts is tried again, as the system's calls on a file are.
fn read_again<R: Read>(reader: &mut R, into: &mut [u8]) -> io::Result<usize>
    ensures { IfOk result (λ n. n ≤ length into.new) }
{
    for _ in 0..u64::MAX {
        match reader.read(into) {
            Ok(n) => return Ok(n),
            Err(error) if error.kind() == ErrorKind::Interrupted => {}
            Err(error) => return Err(error),
        }
    }
    Err(io::Error::from(ErrorKind::Interrupted))
}
