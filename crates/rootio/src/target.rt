//! A file that is written to, as the words of the command line name it.
use std::marker::Model;

/// A file that is written to.
#[derive(Debug, Drop)]
pub struct Target<'a> {
    /// Its name, by which it is opened; a new file has it in its header record.
    pub name: &'a [u8],
    /// The datime of all that is written to it, as ROOT packs date and time into 32 bits (TDatime).
    pub datime: u32,
}

impl<'a> Model for Target<'a> {
    ghost use Rattle.rootio.specs.Target.{TargetFile};

    ghost Value = { TargetFile };

    ghost view = { λ target. record { name = target.name.now; datime = target.datime } };
}
