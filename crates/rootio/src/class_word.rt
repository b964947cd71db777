//! A class in a version, as a word of the command line names it.
use rio_format::Base;
use rio_num::{Name, NoMemory};
use std::alloc::Global;
use std::marker::Model;

/// A class in a version as a word names it.
#[derive(Debug, Drop)]
pub struct ClassWord<'a> {
    pub name: &'a [u8],
    pub version: i32,
}

impl<'a> Model for ClassWord<'a> {
    ghost use Rattle.rio_format.specs.declared.class.Base.{Base};

    ghost Value = { Base };

    ghost view = { λ word. record { name = word.name.now; version = word.version } };
}

impl<'a> ClassWord<'a> {
    ghost use Rattle.std.specs.Prelude.{◌≡◌, IfOk};

    /// The class in the version.
    pub fn to_base(&self, alloc: Global) -> Result<Base, NoMemory>
        ensures { IfOk result (λ base. base ≡ self.now) }
    {
        Ok(Base {
            name: Name::from_slice(alloc, self.name)?,
            version: self.version,
        })
    }
}
