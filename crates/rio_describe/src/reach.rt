//! Which classes have a TObject among their bases.
ghost use Rattle.std.specs.Prelude.{◌≡◌};
ghost use Rattle.rio_format.specs.{Lists.{listed}, WrittenElements.{built_in_or_newest, reaches_object}};

use crate::judged::JudgedLists;
use rio_format::{ClassLists, headed_version};

fn built_in_or_newest(classes: &ClassLists, class: &[u8]) -> Option<i32>
    ensures { result ≡ built_in_or_newest (listed classes.now) class.now }
{
    match headed_version(class) {
        Some(version) => Some(version),
        None => match classes.newest(class) {
            Some(class) => Some(class.version),
            None => None,
        },
    }
}

/// Whether the class is TObject, or has it among its bases in its newest version.
#[tactic(auto, unfolding(rio_format::specs::WrittenElements::reaches_object))]
pub(crate) fn reaches_object(classes: &JudgedLists, class: &[u8]) -> bool
    ensures { result ≡ reaches_object (listed classes.now) class.now }
{
    if class == b"TObject".as_slice() {
        return true;
    }
    match built_in_or_newest(classes.lists(), class) {
        Some(version) => classes.is_heir(class, version),
        None => false,
    }
}
