//! The versions in which a class is known.
ghost use Rattle.std.specs.Prelude.{◌≡◌};
ghost use Rattle.rio_model.specs.Resolving.{built_in_version, is_known_version, newest_known};

use rio_format::{Classes, headed_version, is_headed};

/// The one version of a built-in class.
pub fn built_in_version(class: &[u8]) -> Option<i32>
    ensures { result ≡ built_in_version class.now }
{
    match headed_version(class) {
        Some(version) => Some(version),
        None if is_headed(class) => None,
        None => Some(1),
    }
}

/// The newest version in which a class is declared, or else its built-in one.
pub fn newest_known(classes: &Classes, class: &[u8]) -> Option<i32>
    ensures { result ≡ newest_known classes.now class.now }
{
    match classes.newest(class) {
        Some(newest) => Some(newest.version),
        None => built_in_version(class),
    }
}

/// Whether a class is known in the version. A built-in class is in its one version, whatever a list describes, and any other
/// in those in which it is declared.
pub fn is_known_version(classes: &Classes, class: &[u8], version: i32) -> bool
    ensures { result ≡ is_known_version classes.now class.now version }
{
    match built_in_version(class) {
        Some(own) => version == own,
        None => classes.find(class, version).is_some(),
    }
}
