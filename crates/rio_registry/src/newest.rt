//! The bases of a class in their newest versions.
ghost use Rattle.std.specs.Prelude.{◌≡◌, map, IfOk};
ghost use Rattle.rio_model.specs.Declaring.{base_declared, declared, newest_version};

use rio_format::{Base, Bases, ClassDef, Classes};
use rio_num::NoMemory;

// The greatest version of a declared class, and 1 for a built-in one.
fn newest_version(classes: &Classes, name: &[u8]) -> i32
    ensures { result ≡ newest_version classes.now name.now }
{
    match classes.newest(name) {
        Some(class) => class.version,
        None => 1,
    }
}

fn newest_bases(classes: &Classes, bases: &Bases) -> Result<Bases, NoMemory>
    ensures { IfOk result (λ newest. newest ≡ map (base_declared classes.now) bases.now) }
{
    let mut newest = Bases::new(bases.allocator());
    for base in bases.as_slice() {
        newest.push(Base {
            name: base.name.copy()?,
            version: newest_version(classes, base.name.as_slice()),
        })?;
    }
    Ok(newest)
}

/// The class with each of its bases in the newest version.
pub(crate) fn with_newest_bases(classes: &Classes, class: ClassDef) -> Result<ClassDef, NoMemory>
    ensures { IfOk result (λ newest. newest ≡ declared classes.now class) }
{
    let bases = newest_bases(classes, &class.bases)?;
    Ok(ClassDef {
        name: class.name,
        version: class.version,
        sum: class.sum,
        bases,
        members: class.members,
    })
}
