//! Which names classes may have, and which classes a declaration may name.
ghost use Rattle.std.specs.Prelude.{◌≡◌};
ghost use Rattle.rio_model.specs.Declaring.{is_built_in_base, is_built_in_target, is_declared, is_known, is_reserved_name, knows_all, knows_base, knows_kind};
ghost use Rattle.std.specs.List.{list_all};

use rio_format::{Base, BuiltIn, ClassDef, Classes, Kind, Member};

/// Whether the name begins with T and an upper-case letter. Such names are left to the classes that come with the
/// format.
pub fn is_reserved_name(name: &[u8]) -> bool
    ensures { result ≡ is_reserved_name name.now }
{
    match name {
        [first, second, ..] => *first == b'T' && b'A' <= *second && *second <= b'Z',
        _ => false,
    }
}

/// Whether a class of the name is declared.
pub(crate) fn is_declared(classes: &Classes, name: &[u8]) -> bool
    ensures { result ≡ is_declared classes.now name.now }
{
    classes.newest(name).is_some()
}

// Declared, or the class that is being declared.
fn is_known(classes: &Classes, class: &ClassDef, name: &[u8]) -> bool
    ensures { result ≡ is_known classes.now class.now name.now }
{
    is_declared(classes, name) || class.name.as_slice() == name
}

/// Whether the name is that of a built-in class that may be a base.
pub(crate) fn is_built_in_base(name: &[u8]) -> bool
    ensures { result ≡ is_built_in_base name.now }
{
    BuiltIn::Object.is_named(name) || BuiltIn::Named.is_named(name)
}

// Whether it is that of a built-in class that a pointer may name.
fn is_built_in_target(name: &[u8]) -> bool
    ensures { result ≡ is_built_in_target name.now }
{
    BuiltIn::Object.is_named(name) || BuiltIn::headed(name).is_some()
}

fn knows_base(classes: &Classes, class: &ClassDef, base: &Base) -> bool
    ensures { result ≡ knows_base classes.now class.now base.now }
{
    let name = base.name.as_slice();
    is_known(classes, class, name) || is_built_in_base(name)
}

fn knows_kind(classes: &Classes, class: &ClassDef, kind: &Kind) -> bool
    ensures { result ≡ knows_kind classes.now class.now kind.now }
{
    match kind {
        Kind::Inline { class: name } => is_known(classes, class, name.as_slice()),
        Kind::Pointer { class: name } => {
            is_known(classes, class, name.as_slice()) || is_built_in_target(name.as_slice())
        }
        _ => true,
    }
}

fn knows_bases(classes: &Classes, class: &ClassDef, bases: &[Base]) -> bool
    ensures { result ≡ list_all (knows_base classes.now class.now) bases.now }
{
    for base in bases {
        if !knows_base(classes, class, base) {
            return false;
        }
    }
    true
}

fn knows_members(classes: &Classes, class: &ClassDef, members: &[Member]) -> bool
    ensures { result ≡ list_all (λ m. knows_kind classes.now class.now m.kind) members.now }
{
    for member in members {
        if !knows_kind(classes, class, &member.kind) {
            return false;
        }
    }
    true
}

/// Whether each class that a base or a member names may stand there. The class's own name counts as declared.
pub(crate) fn knows_all(classes: &Classes, class: &ClassDef) -> bool
    ensures { result ≡ knows_all classes.now class.now }
{
    knows_bases(classes, class, class.bases.as_slice())
        && knows_members(classes, class, class.members.as_slice())
}
