//! Classes with one base.
ghost use Rattle.std.specs.Prelude.{◌≡◌, [], ◌∷◌, ◌++◌, IfOk, OnOk};
ghost use Rattle.rio_format.specs.{Bodies.{member}, Descriptions.{describing, named_base}};

use rio_format::{Base, Bases, ClassDef, Kind, Member, Members};
use rio_num::{Name, NoMemory};
use std::alloc::Global;

/// A class with one base.
pub(crate) fn describing(
    alloc: Global,
    name: &[u8],
    version: i32,
    sum: u32,
    base: Base,
    members: Members,
) -> Result<ClassDef, NoMemory>
    ensures { IfOk result (λ class. class ≡ describing name.now version sum base members) }
{
    let mut bases = Bases::new(alloc);
    bases.push(base)?;
    Ok(ClassDef {
        name: Name::from_slice(alloc, name)?,
        version,
        sum,
        bases,
        members,
    })
}

/// Puts a member without a title at the end.
pub(crate) fn push(
    alloc: Global,
    members: &mut Members,
    name: &[u8],
    kind: Kind,
) -> Result<(), NoMemory>
    ensures { OnOk result (members.new ≡ members.old ++ member name.now kind ∷ []) }
{
    let member = Member {
        name: Name::from_slice(alloc, name)?,
        kind,
        title: Name::new(alloc),
    };
    members.push(member)
}

/// The name of a class and its title.
pub(crate) fn named_base(alloc: Global) -> Result<Base, NoMemory>
    ensures { IfOk result (λ base. base ≡ named_base) }
{
    Ok(Base {
        name: Name::from_slice(alloc, b"TNamed")?,
        version: 1,
    })
}
