//! Classes, and copies of them.
ghost use Rattle.std.specs.Prelude.{◌≡◌, IfOk};

use crate::Kind;
use rio_num::{Items, Name, NoMemory};

/// A member of a class.
#[derive(Debug, PartialEq, Drop)]
pub struct Member {
    pub name: Name,
    pub kind: Kind,
    pub title: Name,
}

/// A base of a class, in the version that the class has it in.
#[derive(Debug, PartialEq, Drop)]
pub struct Base {
    pub name: Name,
    pub version: i32,
}

/// The bases of a class, in order.
pub type Bases = Items<Base>;

/// The members of a class, in order.
pub type Members = Items<Member>;

/// A class in one version. `sum` is the checksum that the class list states for it.
#[derive(Debug, PartialEq, Drop)]
pub struct ClassDef {
    pub name: Name,
    pub version: i32,
    pub sum: u32,
    pub bases: Bases,
    pub members: Members,
}

impl Member {
    /// An equal member.
    pub fn copy(&self) -> Result<Member, NoMemory>
        ensures { IfOk result (λ member. member ≡ self.now) }
    {
        Ok(Member {
            name: self.name.copy()?,
            kind: self.kind.copy()?,
            title: self.title.copy()?,
        })
    }
}

impl Base {
    /// An equal base.
    pub fn copy(&self) -> Result<Base, NoMemory>
        ensures { IfOk result (λ base. base ≡ self.now) }
    {
        Ok(Base {
            name: self.name.copy()?,
            version: self.version,
        })
    }
}

impl ClassDef {
    /// An equal class.
    pub fn copy(&self) -> Result<ClassDef, NoMemory>
        ensures { IfOk result (λ class. class ≡ self.now) }
    {
        Ok(ClassDef {
            name: self.name.copy()?,
            version: self.version,
            sum: self.sum,
            bases: copy_bases(&self.bases)?,
            members: copy_members(&self.members)?,
        })
    }
}

fn copy_bases(bases: &Bases) -> Result<Bases, NoMemory>
    ensures { IfOk result (λ copies. copies ≡ bases.now) }
{
    let mut copies = Bases::new(bases.allocator());
    for base in bases.as_slice() {
        copies.push(base.copy()?)?;
    }
    Ok(copies)
}

fn copy_members(members: &Members) -> Result<Members, NoMemory>
    ensures { IfOk result (λ copies. copies ≡ members.now) }
{
    let mut copies = Members::new(members.allocator());
    for member in members.as_slice() {
        copies.push(member.copy()?)?;
    }
    Ok(copies)
}
