//! Classes of the rows, and what their text is compared with.
use rio_format::{Base, Bases, ClassDef, Classes, Kind, Member, Members, Prim};
use rio_num::{Bytes, Name, NoMemory};
use std::alloc::Global;

/// What a member holds.
#[derive(Clone, Copy)]
pub(crate) enum Holds {
    Plain(Prim),
    Counter,
    Fixed(Prim, u32),
    Counted(Prim, &'static str),
    Text,
    Inline(&'static str),
    Pointer(&'static str),
    Other(i32),
}

/// A class: its bases with their versions, its members, and the title that each of these has.
pub(crate) struct ClassRow {
    pub(crate) name: &'static str,
    pub(crate) version: i32,
    pub(crate) sum: u32,
    pub(crate) bases: &'static [(&'static str, i32)],
    pub(crate) members: &'static [(&'static str, Holds)],
    pub(crate) title: &'static str,
}

pub(crate) fn name_of(alloc: Global, text: &str) -> Result<Name, NoMemory> {
    Name::from_slice(alloc, text.as_bytes())
}

fn counted(alloc: Global, of: Prim, counter: &str) -> Result<Kind, NoMemory> {
    let counter = name_of(alloc, counter)?;
    Ok(Kind::Counted { of, counter })
}

fn inline(alloc: Global, class: &str) -> Result<Kind, NoMemory> {
    let class = name_of(alloc, class)?;
    Ok(Kind::Inline { class })
}

fn pointer(alloc: Global, class: &str) -> Result<Kind, NoMemory> {
    let class = name_of(alloc, class)?;
    Ok(Kind::Pointer { class })
}

fn kind_of(alloc: Global, holds: Holds) -> Result<Kind, NoMemory> {
    match holds {
        Holds::Plain(of) => Ok(Kind::Plain { of }),
        Holds::Counter => Ok(Kind::Counter),
        Holds::Fixed(of, count) => Ok(Kind::Fixed { of, count }),
        Holds::Counted(of, counter) => counted(alloc, of, counter),
        Holds::Text => Ok(Kind::Text),
        Holds::Inline(class) => inline(alloc, class),
        Holds::Pointer(class) => pointer(alloc, class),
        Holds::Other(code) => Ok(Kind::Other { code }),
    }
}

pub(crate) fn member_of(
    alloc: Global,
    name: &str,
    holds: Holds,
    title: &str,
) -> Result<Member, NoMemory> {
    let name = name_of(alloc, name)?;
    let kind = kind_of(alloc, holds)?;
    let title = name_of(alloc, title)?;
    Ok(Member { name, kind, title })
}

pub(crate) fn base_of(alloc: Global, name: &str, version: i32) -> Result<Base, NoMemory> {
    let name = name_of(alloc, name)?;
    Ok(Base { name, version })
}

/// A class without bases and members.
pub(crate) fn bare_class(
    alloc: Global,
    name: &str,
    version: i32,
    sum: u32,
) -> Result<ClassDef, NoMemory> {
    let name = name_of(alloc, name)?;
    Ok(ClassDef {
        name,
        version,
        sum,
        bases: Bases::new(alloc),
        members: Members::new(alloc),
    })
}

impl ClassRow {
    fn put_bases(&self, bases: &mut Bases) -> Result<(), NoMemory> {
        for (name, version) in self.bases {
            let base = base_of(bases.allocator(), name, *version)?;
            bases.push(base)?;
        }
        Ok(())
    }

    fn put_members(&self, members: &mut Members) -> Result<(), NoMemory> {
        for (name, holds) in self.members {
            let member = member_of(members.allocator(), name, *holds, self.title)?;
            members.push(member)?;
        }
        Ok(())
    }

    /// The class of the row.
    pub(crate) fn class(&self, alloc: Global) -> Result<ClassDef, NoMemory> {
        let mut class = bare_class(alloc, self.name, self.version, self.sum)?;
        self.put_bases(&mut class.bases)?;
        self.put_members(&mut class.members)?;
        Ok(class)
    }
}

/// The classes of these rows.
pub(crate) fn classes_of(alloc: Global, rows: &[ClassRow]) -> Result<Classes, NoMemory> {
    let mut classes = Classes::new(alloc);
    for row in rows {
        classes.push(row.class(alloc)?)?;
    }
    Ok(classes)
}

/// Whether this text was made.
pub(crate) fn is_text(made: Result<Bytes, NoMemory>, text: &str) -> bool {
    match made {
        Ok(made) => made.as_slice() == text.as_bytes(),
        Err(_) => false,
    }
}
