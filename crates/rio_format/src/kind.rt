//! What the members of a class hold.
ghost use Rattle.std.specs.Prelude.{◌≡◌, IfOk};

use rio_num::{Name, NoMemory};

/// A kind of single values. Floating-point numbers are taken as bit patterns.
#[derive(Clone, Copy, Debug, PartialEq, Eq)]
pub enum Primitive {
    I8,
    I16,
    I32,
    I64,
    U8,
    U16,
    U32,
    U64,
    Bool,
    F32,
    F64,
}

/// The same, by its short name.
pub type Prim = Primitive;

/// What a member of a class holds.
#[derive(Debug, PartialEq, Drop)]
pub enum Kind {
    /// One value.
    Plain { of: Prim },
    /// An `i32` that counts the values of a later member.
    Counter,
    /// A list of `count` values.
    Fixed { of: Prim, count: u32 },
    /// A list of as many values as the last earlier counter of this name says.
    Counted { of: Prim, counter: Name },
    /// A text.
    Text,
    /// An object of the class.
    Inline { class: Name },
    /// Nothing, an object of the class or of one that has it among its bases, or an earlier such object.
    Pointer { class: Name },
    /// Anything that isn't read: the type code that the file gives.
    Other { code: i32 },
}

impl Kind {
    /// An equal kind.
    pub fn copy(&self) -> Result<Kind, NoMemory>
        ensures { IfOk result (λ kind. kind ≡ self.now) }
    {
        match self {
            Kind::Plain { of } => Ok(Kind::Plain { of: *of }),
            Kind::Counter => Ok(Kind::Counter),
            Kind::Fixed { of, count } => Ok(Kind::Fixed {
                of: *of,
                count: *count,
            }),
            Kind::Counted { of, counter } => Ok(Kind::Counted {
                of: *of,
                counter: counter.copy()?,
            }),
            Kind::Text => Ok(Kind::Text),
            Kind::Inline { class } => Ok(Kind::Inline {
                class: class.copy()?,
            }),
            Kind::Pointer { class } => Ok(Kind::Pointer {
                class: class.copy()?,
            }),
            Kind::Other { code } => Ok(Kind::Other { code: *code }),
        }
    }
}
