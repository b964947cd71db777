//! What is written for a base or a member of a class.
use rio_format::ClassDef;
use std::marker::Model;

/// What is written for a base or a member of a class: an object of a class of elements. Contracts see it as it is
/// written.
#[derive(Drop)]
pub struct Element<'a> {
    /// The element's own class, with what that adds.
    pub class: ElementClass<'a>,
    /// The name of the base or the member.
    pub name: &'a [u8],
    /// The code of its type.
    pub code: i32,
    /// How many bytes its values have, and 0 where that is not fixed.
    pub size: u64,
    /// How many values an array has, and `None` for what is no array.
    pub array: Option<u32>,
    /// The name of its type.
    pub type_name: TypeName<'a>,
}

impl<'a> Model for Element<'a> {
    ghost use Rattle.std.specs.Coded.{codes};
    ghost use Rattle.std.specs.Option.{option_map_or, unwrap_or};
    ghost use Rattle.rio_format.specs.contracts.value.Value as values;
    ghost use Rattle.rio_format.specs.WrittenElements.{WrittenElement};

    ghost Value = { WrittenElement };

    ghost coded = { Prim.hlevel (codes, values.the_row.coded) };

    ghost use Rattle.rio_describe.specs.ElementClasses.{added_parts, element_class_name, element_class_version};

    ghost view = { λ e. record {
      class = element_class_name e.class;
      version = element_class_version e.class;
      name = e.name.now;
      code = e.code;
      size = e.size;
      count = unwrap_or e.array 0;
      dimensions = option_map_or (λ _. 1) e.array 0;
      type_name = e.type_name;
      added = added_parts e.class;
    } };
}

/// The name of an element's type. Contracts see its bytes.
#[derive(Drop)]
pub struct TypeName<'a> {
    /// The name, or that of what it points to.
    pub name: &'a [u8],
    /// Whether it is a pointer's, which has an asterisk behind the name.
    pub is_pointer: bool,
}

impl<'a> Model for TypeName<'a> {
    ghost use Rattle.std.specs.Prelude.{ℕ, List, if◌then◌else◌};
    ghost use Rattle.rio_format.specs.WrittenElements.{starred};

    ghost Value = { List ℕ };

    ghost view = { λ t. if t.is_pointer then starred t.name.now else t.name.now };
}

impl<'a> TypeName<'a> {
    ghost use Rattle.std.specs.Prelude.{◌≡◌};
    ghost use Rattle.rio_format.specs.WrittenElements.{starred};

    /// This name.
    pub(crate) fn of(name: &'a [u8]) -> TypeName<'a>
        ensures { result ≡ name.now }
    {
        TypeName {
            name,
            is_pointer: false,
        }
    }

    /// The name of a pointer to what has this name.
    pub(crate) fn pointer_to(name: &'a [u8]) -> TypeName<'a>
        ensures { result ≡ starred name.now }
    {
        TypeName {
            name,
            is_pointer: true,
        }
    }
}

/// A class of elements, with what it adds to a TStreamerElement.
#[derive(Clone, Copy)]
pub enum ElementClass<'a> {
    /// TStreamerBase: a base in this version.
    Base {
        version: i32,
    },
    /// TStreamerBasicType.
    BasicType,
    /// TStreamerBasicPointer: an array whose values a member of the owner counts.
    BasicPointer {
        owner: &'a ClassDef,
        counter: &'a [u8],
    },
    /// TStreamerString.
    Text,
    /// TStreamerObject: an object that is a TObject.
    Object,
    /// TStreamerObjectAny: another object.
    ObjectAny,
    /// TStreamerObjectPointer: a pointer to a TObject.
    ObjectPointer,
    /// TStreamerObjectAnyPointer: a pointer to another object.
    ObjectAnyPointer,
}

impl<'a> Element<'a> {
    ghost use Rattle.std.specs.Prelude.{◌≡◌, pos};

    /// The name of its own class.
    pub fn class_name(&self) -> &'static [u8]
        ensures { result.now ≡ self.now.class }
    {
        match self.class {
            ElementClass::Base { .. } => b"TStreamerBase",
            ElementClass::BasicType => b"TStreamerBasicType",
            ElementClass::BasicPointer { .. } => b"TStreamerBasicPointer",
            ElementClass::Text => b"TStreamerString",
            ElementClass::Object => b"TStreamerObject",
            ElementClass::ObjectAny => b"TStreamerObjectAny",
            ElementClass::ObjectPointer => b"TStreamerObjectPointer",
            ElementClass::ObjectAnyPointer => b"TStreamerObjectAnyPointer",
        }
    }

    /// The version in which its own class is written.
    pub fn class_version(&self) -> u16
        ensures { pos result ≡ self.now.version }
    {
        match self.class {
            ElementClass::Base { .. } => 3,
            ElementClass::ObjectAnyPointer => 1,
            _ => 2,
        }
    }
}
