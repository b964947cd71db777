//! The classes that are built in.
ghost use Rattle.std.specs.Prelude.{◌≡◌, Some, None};
ghost use Rattle.std.specs.Str.{bytes_eq};
ghost use Rattle.rio_format.specs.Bodies.{headed_class, headless_class, row_of};

use crate::Prim;
use crate::form::Form;

/// A class that is built in.
#[derive(Clone, Copy)]
pub enum BuiltIn {
    /// TObject.
    Object,
    /// TNamed.
    Named,
    /// TObjString.
    ObjString,
    /// TList.
    Listed,
    /// TObjArray.
    Arrayed,
    /// TArrayC.
    Chars,
    /// TArrayS.
    Shorts,
    /// TArrayI.
    Ints,
    /// TArrayL64.
    Longs,
    /// TArrayF.
    Floats,
    /// TArrayD.
    Doubles,
}

impl BuiltIn {
    /// The one of the name whose objects have no header: TObject or a TArray.
    pub fn headless(class: &[u8]) -> Option<BuiltIn>
        ensures { result ≡ headless_class class.now }
    {
        if BuiltIn::Object.is_named(class) {
            Some(BuiltIn::Object)
        } else if BuiltIn::Chars.is_named(class) {
            Some(BuiltIn::Chars)
        } else if BuiltIn::Shorts.is_named(class) {
            Some(BuiltIn::Shorts)
        } else if BuiltIn::Ints.is_named(class) {
            Some(BuiltIn::Ints)
        } else if BuiltIn::Longs.is_named(class) {
            Some(BuiltIn::Longs)
        } else if BuiltIn::Floats.is_named(class) {
            Some(BuiltIn::Floats)
        } else if BuiltIn::Doubles.is_named(class) {
            Some(BuiltIn::Doubles)
        } else {
            None
        }
    }

    /// The one of the name whose objects begin with a header. Those are what a put can have as its value.
    pub fn headed(class: &[u8]) -> Option<BuiltIn>
        ensures { result ≡ headed_class class.now }
    {
        if BuiltIn::Named.is_named(class) {
            Some(BuiltIn::Named)
        } else if BuiltIn::ObjString.is_named(class) {
            Some(BuiltIn::ObjString)
        } else if BuiltIn::Listed.is_named(class) {
            Some(BuiltIn::Listed)
        } else if BuiltIn::Arrayed.is_named(class) {
            Some(BuiltIn::Arrayed)
        } else {
            None
        }
    }

    /// Its name.
    pub fn name(self) -> &'static [u8]
        ensures { result.now ≡ (row_of self).name }
    {
        match self {
            BuiltIn::Object => b"TObject",
            BuiltIn::Named => b"TNamed",
            BuiltIn::ObjString => b"TObjString",
            BuiltIn::Listed => b"TList",
            BuiltIn::Arrayed => b"TObjArray",
            BuiltIn::Chars => b"TArrayC",
            BuiltIn::Shorts => b"TArrayS",
            BuiltIn::Ints => b"TArrayI",
            BuiltIn::Longs => b"TArrayL64",
            BuiltIn::Floats => b"TArrayF",
            BuiltIn::Doubles => b"TArrayD",
        }
    }

    /// Whether that is its name.
    pub fn is_named(self, class: &[u8]) -> bool
        ensures { result ≡ bytes_eq class.now (row_of self).name }
    {
        class == self.name()
    }

    /// Its one version.
    pub fn version(self) -> i32
        ensures { result ≡ (row_of self).version }
    {
        match self {
            BuiltIn::Listed => 5,
            BuiltIn::Arrayed => 3,
            _ => 1,
        }
    }

    /// How its objects begin.
    pub fn form(self) -> Form
        ensures { result ≡ (row_of self).form }
    {
        match self {
            BuiltIn::Object => Form::Bare,
            BuiltIn::Chars => Form::Numbers(Prim::I8),
            BuiltIn::Shorts => Form::Numbers(Prim::I16),
            BuiltIn::Ints => Form::Numbers(Prim::I32),
            BuiltIn::Longs => Form::Numbers(Prim::I64),
            BuiltIn::Floats => Form::Numbers(Prim::F32),
            BuiltIn::Doubles => Form::Numbers(Prim::F64),
            _ => Form::Headed,
        }
    }
}
