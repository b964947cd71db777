//! Looking classes up in one list, or in two, or in two with one class behind them.
ghost use Rattle.std.specs.Prelude.{◌≡◌, ◌<◌, [], ◌∷◌, ◌++◌, length};
ghost use Rattle.std.specs.Option.{option_copied, option_or};
ghost use Rattle.rio_format.specs.{Classes.{find_in, newest_in}, Lists.{listed, newer_of_two}};

use crate::{ClassDef, Classes};

/// Classes in one list, or in two of which the second stands behind the first, and maybe one class behind them.
#[derive(Clone, Copy)]
pub enum ClassLists<'a> {
    /// One list.
    One(&'a Classes),
    /// The classes of the first list, and then those of the second.
    Two(&'a Classes, &'a Classes),
    /// The classes of the first list, then those of the second, and then this one.
    With(&'a Classes, &'a Classes, &'a ClassDef),
}

impl<'a> ClassLists<'a> {
    /// The first class of that name and version.
    pub fn find(&self, name: &[u8], version: i32) -> Option<&'a ClassDef>
        ensures { option_copied result ≡ find_in (listed self.now) name.now version }
    {
        match self {
            ClassLists::One(classes) => classes.find(name, version),
            ClassLists::Two(first, second) => find_in_two(first, second, name, version),
            ClassLists::With(first, second, class) => {
                find_or(
                    find_in_two(first, second, name, version),
                    class,
                    name,
                    version,
                )
            }
        }
    }

    /// The class of that name in its greatest version. Of several of this version the first is given.
    pub fn newest(&self, name: &[u8]) -> Option<&'a ClassDef>
        ensures { option_copied result ≡ newest_in (listed self.now) name.now }
    {
        match self {
            ClassLists::One(classes) => classes.newest(name),
            ClassLists::Two(first, second) => newest_in_two(first, second, name),
            ClassLists::With(first, second, class) => {
                newer(newest_in_two(first, second, name), of_name(class, name))
            }
        }
    }

    /// How many classes there are.
    pub fn len(&self) -> usize
        ensures value { result ≡ length (listed self.now) }
        ensures small { result < usize.MAX }
    {
        match self {
            ClassLists::One(classes) => classes.as_slice().len(),
            ClassLists::Two(first, second) => first.as_slice().len() + second.as_slice().len(),
            ClassLists::With(first, second, _) => {
                first.as_slice().len() + second.as_slice().len() + 1
            }
        }
    }
}

fn find_in_two<'a>(
    first: &'a Classes,
    second: &'a Classes,
    name: &[u8],
    version: i32,
) -> Option<&'a ClassDef>
    ensures { option_copied result ≡ find_in (first.now ++ second.now) name.now version }
{
    match first.find(name, version) {
        Some(class) => Some(class),
        None => second.find(name, version),
    }
}

// What is found, or else the class, if it is of that name and version.
fn find_or<'a>(
    found: Option<&'a ClassDef>,
    class: &'a ClassDef,
    name: &[u8],
    version: i32,
) -> Option<&'a ClassDef>
    ensures { option_copied result
        ≡ option_or (option_copied found.entry) (find_in (class.now ∷ []) name.now version) }
{
    match found {
        Some(found) => Some(found),
        None if class.name.as_slice() == name && class.version == version => Some(class),
        None => None,
    }
}

fn newest_in_two<'a>(first: &'a Classes, second: &'a Classes, name: &[u8]) -> Option<&'a ClassDef>
    ensures { option_copied result ≡ newest_in (first.now ++ second.now) name.now }
{
    newer(first.newest(name), second.newest(name))
}

// The class, if it has that name.
fn of_name<'a>(class: &'a ClassDef, name: &[u8]) -> Option<&'a ClassDef>
    ensures { option_copied result ≡ newest_in (class.now ∷ []) name.now }
{
    if class.name.as_slice() == name {
        Some(class)
    } else {
        None
    }
}

// The class of the greater version. Of two of one version the first is given.
fn newer<'a>(first: Option<&'a ClassDef>, second: Option<&'a ClassDef>) -> Option<&'a ClassDef>
    ensures { option_copied result
        ≡ newer_of_two (option_copied first.entry) (option_copied second.entry) }
{
    match (first, second) {
        (Some(class), Some(other)) => {
            if other.version <= class.version {
                Some(class)
            } else {
                Some(other)
            }
        }
        (Some(class), None) => Some(class),
        (None, other) => other,
    }
}
