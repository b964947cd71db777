//! How objects of a class begin.
ghost use Rattle.std.specs.Prelude.{◌≡◌};
ghost use Rattle.rio_format.specs.Bodies.{form_of};

use crate::Prim;
use crate::built_in::BuiltIn;

/// How an object of a class begins.
#[derive(Clone, Copy)]
pub enum Form {
    /// Like a TObject, without a byte count.
    Bare,
    /// With a count of numbers.
    Numbers(Prim),
    /// With a header.
    Headed,
}

/// How an object of the class begins: TObject and the TArrays have forms of their own.
pub fn form_of(class: &[u8]) -> Form
    ensures { result ≡ form_of class.now }
{
    match BuiltIn::headless(class) {
        Some(class) => class.form(),
        None => Form::Headed,
    }
}
