//! Laws: the small built-in objects are written alike everywhere.
ghost use Rattle.rio_write.specs.Small.{SmallBuiltinsAreAlike, SmallBuiltinsStandAnywhere};

/// A TObject, TNamed, TObjString or TArray in version 1 that fits its class over some class list fits it
/// over the empty one. For one that fits it over the empty list the same bytes are written over every list,
/// at every place and whatever was written before.
pub fn small_builtins_are_alike()
    ensures alike { SmallBuiltinsAreAlike }
    ensures anywhere { SmallBuiltinsStandAnywhere }
{}
