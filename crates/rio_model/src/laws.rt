//! The printed texts are one line.
ghost use Rattle.rio_model.specs.OneLine.{ClassesAreOneLine, ValuesAreOneLine};

/// The text of a value, and of a class, is one line, whatever bytes its names and strings have.
pub fn texts_are_one_line()
    ensures values { ValuesAreOneLine }
    ensures classes { ClassesAreOneLine }
{}
