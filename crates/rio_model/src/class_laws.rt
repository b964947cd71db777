//! The grammar of declarations and their reading belong together.
ghost use Rattle.rio_model.specs.ClassSpelling.{ReadClassesAreSpelled, SpelledClassesAreRead};

/// What tokens declare is read as the class, wherever they stand, with any blanks between them, where the text ends
/// behind them.
pub fn spelled_classes_are_read()
    ensures { SpelledClassesAreRead }
{}

/// A class that is read is declared by the tokens that were passed over.
pub fn read_classes_are_spelled()
    ensures { ReadClassesAreSpelled }
{}
