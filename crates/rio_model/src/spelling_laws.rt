//! The grammar of values and their reading belong together.
ghost use Rattle.rio_model.specs.ToldPlaces.{PlacesAreTold};
ghost use Rattle.rio_model.specs.ValueSpelling.{ReadAreSpelled, SpelledAreRead};

/// What tokens spell as a value or a row is read as it, wherever they stand, with any blanks between them, where a value
/// ends behind them: behind `true`, `false` and `null` no `{` and no `#` comes next, behind a label no `=`.
pub fn spelled_values_are_read()
    ensures { SpelledAreRead }
{}

/// A value or a row that is read is spelled by the tokens that were passed over.
pub fn read_values_are_spelled()
    ensures { ReadAreSpelled }
{}

/// The place that is told of a text that isn't read as a value or a row is that of a token, or the text's end where a
/// string isn't ended. With others behind them the tokens before it spell a value or a row, in which 1,025 brackets may
/// stand within one another, and whatever stands behind that token the place is the same.
pub fn first_bad_tokens_are_told()
    ensures { PlacesAreTold }
{}
