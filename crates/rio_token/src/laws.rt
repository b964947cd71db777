//! What is printed is read again, and reading goes on in the same text.
ghost use Rattle.rio_token.specs.Further.{FurtherGoesOn, FurtherIsInText, PassedTakesSome, TakesEndFurther};
ghost use Rattle.rio_token.specs.Laws.{IntegersAreRead, NumsAreRead, StringsAreRead};

/// A text that is printed as a string is read as one token that spells it, whatever follows.
pub fn printed_strings_are_read()
    ensures { StringsAreRead }
{}

/// An integer that is printed is read as the same integer.
pub fn printed_integers_are_read()
    ensures integers { IntegersAreRead }
    ensures nums { NumsAreRead }
{}

/// Where something was taken, reading goes on in the same text: what is left is the text from the later
/// place on. Each token that is passed takes some of it.
pub fn takes_go_on_in_the_text()
    ensures takes { TakesEndFurther }
    ensures some { PassedTakesSome }
    ensures text { FurtherIsInText }
    ensures goes { FurtherGoesOn }
{}
