//! What is printed is read again, and reading goes on in the same text.
ghost use Rattle.rio_model.specs.ClassGrammar.{ClassesEndFurther};
ghost use Rattle.rio_model.specs.Readable.{ValuesAreRead};
ghost use Rattle.rio_model.specs.ValueGrammar.{ValuesEndFurther};
ghost use Rattle.rio_model.specs.Stated.{ClassesAreRead, ReadClassesAreStated};

/// The text of a value is read as the value, wherever it stands, if it says everything of the value.
pub fn printed_values_are_read()
    ensures { ValuesAreRead }
{}

/// The declaration of a class is read as the class with version 0 in its bases, if a declaration can give
/// the class at all.
pub fn printed_classes_are_read()
    ensures { ClassesAreRead }
{}

/// The class that a text declares is one that a declaration can give, and its bases have the version 0.
pub fn read_classes_are_stated()
    ensures { ReadClassesAreStated }
{}

/// Where a class was read of a declaration, what is left is the same text from the later place on.
pub fn class_reading_goes_on()
    ensures { ClassesEndFurther }
{}

/// Where a value or a row was read, what is left is the same text from the later place on.
pub fn value_reading_goes_on()
    ensures { ValuesEndFurther }
{}
