//! Laws: how reading, spelling and first faults belong together.
ghost use Rattle.std.specs.Prelude.{ℕ};
ghost use Rattle.rio_num.specs.Books.{books};
ghost use Rattle.rio_num.specs.Laws.{Agrees};

/// What is spelled is read, what breaks gives the fault, what is read is spelled, what fails is broken.
/// Told of lists of books, whose description has parts of every kind.
pub fn meanings_agree()
    ensures { (n : ℕ) → Agrees (books n) }
{}
