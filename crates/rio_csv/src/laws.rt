//! What is printed is read again, and what is bad is refused.
ghost use Rattle.rio_csv.specs.Laws.{BadRowsDontFit, PrintedRowsAreRead};

/// The lines of rows are read as the rows, where each value is one that its leaf's letter stands for: an integer from -2^63
/// to 2^64 - 1, a truth value, the bits of 4 or 8 bytes, or a text. The first text in them may not begin with the bytes of a
/// byte order mark.
pub fn printed_rows_are_read()
    ensures { PrintedRowsAreRead }
{}

/// The empty row, as which a bad one is read, fits no branches that a line of a script can state: such a fill is refused.
pub fn bad_rows_do_not_fit()
    ensures { BadRowsDontFit }
{}
