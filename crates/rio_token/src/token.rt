//! The kinds of tokens.
/// The kind of a token.
#[derive(Clone, Copy, Debug, PartialEq, Eq)]
pub enum Token {
    /// A longest run of letters, digits and `_`, `.`, `-`, `+`.
    Word,
    /// A string in double quotes.
    Text,
    /// Any other byte that isn't a blank.
    Mark(u8),
    /// A string with a byte or an escape that can't stand in one.
    Bad,
    /// A string that the text's end cuts off.
    Cut,
    /// The end of the text.
    End,
}
