//! Which texts are names and items, and what stands at the front of a text: blanks, and a word.
ghost use Rattle.std.specs.Prelude.{◌≡◌, ◌≤◌, length};
ghost use Rattle.std.specs.List.{list_all, prefix_len};
ghost use Rattle.rio_num.specs.Word.{goes_on_name, is_blank_byte, is_word_byte, is_item_text, is_name_text};

fn goes_on(byte: u8) -> bool
    ensures { result ≡ goes_on_name byte }
{
    byte.is_ascii_alphanumeric() || byte == b'_'
}

fn all_go_on(bytes: &[u8]) -> bool
    ensures { result ≡ list_all goes_on_name bytes.now }
{
    bytes.iter().all(|byte| goes_on(*byte))
}

/// Whether the text is a name, as of a class, a member or a leaf: a letter or `_`, and then letters,
/// digits and `_`, of at most 100 bytes in all.
pub fn is_name(text: &[u8]) -> bool
    ensures { result ≡ is_name_text text.now }
{
    match text {
        [] => false,
        [first, rest @ ..] => {
            (first.is_ascii_alphabetic() || *first == b'_') && all_go_on(rest) && text.len() <= 100
        }
    }
}

/// Whether the byte may stand in a word: a letter, a digit, or one of `_ . - +`.
pub fn is_word_byte(byte: u8) -> bool
    ensures { result ≡ is_word_byte byte }
{
    byte.is_ascii_alphanumeric() || byte == b'_' || byte == b'.' || byte == b'-' || byte == b'+'
}

fn are_word_bytes(bytes: &[u8]) -> bool
    ensures { result ≡ list_all is_word_byte bytes.now }
{
    bytes.iter().all(|byte| is_word_byte(*byte))
}

/// Whether the text is an item, which names an object or a tree: letters, digits and `_ . - +`, of at
/// least one byte and at most 100.
pub fn is_item(text: &[u8]) -> bool
    ensures { result ≡ is_item_text text.now }
{
    !text.is_empty() && are_word_bytes(text) && text.len() <= 100
}

/// How many blanks, spaces and tabs, stand at the front.
pub fn blanks(bytes: &[u8]) -> usize
    ensures value { result ≡ prefix_len is_blank_byte bytes.now }
    ensures within { result ≤ length bytes.now }
{
    bytes
        .iter()
        .take_while(|byte| **byte == b' ' || **byte == b'\t')
        .count()
}

/// How many bytes of a word stand at the front.
pub fn word_length(bytes: &[u8]) -> usize
    ensures value { result ≡ prefix_len is_word_byte bytes.now }
    ensures within { result ≤ length bytes.now }
{
    bytes.iter().take_while(|byte| is_word_byte(**byte)).count()
}
