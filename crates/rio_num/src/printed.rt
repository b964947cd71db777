//! Names and strings as they are printed.
ghost use Rattle.std.specs.Prelude.{◌≡◌, ◌<◌, length};
ghost use Rattle.std.specs.List.{list_all};
ghost use Rattle.rio_num.specs.Room.{Appends};
ghost use Rattle.rio_num.specs.Printed.{escaped, hex_digit, hex_text, is_bare, is_bare_name, name_text, string_text};

use crate::{Bytes, NoMemory};

fn hex_digit_of(n: u8) -> u8
    requires { n < 16 }
    ensures { result ≡ hex_digit n }
{
    if n < 10 { 48 + n } else { 87 + n }
}

// Two digits for each byte, the one of its upper half first.
#[tactic(auto, unfolding(crate::specs::Printed::hex_text))]
pub(crate) fn hex_of(bytes: [u8; 4]) -> [u8; 8]
    ensures { result ≡ hex_text bytes }
{
    let [a, b, c, d] = bytes;
    [
        hex_digit_of(a / 16),
        hex_digit_of(a % 16),
        hex_digit_of(b / 16),
        hex_digit_of(b % 16),
        hex_digit_of(c / 16),
        hex_digit_of(c % 16),
        hex_digit_of(d / 16),
        hex_digit_of(d % 16),
    ]
}

fn is_bare_byte(byte: u8) -> bool
    ensures { result ≡ is_bare byte }
{
    (0x21..=0x7e).contains(&byte) && byte != b'"' && byte != b';'
}

fn are_bare_bytes(name: &[u8]) -> bool
    ensures { result ≡ list_all is_bare name.now }
{
    name.iter().all(|byte| is_bare_byte(*byte))
}

fn is_bare_text(name: &[u8]) -> bool
    ensures { result ≡ is_bare_name name.now }
{
    !name.is_empty() && are_bare_bytes(name)
}

// How many bytes the text is printed in as a string.
#[tactic(auto, unfolding(crate::specs::Printed::string_text))]
fn string_length(text: &[u8]) -> u128
    ensures { result ≡ length (string_text text.now) }
{
    let mut n: u128 = 2;
    for byte in text {
        n += u128::from(escaped_length(*byte));
    }
    n
}

fn escaped_length(byte: u8) -> u8
    ensures { result ≡ length (escaped byte) }
{
    match byte {
        b'"' | b'\\' | b'\n' | b'\t' => 2,
        0x20..=0x7e => 1,
        _ => 4,
    }
}

impl Bytes {
    // Puts a byte of a string at the end, escaped where it has to be.
    fn put_escaped(&mut self, byte: u8) -> Result<(), NoMemory>
        ensures { Appends self.old self.new (escaped byte) result }
    {
        match byte {
            b'"' => self.put(b"\\\""),
            b'\\' => self.put(b"\\\\"),
            b'\n' => self.put(b"\\n"),
            b'\t' => self.put(b"\\t"),
            0x20..=0x7e => self.push(byte),
            _ => self.put(&[
                b'\\',
                b'x',
                hex_digit_of(byte / 16),
                hex_digit_of(byte % 16),
            ]),
        }
    }

    /// Puts a text at the end as it is printed in double quotes: `"`, `\`, a line feed and a tab as `\"`, `\\`,
    /// `\n` and `\t`, and every other byte outside 0x20 to 0x7E as `\xHH`.
    #[tactic(auto, unfolding(crate::specs::Printed::string_text))]
    pub fn put_string(&mut self, text: &[u8]) -> Result<(), NoMemory>
        ensures { Appends self.old self.new (string_text text.now) result }
    {
        self.reserve_wide(string_length(text))?;
        self.push(b'"')?;
        for byte in text {
            self.put_escaped(*byte)?;
        }
        self.push(b'"')
    }

    /// Puts a name of a file at the end as it is printed: as it is where it isn't empty and all its bytes
    /// are 0x21 to 0x7E other than `"` and `;`, and else as a string.
    #[tactic(auto, unfolding(crate::specs::Printed::name_text))]
    pub fn put_name(&mut self, name: &[u8]) -> Result<(), NoMemory>
        ensures { Appends self.old self.new (name_text name.now) result }
    {
        if is_bare_text(name) {
            self.put(name)
        } else {
            self.put_string(name)
        }
    }
}
