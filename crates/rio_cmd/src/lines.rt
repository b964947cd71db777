//! The lines of a text, and which of them are commands.
ghost use Rattle.std.specs.Prelude.{◌≡◌, ◌<◌, ◌≤◌, ◌↔◌, [], ◌∷◌, ◌==◌, length, position, IsNone, IfSome};
ghost use Rattle.std.specs.Str.Lines.{lines, strip_carriage_return};
ghost use Rattle.rio_step.specs.Script.{is_command_line};

/// Whether a line is a command: not an empty one, nor one that begins with `#`.
pub(crate) fn is_command_line(line: &[u8]) -> bool
    ensures { result ≡ is_command_line line.now }
{
    !matches!(line, [] | [b'#', ..])
}

// Where the first line feed stands.
fn line_feed_in(bytes: &[u8]) -> Option<usize>
    ensures place { result ≡ position (λ b. b == 10) bytes.now }
    ensures within { IfSome result (λ k. k < length bytes.now) }
{
    bytes.iter().position(|byte| *byte == b'\n')
}

// The line without the carriage return at its end, if there is one.
fn without_carriage_return(line: &[u8]) -> &[u8]
    ensures text { result.now ≡ strip_carriage_return line.now }
    ensures no_longer { length result.now ≤ length line.now }
{
    match line {
        [text @ .., b'\r'] => text,
        _ => line,
    }
}

/// The first line of a text, and what stands behind it. A line ends with a line feed, before which one
/// carriage return is dropped; the last one may lack it. An empty text has no lines.
pub(crate) fn split_line(bytes: &[u8]) -> Option<(&[u8], &[u8])>
    ensures none { IsNone result ↔ (bytes.now ≡ []) }
    ensures lines { IfSome result (λ parts. lines bytes.now ≡ parts.0.now ∷ lines parts.1.now) }
    ensures within { IfSome result (λ parts. length parts.0.now ≤ length bytes.now) }
    ensures less { IfSome result (λ parts. length parts.1.now < length bytes.now) }
{
    if bytes.is_empty() {
        return None;
    }
    match line_feed_in(bytes) {
        Some(end) => Some((without_carriage_return(&bytes[..end]), &bytes[end + 1..])),
        None => Some((bytes, &[])),
    }
}
