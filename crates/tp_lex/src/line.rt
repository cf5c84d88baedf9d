// The lines of a text.
ghost use Rattle.std.specs.Prelude.{◌≡◌, ◌≢◌, ◌∷◌, ◌<◌, ◌==◌, [], length, position};
ghost use Rattle.std.specs.Str.Lines.{lines, strip_carriage_return};

// The line without the carriage return at its end, if it has one.
fn without_return(line: &[u8]) -> &[u8]
    ensures { result.now ≡ strip_carriage_return line.now }
{
    match line {
        [text @ .., b'\r'] => text,
        _ => line,
    }
}

// How many bytes stand before the first line feed.
fn feed_place(bytes: &[u8]) -> Option<usize>
    ensures { result ≡ position (λ b. b == 10) bytes.now }
{
    bytes.iter().position(|byte| *byte == b'\n')
}

/// The first line of a text, without its end, and what follows. A line ends with a line feed, or with a carriage return and a line
/// feed, which the last may lack.
pub fn first_line(bytes: &[u8]) -> (&[u8], &[u8])
    requires { bytes.now ≢ [] }
    ensures lines { lines bytes.now ≡ result.0.now ∷ lines result.1.now }
    ensures less { length result.1.now < length bytes.now }
{
    match feed_place(bytes) {
        Some(end) => (without_return(&bytes[..end]), &bytes[end + 1..]),
        None => (bytes, &bytes[bytes.len()..]),
    }
}
