//! Lines of a text, and a line before its comment.

ghost use Rattle.std.specs.Prelude.{◌≡◌, ℕ, ◌<◌, ◌∷◌, ◌==◌, length, not};
ghost use Rattle.text_grammar.specs.Bytes.{front, rest};
ghost use Rattle.text_grammar.specs.Lines.{lines_of, without_return as before_return};
ghost use Rattle.lp_grammar.specs.Tokens.{without_comment as before_comment};

use memchr::memchr;

/// The bytes before the first that is this one, and what follows them.
fn split_before(bytes: &[u8], byte: u8) -> (&[u8], &[u8])
    ensures front { result.0.now ≡ front (λ b. not (b == byte)) bytes.now }
    ensures rest { result.1.now ≡ rest (λ b. not (b == byte)) bytes.now }
{
    let end = memchr(byte, bytes).unwrap_or(bytes.len());
    (&bytes[..end], &bytes[end..])
}

/// The line before its comment.
pub fn without_comment(line: &[u8]) -> &[u8]
    ensures { result.now ≡ before_comment line.now }
{
    split_before(line, b'\\').0
}

/// The line without a carriage return at its end.
fn without_return(line: &[u8]) -> &[u8]
    ensures { result.now ≡ before_return line.now }
{
    if line.is_empty() {
        return line;
    }
    let last = line.len() - 1;
    if line[last] != b'\r' {
        return line;
    }
    &line[..last]
}

/// The first line of a text, and the text after it.
pub fn first_line(text: &[u8]) -> (&[u8], &[u8])
    requires { 0 < length text.now }
    ensures lines { lines_of text.now ≡ result.0.now ∷ lines_of result.1.now }
    ensures shorter { length result.1.now < length text.now }
{
    let (line, rest) = split_before(text, b'\n');
    if rest.is_empty() {
        return (line, rest);
    }
    (without_return(line), &rest[1..])
}
