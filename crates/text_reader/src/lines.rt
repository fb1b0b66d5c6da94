//! The first line of a text, and of a text that comes in pieces the first that has come whole.

ghost use Rattle.std.specs.Prelude.{◌≡◌, ◌<◌, [], ◌∷◌, length, None, IfSome};
ghost use Rattle.text_grammar.specs.Feeding.{whole_lines, left_over};
ghost use Rattle.text_grammar.specs.Lines.{lines_of};
ghost use Rattle.text_grammar.specs.Lines.{without_return as before_return};

use crate::bytes::{Inline, split_front};

// The line without a carriage return at its end.
fn without_return(line: &[u8]) -> &[u8]
    ensures { result.now ≡ before_return line.now }
{
    if line.is_empty() {
        return line;
    }
    let last = line.len() - 1;
    if line[last] != b'\r' {
        return line;
    }
    &line[..last]
}

/// The first line of a text, and the text after it.
pub fn first_line(text: &[u8]) -> (&[u8], &[u8])
    requires { 0 < length text.now }
    ensures lines { lines_of text.now ≡ result.0.now ∷ lines_of result.1.now }
    ensures shorter { length result.1.now < length text.now }
{
    let (line, rest) = split_front::<Inline>(text);
    if rest.is_empty() {
        return (line, rest);
    }
    (without_return(line), &rest[1..])
}

/// The first line of a text that a newline ends, and the text after it; none where there is no newline.
pub fn first_whole_line(text: &[u8]) -> Option<(&[u8], &[u8])>
    ensures lines { IfSome result (λ cut. whole_lines text.now ≡ cut.0.now ∷ whole_lines cut.1.now) }
    ensures left { IfSome result (λ cut. left_over text.now ≡ left_over cut.1.now) }
    ensures shorter { IfSome result (λ cut. length cut.1.now < length text.now) }
    ensures none { result ≡ None → (whole_lines text.now ≡ []) × (left_over text.now ≡ text.now) }
{
    let (line, rest) = split_front::<Inline>(text);
    if rest.is_empty() {
        return None;
    }
    Some((without_return(line), &rest[1..]))
}
