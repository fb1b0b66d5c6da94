//! The words of a line: its parts between blanks.

ghost use Rattle.std.specs.Prelude.{◌≡◌, ◌↔◌, [], ◌∷◌, IsTrue};
ghost use Rattle.std.specs.Option.{MatchOption};
ghost use Rattle.text_grammar.specs.Words.{words_of, are_words as are_words_of};

use crate::class::split_front;
use gdp_grammar::Class;

/// The first word of a line, and what follows it.
pub fn next_word(line: &[u8]) -> Option<(&[u8], &[u8])>
    ensures { MatchOption result (words_of line.now ≡ []) (λ p. words_of line.now ≡ p.0.now ∷ words_of p.1.now) }
{
    let bytes = split_front(line, Class::Blank).1;
    match bytes {
        [] => None,
        [_, ..] => Some(split_front(bytes, Class::Word)),
    }
}

/// Whether the line has no word.
pub fn is_blank(line: &[u8]) -> bool
    ensures { IsTrue result ↔ (words_of line.now ≡ []) }
{
    next_word(line).is_none()
}

/// Whether the line's words are these two.
pub fn are_words(line: &[u8], first: &[u8], second: &[u8]) -> bool
    ensures { result ≡ are_words_of (words_of line.now) first.now second.now }
{
    let Some((one, rest)) = next_word(line) else {
        return false;
    };
    let Some((other, rest)) = next_word(rest) else {
        return false;
    };
    if next_word(rest).is_some() {
        return false;
    }
    one == first && other == second
}
