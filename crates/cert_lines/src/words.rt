//! The lines of an exact text, and the words of a line.

ghost use Rattle.std.specs.Prelude.{◌≡◌, ◌<◌, [], ◌∷◌, length};
ghost use Rattle.std.specs.Option.{MatchOption};
ghost use Rattle.cert_grammar.specs.ExactLines.{parts_of, pieces_of};

use std::marker::Model;
use text_reader::{ByteTest, Inline, split_front};

/// What stands in a word: all but the blank.
pub struct WordBytes;

impl ByteTest for WordBytes {
    ghost use Rattle.cert_lines.specs.Words.{is_word_byte};

    ghost test = { is_word_byte };

    fn holds(byte: u8) -> bool {
        byte != b' '
    }
}

/// The words of a line that are left to read.
#[derive(Drop)]
pub struct Words<'a> {
    bytes: &'a [u8],
    some: bool,
}

impl<'a> Model for Words<'a> {
    ghost use Rattle.std.specs.Prelude.{ℕ, List};
    ghost use Rattle.cert_lines.specs.Words.{words_left};

    ghost Value = { List (List ℕ) };

    ghost view = { λ w. words_left w.some w.bytes.now };
}

impl<'a> Words<'a> {
    /// The words of a line.
    pub fn new(line: &'a [u8]) -> Words<'a>
        ensures { result ≡ parts_of line.now }
    {
        Words {
            bytes: line,
            some: true,
        }
    }

    /// Takes the first of the words that are left.
    pub fn next(&mut self) -> Option<&'a [u8]>
        ensures { MatchOption result ((self.old ≡ []) × (self.new ≡ [])) (λ w. self.old ≡ w.now ∷ self.new) }
    {
        if !self.some {
            return None;
        }
        let (word, rest) = split_front::<WordBytes>(self.bytes);
        match rest {
            [] => {
                self.some = false;
                Some(word)
            }
            [_, behind @ ..] => {
                self.bytes = behind;
                Some(word)
            }
        }
    }
}

/// The first line of a text, whether a newline ends it, and the text after it.
pub fn first_piece(text: &[u8]) -> (&[u8], bool, &[u8])
    requires { 0 < length text.now }
    ensures lines { pieces_of text.now ≡ (result.0.now, result.1) ∷ pieces_of result.2.now }
    ensures shorter { length result.2.now < length text.now }
{
    let (line, rest) = split_front::<Inline>(text);
    match rest {
        [] => (line, false, rest),
        [_, behind @ ..] => (line, true, behind),
    }
}
