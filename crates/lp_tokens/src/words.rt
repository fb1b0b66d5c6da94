//! Words that open sections, and words of what isn't supported, large or small.

ghost use Rattle.std.specs.Prelude.{◌≡◌, true};
ghost use Rattle.lp_grammar.specs.Items.{
  is_word as is_word_of,
  section_of,
  are_constraints as are_constraints_of,
  is_barred_word as is_barred_of,
  are_barred_words as are_barred_of,
};
ghost use Rattle.lp_grammar.specs.Taking.{is_infinite_word as is_infinite_of, is_free_word as is_free_of};

use lp_grammar::Section;

// Whether the name is the word, which has small letters alone, the case of letters ignored.
fn is_word(word: &[u8], name: &[u8]) -> bool
    requires { is_word_of word.now word.now ≡ true }
    ensures { result ≡ is_word_of word.now name.now }
{
    name.eq_ignore_ascii_case(word)
}

/// The section that a word opens.
pub fn section(name: &[u8]) -> Option<Section>
    ensures { result ≡ section_of name.now }
{
    if is_word(b"minimize", name) || is_word(b"minimum", name) || is_word(b"min", name) {
        return Some(Section::Minimize);
    }
    if is_word(b"maximize", name) || is_word(b"maximum", name) || is_word(b"max", name) {
        return Some(Section::Maximize);
    }
    if is_word(b"st", name) || is_word(b"st.", name) || is_word(b"s.t.", name) {
        return Some(Section::Constraints);
    }
    if is_word(b"bounds", name) || is_word(b"bound", name) {
        return Some(Section::Bounds);
    }
    if is_word(b"general", name) || is_word(b"generals", name) || is_word(b"gen", name) {
        return Some(Section::General);
    }
    if is_word(b"binary", name) || is_word(b"binaries", name) || is_word(b"bin", name) {
        return Some(Section::Binary);
    }
    if is_word(b"end", name) {
        return Some(Section::End);
    }
    None
}

/// Whether the two words open the constraints.
pub fn are_constraints(first: &[u8], second: &[u8]) -> bool
    ensures { result ≡ are_constraints_of first.now second.now }
{
    (is_word(b"subject", first) && is_word(b"to", second))
        || (is_word(b"such", first) && is_word(b"that", second))
}

/// Whether the word is one of what isn't supported.
pub fn is_barred_word(name: &[u8]) -> bool
    ensures { result ≡ is_barred_of name.now }
{
    is_word(b"sos", name)
        || is_word(b"sos1", name)
        || is_word(b"sos2", name)
        || is_word(b"semi", name)
        || is_word(b"semis", name)
}

/// Whether the two words are those of what isn't supported.
pub fn are_barred_words(first: &[u8], second: &[u8]) -> bool
    ensures { result ≡ are_barred_of first.now second.now }
{
    (is_word(b"lazy", first) && is_word(b"constraints", second))
        || (is_word(b"user", first) && is_word(b"cuts", second))
}

/// Whether the word is infinity in a bound.
pub fn is_infinite_word(name: &[u8]) -> bool
    ensures { result ≡ is_infinite_of name.now }
{
    is_word(b"inf", name) || is_word(b"infinity", name)
}

/// Whether the word frees a column in a bound.
pub fn is_free_word(name: &[u8]) -> bool
    ensures { result ≡ is_free_of name.now }
{
    is_word(b"free", name)
}
