//! The lines of an answer before its nodes.

ghost use Rattle.std.specs.Prelude.{◌≡◌, ◌<◌, [], ◌∷◌, None, Some, IfSome, length, slice_index_or};
ghost use Rattle.std.specs.Option.{MatchOption};
ghost use Rattle.cert_grammar.specs.Answers.{named_number as named_number_of, place_from};
ghost use Rattle.cert_grammar.specs.Answers.{are_two as are_these_two, is_one as is_this_one, second_of as second_word, is_filled as has_byte, on_name as name_on};
ghost use Rattle.cert_grammar.specs.Claims.{route_of};
ghost use Rattle.cert_grammar.specs.ExactLines.{parts_of};
ghost use Rattle.cert_lines.specs.LineReads.{over_result, over_of};

use crate::number::{Whole, read_whole};
use crate::words::Words;
use answers::Route;
use cert_grammar::CertCause;
use gdp_io::Name;

/// Whether a line has these two words.
pub fn are_two(first: &[u8], second: &[u8], line: &[u8]) -> bool
    ensures { result ≡ are_these_two first.now second.now (parts_of line.now) }
{
    let mut words = Words::new(line);
    let Some(one) = words.next() else {
        return false;
    };
    let Some(other) = words.next() else {
        return false;
    };
    match words.next() {
        None => one == first && other == second,
        Some(_) => false,
    }
}

/// Whether a line has this word alone.
pub fn is_one(word: &[u8], line: &[u8]) -> bool
    ensures { result ≡ is_this_one word.now (parts_of line.now) }
{
    let mut words = Words::new(line);
    let Some(one) = words.next() else {
        return false;
    };
    match words.next() {
        None => one == word,
        Some(_) => false,
    }
}

/// The second word of a line of two that begins with this one.
pub fn second_of<'a>(first: &[u8], line: &'a [u8]) -> Option<&'a [u8]>
    ensures { MatchOption result (second_word first.now (parts_of line.now) ≡ None) (λ word. second_word first.now (parts_of line.now) ≡ Some word.now) }
{
    let mut words = Words::new(line);
    let Some(one) = words.next() else {
        return None;
    };
    let Some(other) = words.next() else {
        return None;
    };
    match words.next() {
        None => { if one == first { Some(other) } else { None } }
        Some(_) => None,
    }
}

// Whether a word has a byte.
fn is_filled(word: &[u8]) -> bool
    ensures { result ≡ has_byte word.now }
{
    match word {
        [] => false,
        _ => true,
    }
}

/// The name of a line of two words that begins with `on`.
#[tactic(auto, using(crate::proofs::LineReads::on_is, crate::proofs::LineReads::on_other, crate::proofs::LineReads::on_empty))]
pub fn on_name(line: &[u8]) -> Option<&[u8]>
    ensures { MatchOption result (name_on (parts_of line.now) ≡ None) (λ word. name_on (parts_of line.now) ≡ Some word.now) }
{
    let mut words = Words::new(line);
    let Some(one) = words.next() else {
        return None;
    };
    let Some(other) = words.next() else {
        return None;
    };
    match words.next() {
        None => {
            if one != b"on".as_slice() {
                return None;
            }
            if !is_filled(other) {
                return None;
            }
            Some(other)
        }
        Some(_) => None,
    }
}

/// The name at a place, and no bytes behind the last one.
pub fn name_at(names: &[Name], place: usize) -> &[u8]
    ensures { result.now ≡ slice_index_or names.now place [] }
{
    if place < names.len() {
        return names[place].as_slice();
    }
    &[]
}

// The number of a line of these three words.
#[tactic(auto, using(crate::proofs::LineReads::named_first, crate::proofs::LineReads::named_empty, crate::proofs::LineReads::named_spelled, crate::proofs::LineReads::named_other, crate::proofs::LineReads::named_wide, crate::proofs::LineReads::named_wide_other, crate::proofs::LineReads::named_fits))]
fn named_at(
    first: &[u8],
    name: &[u8],
    begins: &[u8],
    named: &[u8],
    number: &[u8],
) -> Result<i128, CertCause>
    ensures { result ≡ named_number_of first.now name.now (begins.now ∷ named.now ∷ number.now ∷ []) }
{
    if begins != first {
        return Err(CertCause::Form);
    }
    if !is_filled(named) {
        return Err(CertCause::Form);
    }
    match read_whole(number) {
        Whole::Malformed => Err(CertCause::Form),
        Whole::Wide => {
            if named == name {
                Err(CertCause::Number)
            } else {
                Err(CertCause::Name)
            }
        }
        Whole::Is(number) => {
            if named == name {
                Ok(number)
            } else {
                Err(CertCause::Name)
            }
        }
    }
}

/// The number of a line on the name that is due.
pub fn named_number(first: &[u8], name: &[u8], line: &[u8]) -> Result<i128, CertCause>
    ensures { result ≡ named_number_of first.now name.now (parts_of line.now) }
{
    let mut words = Words::new(line);
    let Some(begins) = words.next() else {
        return Err(CertCause::Form);
    };
    let Some(named) = words.next() else {
        return Err(CertCause::Form);
    };
    let Some(number) = words.next() else {
        return Err(CertCause::Form);
    };
    match words.next() {
        None => named_at(first, name, begins, named, number),
        Some(_) => Err(CertCause::Form),
    }
}

/// The route that a word names.
pub fn route_named(word: &[u8]) -> Option<Route>
    ensures { result ≡ route_of word.now }
{
    if word == b"bigm".as_slice() {
        return Some(Route::BigM);
    }
    if word == b"hull".as_slice() {
        return Some(Route::Hull);
    }
    if word == b"hybrid".as_slice() {
        return Some(Route::Hybrid);
    }
    if word == b"logic".as_slice() {
        return Some(Route::Logic);
    }
    None
}

// The denominator, at least 1 and in range.
fn over_number(number: Whole) -> Result<i128, CertCause>
    ensures { result ≡ over_result number }
{
    match number {
        Whole::Malformed => Err(CertCause::Form),
        Whole::Wide => Err(CertCause::Number),
        Whole::Is(number) => {
            if number > 0 {
                Ok(number)
            } else {
                Err(CertCause::Number)
            }
        }
    }
}

/// The denominator that a word spells.
#[tactic(auto, using(crate::proofs::LineReads::over_is))]
pub fn read_over(word: &[u8]) -> Result<i128, CertCause>
    ensures { result ≡ over_of word.now }
{
    over_number(read_whole(word))
}

/// The place of a name from a place on.
#[tactic(auto, using(crate::proofs::LineReads::place_found, crate::proofs::LineReads::place_past, crate::proofs::LineReads::place_start, crate::proofs::LineReads::place_none, crate::proofs::LineReads::place_beyond))]
pub fn find_place(least: usize, name: &[u8], names: &[Name]) -> Option<usize>
    ensures place { result ≡ place_from least 0 name.now names.now }
    ensures within { IfSome result (λ place. place < length names.now) }
{
    if least > names.len() {
        return None;
    }
    'names: for place in least..names.len() {
        if name == names[place].as_slice() {
            return Some(place);
        }
    }
    None
}
