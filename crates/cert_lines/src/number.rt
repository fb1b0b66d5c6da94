//! Numbers that are spelled exactly.

ghost use Rattle.std.specs.Prelude.{◌≡◌, nat_lt, length, true};
ghost use Rattle.std.specs.List.{list_all};
ghost use Rattle.text_grammar.specs.Bytes.{is_digit};
ghost use Rattle.text_grammar.specs.Digits.{value_of};
ghost use Rattle.cert_grammar.specs.Wholes.{natural_of, negative_of, positive_of, whole_of};
ghost use Rattle.cert_grammar.specs.Wholes.{is_exact as is_exact_spelling};
ghost use Rattle.cert_lines.specs.Reads.{natural_read, whole_read, digits_less};

use text_reader::size_of;

/// A natural number of 32 bits, if the word spells one.
#[derive(Clone, Copy)]
pub enum Natural {
    /// The word spells no number.
    Malformed,
    /// The number doesn't fit.
    Wide,
    /// The number.
    Is(u32),
}

/// A whole number of 128 bits, if the word spells one.
#[derive(Clone, Copy)]
pub enum Whole {
    /// The word spells no number.
    Malformed,
    /// The number doesn't fit.
    Wide,
    /// The number.
    Is(i128),
}

// Whether each byte is a digit.
fn are_digits(word: &[u8]) -> bool
    ensures { result ≡ list_all is_digit word.now }
{
    word.iter().all(|byte| byte.is_ascii_digit())
}

/// Whether the word spells a natural number exactly.
pub fn is_exact(word: &[u8]) -> bool
    ensures { result ≡ is_exact_spelling word.now }
{
    match word {
        [] => false,
        [digit] => digit.is_ascii_digit(),
        [b'0', ..] => false,
        _ => are_digits(word),
    }
}

/// The natural number that a word spells.
pub fn read_natural(word: &[u8]) -> Natural
    ensures { result ≡ natural_read (natural_of word.now) }
{
    if !is_exact(word) {
        return Natural::Malformed;
    }
    match size_of(word) {
        None => Natural::Wide,
        Some(size) => {
            if size < 4_294_967_296 {
                Natural::Is(size as u32)
            } else {
                Natural::Wide
            }
        }
    }
}

// The number that digits spell behind a `-`.
fn read_negative(digits: &[u8]) -> Whole
    ensures { result ≡ whole_read (negative_of (natural_of digits.now)) }
{
    if !is_exact(digits) {
        return Whole::Malformed;
    }
    match size_of(digits) {
        None => Whole::Wide,
        Some(0) => Whole::Malformed,
        Some(size) => match 0i128.checked_sub_unsigned(size) {
            None => Whole::Wide,
            Some(number) => Whole::Is(number),
        },
    }
}

// The number that digits spell.
fn read_positive(digits: &[u8]) -> Whole
    ensures { result ≡ whole_read (positive_of (natural_of digits.now)) }
{
    if !is_exact(digits) {
        return Whole::Malformed;
    }
    match size_of(digits) {
        None => Whole::Wide,
        Some(size) => match 0i128.checked_add_unsigned(size) {
            None => Whole::Wide,
            Some(number) => Whole::Is(number),
        },
    }
}

/// The whole number that a word spells.
pub fn read_whole(word: &[u8]) -> Whole
    ensures { result ≡ whole_read (whole_of word.now) }
{
    match word {
        [] => Whole::Malformed,
        [b'-', digits @ ..] => read_negative(digits),
        _ => read_positive(word),
    }
}

// Whether digits come before others of the same number.
fn is_before(left: &[u8], right: &[u8]) -> bool
    requires { length left.now ≡ length right.now }
    ensures { result ≡ digits_less left.now right.now }
{
    'digits: for (place, digit) in left.iter().enumerate() {
        if *digit != right[place] {
            return *digit < right[place];
        }
    }
    false
}

/// Whether one number is less than another, both spelled exactly, however long they are.
#[tactic(auto, using(crate::proofs::Digits::less_shorter, crate::proofs::Digits::less_longer, crate::proofs::Digits::less_same))]
pub fn is_less(left: &[u8], right: &[u8]) -> bool
    requires left { is_exact_spelling left.now ≡ true }
    requires right { is_exact_spelling right.now ≡ true }
    ensures { result ≡ nat_lt (value_of left.now) (value_of right.now) }
{
    if left.len() < right.len() {
        return true;
    }
    if left.len() > right.len() {
        return false;
    }
    is_before(left, right)
}
