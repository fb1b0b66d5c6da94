//! The forms of a point text's lines.

ghost use Rattle.std.specs.Prelude.{◌≡◌};
ghost use Rattle.std.specs.List.{list_all};
ghost use Rattle.model_tree.specs.Names.{has_name_shape as shaped};
ghost use Rattle.gdp_grammar.specs.Classes.{belongs as belongs_of};
ghost use Rattle.gdp_grammar.specs.PointForms.{is_digits as is_digits_of, is_name_word as is_name_word_of, digits_of, signed_digits as signed_digits_of, integer_of, name_in, over_of, val_of, on_of, form_of_two, point_form_of};
ghost use Rattle.text_grammar.specs.Words.{words_of};
ghost use Rattle.text_grammar.specs.Outcomes.{result_map};
ghost use Rattle.gdp_lines.specs.PointLines.{integer, point_form};

use crate::class::belongs;
use crate::form::is_reserved;
use crate::word::next_word;
use gdp_grammar::{Class, ReadCause};

/// A whole number as it is spelled: whether a `-` stands before it, and its digits.
#[derive(Clone, Copy)]
pub struct Integer<'a> {
    pub is_negative: bool,
    pub digits: &'a [u8],
}

/// A line of a point text, by what it says.
#[derive(Clone, Copy)]
pub enum PointForm<'a> {
    Over(&'a [u8]),
    Val(&'a str, Integer<'a>),
    On(&'a str),
    End,
}

/// Whether each byte is a digit.
fn is_each_digit(word: &[u8]) -> bool
    ensures { result ≡ list_all (belongs_of Class.Digit) word.now }
{
    word.iter().all(|byte| belongs(Class::Digit, *byte))
}

/// Whether the bytes are digits, one at least.
fn is_digits(word: &[u8]) -> bool
    ensures { result ≡ is_digits_of word.now }
{
    !word.is_empty() && is_each_digit(word)
}

/// Digits.
fn digits(word: &[u8]) -> Result<&[u8], ReadCause>
    ensures { digits_of word.now ≡ result_map (λ read. read.now) result }
{
    if !is_digits(word) {
        return Err(ReadCause::Form);
    }
    Ok(word)
}

/// Digits behind this sign.
fn signed_digits(is_negative: bool, word: &[u8]) -> Result<Integer<'_>, ReadCause>
    ensures { signed_digits_of is_negative word.now ≡ result_map integer result }
{
    let digits = digits(word)?;
    Ok(Integer {
        is_negative,
        digits,
    })
}

/// Digits with an optional `-` directly before them.
fn signed_integer(word: &[u8]) -> Result<Integer<'_>, ReadCause>
    ensures { integer_of word.now ≡ result_map integer result }
{
    match word {
        [] => Err(ReadCause::Form),
        [b'-', digits @ ..] => signed_digits(true, digits),
        _ => signed_digits(false, word),
    }
}

/// Whether a name may go on with each of these bytes.
fn all_continue(bytes: &[u8]) -> bool
    ensures { result ≡ list_all (belongs_of Class.Name) bytes.now }
{
    bytes.iter().all(|byte| belongs(Class::Name, *byte))
}

/// Whether the bytes have the shape of a name.
fn has_name_shape(bytes: &[u8]) -> bool
    ensures { result ≡ shaped bytes.now }
{
    match bytes {
        [] => false,
        [first, rest @ ..] => belongs(Class::Start, *first) && all_continue(rest),
    }
}

/// Whether the word has the shape of a name, of any length.
fn is_name_word(word: &str) -> bool
    ensures { result ≡ is_name_word_of word.now }
{
    has_name_shape(word.as_bytes()) && !is_reserved(word)
}

/// A name.
fn name(word: &[u8]) -> Result<&str, ReadCause>
    ensures { name_in word.now ≡ result_map (λ name. name.now) result }
{
    let Ok(name) = str::from_utf8(word) else {
        return Err(ReadCause::Form);
    };
    if !is_name_word(name) {
        return Err(ReadCause::Form);
    }
    Ok(name)
}

/// `over D`.
#[tactic(auto, unfolding(gdp_grammar::specs::PointForms::over_of))]
fn over_line(number: &[u8]) -> Result<PointForm<'_>, ReadCause>
    ensures { over_of number.now ≡ result_map point_form result }
{
    let digits = digits(number)?;
    Ok(PointForm::Over(digits))
}

/// `val NAME N`.
#[tactic(auto, unfolding(gdp_grammar::specs::PointForms::val_of))]
fn val_line<'a>(word: &'a [u8], number: &'a [u8]) -> Result<PointForm<'a>, ReadCause>
    ensures { val_of word.now number.now ≡ result_map point_form result }
{
    let name = name(word)?;
    let number = signed_integer(number)?;
    Ok(PointForm::Val(name, number))
}

/// `on NAME`.
#[tactic(auto, unfolding(gdp_grammar::specs::PointForms::on_of))]
fn on_line(word: &[u8]) -> Result<PointForm<'_>, ReadCause>
    ensures { on_of word.now ≡ result_map point_form result }
{
    let name = name(word)?;
    Ok(PointForm::On(name))
}

/// A line of two words.
fn line_of_two<'a>(first: &'a [u8], second: &'a [u8]) -> Result<PointForm<'a>, ReadCause>
    ensures { form_of_two first.now second.now ≡ result_map point_form result }
{
    if first == b"over".as_slice() {
        return over_line(second);
    }
    if first == b"on".as_slice() {
        return on_line(second);
    }
    Err(ReadCause::Form)
}

/// The form of a line.
pub fn read_point_form(line: &[u8]) -> Result<PointForm<'_>, ReadCause>
    ensures { point_form_of (words_of line.now) ≡ result_map point_form result }
{
    let Some((first, rest)) = next_word(line) else {
        return Err(ReadCause::Form);
    };
    let Some((second, rest)) = next_word(rest) else {
        if first == b"end".as_slice() {
            return Ok(PointForm::End);
        }
        return Err(ReadCause::Form);
    };
    let Some((third, rest)) = next_word(rest) else {
        return line_of_two(first, second);
    };
    if next_word(rest).is_some() || first != b"val".as_slice() {
        return Err(ReadCause::Form);
    }
    val_line(second, third)
}
