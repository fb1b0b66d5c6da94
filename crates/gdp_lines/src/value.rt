//! The values of numbers.

ghost use Rattle.std.specs.Prelude.{◌≡◌, ◌^◌, ◌≤◌, ◌+◌, ◌-◌, ◌*◌, pos};
ghost use Rattle.std.specs.Option.{option_map};
ghost use Rattle.gdp_grammar.specs.Numerals.{over_part as over_part_of, under_part as under_part_of, signed as signed_by, ratio as ratio_of, value_of};
ghost use Rattle.text_grammar.specs.Digits.{value_after};
ghost use Rattle.gdp_grammar.specs.Reading.{signed_whole as whole_of, constant_value as constant_value_of, end_of};
ghost use Rattle.gdp_lines.specs.Lines.{signed};
ghost use Rattle.gdp_lines.specs.Ranges.{in_range};
ghost use Rattle.gdp_lines.specs.Tokens.{spelled};

use crate::form::Signed;
use crate::token::Numeral;
use fractions::Frac;
use gdp_grammar::ReadCause;

/// The greatest of a number's parts.
const LIMIT: u64 = 1_000_000_000_000_000;

/// The most places of a decimal: `LIMIT` is 1 and that many zeros.
const PLACES: usize = 15;

/// The number and one digit more.
fn push_digit(size: u64, digit: u8) -> u64
    requires { size ≤ 10 ^ 15 }
    ensures { result ≡ size * 10 + (digit - 48) }
{
    size * 10 + u64::from(digit.saturating_sub(b'0'))
}

/// The number that digits spell behind a number, if it is in range.
fn size_after(before: u64, digits: &[u8]) -> Option<u64>
    requires { before ≤ 10 ^ 15 }
    ensures { result ≡ in_range (value_after before digits.now) }
{
    let mut size = before;
    'digits: for digit in digits {
        size = push_digit(size, *digit);
        if size > LIMIT {
            return None;
        }
    }
    Some(size)
}

/// The number that digits spell, if it is in range.
fn size_of(digits: &[u8]) -> Option<u64>
    ensures { result ≡ in_range (value_after 0 digits.now) }
{
    size_after(0, digits)
}

/// The number that digits spell with places behind them, if it is in range.
fn size_with(digits: &[u8], places: &[u8]) -> Option<u64>
    ensures { result ≡ in_range (value_after (value_after 0 digits.now) places.now) }
{
    match size_of(digits) {
        Some(size) => size_after(size, places),
        None => None,
    }
}

/// The denominator of a decimal of that many places, if it is in range.
fn power_of(places: usize) -> Option<u64>
    ensures { result ≡ in_range (10 ^ places) }
{
    if places > PLACES {
        return None;
    }
    Some(10u64.pow(places as u32))
}

/// The part of a number above the fraction bar, if it is in range.
fn over_part(number: &Numeral<'_>) -> Option<u64>
    ensures { result ≡ in_range (over_part_of (spelled number.now)) }
{
    match number {
        Numeral::Whole(digits) => size_of(digits),
        Numeral::Fraction(over, _) => size_of(over),
        Numeral::Decimal(digits, places) => size_with(digits, places),
    }
}

/// The part of a number below the fraction bar, if it is in range or 0.
fn under_part(number: &Numeral<'_>) -> Option<u64>
    ensures { result ≡ in_range (under_part_of (spelled number.now)) }
{
    match number {
        Numeral::Whole(_) => Some(1),
        Numeral::Fraction(_, under) => size_of(under),
        Numeral::Decimal(_, places) => power_of(places.len()),
    }
}

/// A number with its sign.
fn with_sign(is_negative: bool, size: u64) -> i128
    ensures { result ≡ signed_by is_negative size }
{
    let size = i128::from(size);
    if is_negative {
        return -size;
    }
    size
}

/// The quotient of two parts in lowest terms, with its sign; None where the lower part is 0.
fn ratio(is_negative: bool, over: u64, under: u64) -> Option<Frac>
    requires over { over ≤ 10 ^ 15 }
    requires under { under ≤ 10 ^ 15 }
    ensures { result ≡ ratio_of is_negative over under }
{
    if under == 0 {
        return None;
    }
    let over = with_sign(is_negative, over);
    Some(Frac::reduced(over, i128::from(under)))
}

/// A whole number as a fraction.
fn whole(number: i128) -> Frac
    ensures { result ≡ record { num = number; den = pos 1 } }
{
    Frac::reduced(number, 1)
}

/// A whole number with its sign.
pub fn signed_whole(is_negative: bool, size: u64) -> Frac
    ensures { result ≡ whole_of is_negative size }
{
    whole(with_sign(is_negative, size))
}

/// The value of a number, if it is in range.
pub fn value(is_negative: bool, number: &Numeral<'_>) -> Option<Frac>
    ensures { result ≡ value_of is_negative (spelled number.now) }
{
    let Some(over) = over_part(number) else {
        return None;
    };
    let Some(under) = under_part(number) else {
        return None;
    };
    ratio(is_negative, over, under)
}

/// An end of a bound.
pub fn end(number: &Option<Signed<'_>>) -> Result<Option<Frac>, ReadCause>
    ensures { result ≡ end_of (option_map signed number.now) }
{
    match number {
        None => Ok(None),
        Some(number) => match value(number.is_negative, &number.size) {
            Some(end) => Ok(Some(end)),
            None => Err(ReadCause::Number),
        },
    }
}

/// The constant of a goal: 0 where none is written.
pub fn constant_value(number: &Option<Signed<'_>>) -> Option<Frac>
    ensures { result ≡ constant_value_of (option_map signed number.now) }
{
    match number {
        None => Some(signed_whole(false, 0)),
        Some(number) => value(number.is_negative, &number.size),
    }
}
