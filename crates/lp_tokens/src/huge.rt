//! Numbers that count as infinite in a bound.

ghost use Rattle.std.specs.Prelude.{◌≡◌, ◌+◌, ◌-◌, ◌*◌, ◌^◌, ◌<◌, ◌≤◌, ◌==◌, not, length, take};
ghost use Rattle.std.specs.List.{list_any};
ghost use Rattle.text_grammar.specs.Digits.{value_of};
ghost use Rattle.lp_grammar.specs.Taking.{is_huge as is_huge_of};
ghost use Rattle.lp_tokens.specs.Far.{capped, far_of};
ghost use Rattle.lp_tokens.specs.Views.{numeral};

use crate::token::Numeral;
use text_reader::size_of;

/// 2^100, in place of a greater exponent.
const MOST: u128 = 1_267_650_600_228_229_401_496_703_205_376;

/// The number that digits spell, or 2^100 in place of a greater one.
fn capped_value(digits: &[u8]) -> u128
    ensures capped { result ≡ capped (value_of digits.now) }
    ensures small { result ≤ 2 ^ 100 }
{
    match size_of(digits) {
        Some(size) if size <= MOST => size,
        _ => MOST,
    }
}

/// Where the first of so many digits end.
fn end_at(digits: &[u8], count: u128) -> usize
    ensures within { result ≤ length digits.now }
    ensures same { take result digits.now ≡ take count digits.now }
    ensures short { length digits.now < 2 ^ 64 }
{
    if count < digits.len() as u128 {
        count as usize
    } else {
        digits.len()
    }
}

/// Whether a digit other than 0 is among the first of these.
fn has_digit(digits: &[u8], count: u128) -> bool
    ensures has { result ≡ list_any (λ d. not (d == 48)) (take count digits.now) }
    ensures short { length digits.now < 2 ^ 64 }
{
    let end = end_at(digits, count);
    digits[..end].iter().any(|digit| *digit != b'0')
}

/// How many digits, of so many before the point, stand more than 20 places before it once it is moved.
fn far_count(is_negative: bool, before: usize, moves: u128) -> u128
    requires { moves ≤ 2 ^ 100 }
    ensures { result ≡ far_of is_negative before moves }
{
    let before = before as u128;
    if is_negative {
        before.saturating_sub(20 + moves)
    } else {
        (before + moves).saturating_sub(20)
    }
}

/// Whether the number counts as infinite in a bound.
pub fn is_huge(number: &Numeral<'_>) -> bool
    ensures { result ≡ is_huge_of (numeral number.now) }
{
    let before = number.digits.len();
    let moves = capped_value(number.exponent.digits);
    let count = far_count(number.exponent.is_negative, before, moves);
    let is_in_digits = has_digit(number.digits, count);
    let is_in_places = has_digit(number.places, count.saturating_sub(before as u128));
    is_in_digits || is_in_places
}
