//! Whole numbers of a point text.

ghost use Rattle.std.specs.Prelude.{◌≡◌, ◌+◌, ◌-◌, ◌*◌, ◌^◌, ◌≤◌, IfSome, IfNone};
ghost use Rattle.text_grammar.specs.Digits.{value_after};
ghost use Rattle.gdp_grammar.specs.PointReading.{integer_value as integer_value_of, over_value as over_value_of};
ghost use Rattle.gdp_lines.specs.PointLines.{integer};

use crate::point_form::Integer;

/// The number and one digit more, below 2^128.
fn push_digit(size: u128, digit: u8) -> Option<u128>
    ensures some { IfSome result (λ n. n ≡ size * 10 + (digit - 48)) }
    ensures none { IfNone result (2 ^ 128 ≤ size * 10 + (digit - 48)) }
{
    size.checked_mul(10)?
        .checked_add(u128::from(digit.saturating_sub(b'0')))
}

/// The number that digits spell, below 2^128.
fn size_of(digits: &[u8]) -> Option<u128>
    ensures some { IfSome result (λ n. n ≡ value_after 0 digits.now) }
    ensures none { IfNone result (2 ^ 128 ≤ value_after 0 digits.now) }
{
    let mut size = 0;
    'digits: for digit in digits {
        match push_digit(size, *digit) {
            Some(more) => size = more,
            None => return None,
        }
    }
    Some(size)
}

/// The value of a whole number, if it is in the range of `i128`.
pub fn integer_value(number: &Integer<'_>) -> Option<i128>
    ensures { result ≡ integer_value_of (integer number.now) }
{
    let Some(size) = size_of(number.digits) else {
        return None;
    };
    if number.is_negative {
        return 0i128.checked_sub_unsigned(size);
    }
    0i128.checked_add_unsigned(size)
}

/// The denominator that digits spell: at least 1 and in the range of `i128`.
pub fn over_value(digits: &[u8]) -> Option<i128>
    ensures { result ≡ over_value_of digits.now }
{
    let Some(size) = size_of(digits) else {
        return None;
    };
    if size == 0 {
        return None;
    }
    0i128.checked_add_unsigned(size)
}
