//! The values of numbers, without a number wider than 128 bits on the way.
//!
//! A number's exponent moves its point, so that it is a whole number with places behind the point. Places are taken from
//! the last to the first, each time in lowest terms: then the denominator never gets smaller, and a number is out of range
//! as soon as it is.

ghost use Rattle.std.specs.Prelude.{◌≡◌, ◌+◌, ◌-◌, ◌*◌, ◌^◌, ◌≤◌, ◌<◌, pos, ◌&&◌, ◌++◌, ◌⊎◌, length, take, drop, nat_le, replicate, None, if◌then◌else◌, ◌≤ℤ◌, ◌<ℤ◌, unsigned_abs, neg_ℤ, true, Some, IfSome};
ghost use Rattle.std.specs.Int.{IsGcd};
ghost use Rattle.fractions.specs.Fraction.{IsLowest};
ghost use Rattle.lp_rows.specs.Rows.{is_storable};
ghost use Rattle.text_grammar.specs.Digits.{value_of};
ghost use Rattle.lp_grammar.specs.Scaling.{lowest, whole};
ghost use Rattle.lp_grammar.specs.Taking.{if_small, numeral_value, turned_if, or_one};
ghost use Rattle.lp_tokens.specs.Quotients.{reduced as lowest_parts, in_range, places_before, place_before, digits_behind, joined};
ghost use Rattle.lp_tokens.specs.Views.{numeral};

use crate::token::{Exponent, Numeral};
use fractions::Frac;
use fractions::divisors::gcd_of_magnitudes;
use text_reader::size_of;

// The greatest of a number's parts.
const LIMIT: u64 = 1_000_000_000_000_000;

/// The greatest magnitude of an exponent.
const MOST_MOVES: u128 = 40;

/// As many zeros as an exponent may put at an end of a number's digits.
const ZEROS: [u8; 40] = [b'0'; 40];

// The greatest common divisor.
fn divisor(p: u64, q: u64) -> u64
    requires { 0 < q }
    ensures { IsGcd p q result }
{
    gcd_of_magnitudes(u128::from(p), u128::from(q)) as u64
}

/// A quotient in lowest terms.
fn reduced(over: u64, under: u64) -> (u64, u64)
    requires some { 0 < under }
    ensures parts { result ≡ lowest_parts over under }
    ensures some { 0 < result.1 }
    ensures bounded { over ≤ 100 * under → result.0 ≤ 100 * result.1 }
{
    let common = divisor(over, under);
    (over / common, under / common)
}

/// The value of a digit.
fn digit_value(digit: u8) -> u64
    ensures value { result ≡ digit - 48 }
    ensures small { result ≤ 255 }
{
    u64::from(digit.saturating_sub(b'0'))
}

/// The tenth part of the sum of a digit and a quotient, if its denominator is in range.
fn place(digit: u8, behind: (u64, u64)) -> Option<(u64, u64)>
    requires some { 0 < behind.1 }
    requires small { behind.1 ≤ 10 ^ 15 }
    requires bounded { behind.0 ≤ 100 * behind.1 }
    ensures place { result ≡ place_before digit (Some behind) }
    ensures some { IfSome result (λ q. 0 < q.1) }
    ensures small { IfSome result (λ q. q.1 ≤ 10 ^ 15) }
    ensures bounded { IfSome result (λ q. q.0 ≤ 100 * q.1) }
{
    let value = digit_value(digit);
    let quotient = reduced(value * behind.1 + behind.0, 10 * behind.1);
    if quotient.1 > LIMIT {
        return None;
    }
    Some(quotient)
}

/// The quotient behind these places, if its denominator is in range.
fn places(digits: &[u8], behind: (u64, u64)) -> Option<(u64, u64)>
    requires some { 0 < behind.1 }
    requires small { behind.1 ≤ 10 ^ 15 }
    requires bounded { behind.0 ≤ 100 * behind.1 }
    ensures places { result ≡ places_before digits.now (Some behind) }
    ensures some { IfSome result (λ q. 0 < q.1) }
    ensures small { IfSome result (λ q. q.1 ≤ 10 ^ 15) }
    ensures bounded { IfSome result (λ q. q.0 ≤ 100 * q.1) }
{
    let mut quotient = behind;
    let mut end = digits.len();
    'places: while end > 0 {
        end -= 1;
        match place(digits[end], quotient) {
            Some(next) => quotient = next,
            None => return None,
        }
    }
    Some(quotient)
}

/// The number and one digit more.
fn push_digit(size: u64, digit: u8) -> u64
    requires { size ≤ 10 ^ 15 }
    ensures { result ≡ size * 10 + (digit - 48) }
{
    size * 10 + u64::from(digit.saturating_sub(b'0'))
}

/// The number that digits spell behind a number, if it is in range.
fn digits_after(before: u64, digits: &[u8]) -> Option<u64>
    requires { before ≤ 10 ^ 15 }
    ensures size { result ≡ digits_behind (Some before) digits.now }
    ensures small { IfSome result (λ n. n ≤ 10 ^ 15) }
{
    let mut size = before;
    'digits: for digit in digits {
        size = push_digit(size, *digit);
        if size > LIMIT {
            return None;
        }
    }
    Some(size)
}

/// The quotient of two numbers in lowest terms.
fn in_lowest_terms(over: i128, under: i128) -> Frac
    requires over { pos 0 ≤ℤ over }
    requires under { pos 0 <ℤ under }
    ensures { result ≡ lowest over (unsigned_abs under) }
{
    Frac::reduced(over, under)
}

/// The number 0 or 1.
pub fn whole_number(number: u8) -> Frac
    requires { number ≤ 1 }
    ensures whole { result ≡ whole (pos number) }
    ensures small { is_storable result.num ≡ true }
{
    if number == 0 {
        return in_lowest_terms(0, 1);
    }
    in_lowest_terms(1, 1)
}

/// The number with the other sign.
fn opposite(number: i128) -> i128
    requires { is_storable number ≡ true }
    ensures { result ≡ neg_ℤ number }
{
    -number
}

/// The fraction with the other sign.
fn turned(fraction: Frac) -> Frac
    requires { is_storable fraction.num ≡ true }
    ensures { result ≡ record { num = neg_ℤ fraction.num; den = fraction.den } }
{
    Frac::reduced(opposite(fraction.num()), fraction.den())
}

/// The fraction, with the other sign where it is to be turned.
pub fn turn_if(is_turned: bool, fraction: Frac) -> Frac
    requires { is_storable fraction.num ≡ true }
    ensures { result ≡ turned_if is_turned fraction }
{
    if is_turned {
        turned(fraction)
    } else {
        fraction
    }
}

/// The number 1, or -1.
pub fn signed_one(is_negative: bool) -> Frac
    ensures { result ≡ turned_if is_negative (whole (pos 1)) }
{
    turn_if(is_negative, whole_number(1))
}

/// The value, or 1 in place of one that is out of range, with its sign.
pub fn signed_or_one(is_negative: bool, value: Option<Frac>) -> Frac
    requires { IfSome value (λ f. is_storable f.num ≡ true) }
    ensures { result ≡ turned_if is_negative (or_one value) }
{
    match value {
        None => signed_one(is_negative),
        Some(value) => turn_if(is_negative, value),
    }
}

/// Whether both parts of a fraction are in range.
fn is_small(fraction: &Frac) -> bool
    ensures { result ≡ (is_storable fraction.now.num && is_storable fraction.now.den) }
{
    let limit = u128::from(LIMIT);
    fraction.num().unsigned_abs() <= limit && fraction.den().unsigned_abs() <= limit
}

/// The numerator of the sum of a whole number and a quotient, and its denominator.
fn sum_parts(whole: u64, quotient: (u64, u64)) -> (i128, i128)
    requires whole { whole ≤ 10 ^ 15 }
    requires small { quotient.1 ≤ 10 ^ 15 }
    requires bounded { quotient.0 ≤ 100 * quotient.1 }
    ensures over { result.0 ≡ pos (whole * quotient.1 + quotient.0) }
    ensures under { result.1 ≡ pos quotient.1 }
{
    let under = i128::from(quotient.1);
    (i128::from(whole) * under + i128::from(quotient.0), under)
}

/// The sum of a whole number and a quotient, if its parts in lowest terms are in range.
fn sum(whole: u64, quotient: (u64, u64)) -> Option<Frac>
    requires whole { whole ≤ 10 ^ 15 }
    requires some { 0 < quotient.1 }
    requires small { quotient.1 ≤ 10 ^ 15 }
    requires bounded { quotient.0 ≤ 100 * quotient.1 }
    ensures value { result ≡ joined (Some whole) (Some quotient) }
    ensures small { IfSome result (λ f. is_storable f.num ≡ true) }
{
    let (over, under) = sum_parts(whole, quotient);
    let sum = in_lowest_terms(over, under);
    if is_small(&sum) { Some(sum) } else { None }
}

/// So many zeros.
fn zeros(count: usize) -> &'static [u8]
    requires { count ≤ 40 }
    ensures { result.now ≡ replicate count 48 }
{
    &ZEROS[..count]
}

/// An exponent's magnitude, if it is in range.
fn moves(digits: &[u8]) -> Option<usize>
    ensures { result ≡ (if nat_le (value_of digits.now) 40 then Some (value_of digits.now) else None) }
{
    match size_of(digits) {
        Some(size) if size <= MOST_MOVES => Some(size as usize),
        _ => None,
    }
}

/// The number that three pieces of digits spell, if it is in range.
fn whole(first: &[u8], second: &[u8], third: &[u8]) -> Option<u64>
    ensures whole { result ≡ digits_behind (digits_behind (digits_behind (Some 0) first.now) second.now) third.now }
    ensures small { IfSome result (λ n. n ≤ 10 ^ 15) }
{
    let size = digits_after(0, first)?;
    let size = digits_after(size, second)?;
    digits_after(size, third)
}

/// The quotient behind a point that three pieces of places spell, if its denominator is in range.
#[tactic(auto, using(crate::proofs::Digits::none_stays, crate::proofs::Digits::none_behind))]
fn behind_point(first: &[u8], second: &[u8], third: &[u8]) -> Option<(u64, u64)>
    ensures quotient { result ≡ places_before first.now (places_before second.now (places_before third.now (Some (0, 1)))) }
    ensures some { IfSome result (λ q. 0 < q.1) }
    ensures small { IfSome result (λ q. q.1 ≤ 10 ^ 15) }
    ensures bounded { IfSome result (λ q. q.0 ≤ 100 * q.1) }
{
    match places(third, (0, 1)) {
        None => None,
        Some(third) => match places(second, third) {
            None => None,
            Some(second) => places(first, second),
        },
    }
}

/// The sum of a whole number and a quotient, if each of them is in range, and their sum is.
fn join(whole: Option<u64>, quotient: Option<(u64, u64)>) -> Option<Frac>
    requires whole { IfSome whole (λ n. n ≤ 10 ^ 15) }
    requires some { IfSome quotient (λ q. 0 < q.1) }
    requires small { IfSome quotient (λ q. q.1 ≤ 10 ^ 15) }
    requires bounded { IfSome quotient (λ q. q.0 ≤ 100 * q.1) }
    ensures value { result ≡ joined whole quotient }
    ensures small { IfSome result (λ f. is_storable f.num ≡ true) }
{
    match whole {
        None => None,
        Some(whole) => match quotient {
            None => None,
            Some(quotient) => sum(whole, quotient),
        },
    }
}

/// The digits before a cut, and those behind it.
fn cut_at(digits: &[u8], cut: usize) -> (&[u8], &[u8])
    requires { cut ≤ length digits.now }
    ensures front { result.0.now ≡ take cut digits.now }
    ensures back { result.1.now ≡ drop cut digits.now }
{
    digits.split_at(cut)
}

/// How many of so many digits a point passes.
fn passed(moves: usize, count: usize) -> usize
    ensures within { result ≤ count }
    ensures possible { result ≤ moves }
    ensures all { (moves ≡ result) ⊎ (result ≡ count) }
{
    if moves < count { moves } else { count }
}

/// The value of a number whose exponent moves its point to the right.
fn moved_right(digits: &[u8], places: &[u8], moves: usize) -> Option<Frac>
    requires { moves ≤ 40 }
    ensures value { result ≡ if_small (lowest (pos (value_of (digits.now ++ places.now) * 10 ^ moves)) (10 ^ length places.now)) }
    ensures small { IfSome result (λ f. is_storable f.num ≡ true) }
{
    let cut = passed(moves, places.len());
    let (front, back) = cut_at(places, cut);
    let whole = whole(digits, front, zeros(moves - cut));
    join(whole, behind_point(back, &[], &[]))
}

/// The value of a number whose exponent moves its point to the left.
fn moved_left(digits: &[u8], places: &[u8], moves: usize) -> Option<Frac>
    requires { moves ≤ 40 }
    ensures value { result ≡ if_small (lowest (pos (value_of (digits.now ++ places.now))) (10 ^ length places.now * 10 ^ moves)) }
    ensures small { IfSome result (λ f. is_storable f.num ≡ true) }
{
    let passed = passed(moves, digits.len());
    let (front, back) = cut_at(digits, digits.len() - passed);
    let whole = whole(front, &[], &[]);
    join(whole, behind_point(zeros(moves - passed), back, places))
}

/// The value of a number, if its exponent is at most 40 in magnitude and its parts in lowest terms are at most 10^15.
pub fn value(number: &Numeral<'_>) -> Option<Frac>
    ensures value { result ≡ numeral_value (numeral number.now) }
    ensures small { IfSome result (λ f. is_storable f.num ≡ true) }
{
    match moves(number.exponent.digits) {
        None => None,
        Some(moves) => {
            if number.exponent.is_negative {
                return moved_left(number.digits, number.places, moves);
            }
            moved_right(number.digits, number.places, moves)
        }
    }
}
