//! The arithmetic of one entry.

ghost use Rattle.std.specs.Prelude.{◌≡◌, ◌<◌, ◌^◌, false, pos, ◌*ℤ◌, ◌-ℤ◌, ◌<ℤ◌, ◌≤ℤ◌, unsigned_abs, MatchBool, SomeIff, IsTrue, ◌↔◌};
ghost use Rattle.std.specs.Int.{IsGcd, ◌∣◌};
ghost use Rattle.fractions.specs.Width.{IsNarrow};
ghost use Rattle.simplex_rows.specs.Width.{IsFactors, IsNarrowStep};

use fractions::divisors::gcd_of_magnitudes;
use fractions::{divisor_of_both, exact_quotient};

/// The product, or None where it isn't narrow.
#[inline(always)]
pub(crate) fn narrow_product(a: i128, b: i128) -> Option<i128>
    ensures { SomeIff result (IsNarrow (a *ℤ b)) (a *ℤ b) }
{
    match a.checked_mul(b) {
        Some(product) if product != i128::MIN => Some(product),
        _ => None,
    }
}

/// The difference, or None where it isn't narrow.
#[inline(always)]
pub(crate) fn narrow_difference(a: i128, b: i128) -> Option<i128>
    ensures { SomeIff result (IsNarrow (a -ℤ b)) (a -ℤ b) }
{
    match a.checked_sub(b) {
        Some(difference) if difference != i128::MIN => Some(difference),
        _ => None,
    }
}

/// Whether both products of a step and their difference are narrow.
#[inline(always)]
pub(crate) fn is_narrow_step(a: i128, b: i128, entry: i128, pivot: i128) -> bool
    ensures { IsTrue result ↔ IsNarrowStep a b entry pivot }
{
    match narrow_product(a, entry) {
        None => false,
        Some(left) => match narrow_product(b, pivot) {
            None => false,
            Some(right) => match narrow_difference(left, right) {
                None => false,
                Some(_) => true,
            },
        },
    }
}

/// `a * entry - b * pivot`.
#[inline(always)]
pub(crate) fn step_entry(a: i128, b: i128, entry: i128, pivot: i128) -> i128
    requires { IsNarrowStep a b entry pivot }
    ensures { result ≡ a *ℤ entry -ℤ b *ℤ pivot }
{
    a * entry - b * pivot
}

/// Whether the number is negative.
pub(crate) fn is_negative(z: i128) -> bool
    ensures { MatchBool result (z <ℤ pos 0) (pos 0 ≤ℤ z) }
{
    z < 0
}

/// `p` and `f` over their greatest common divisor.
pub fn factors(p: i128, f: i128) -> (i128, i128)
    requires { pos 0 <ℤ p }
    ensures { IsFactors p f result.0 result.1 }
{
    if p == 1 {
        return (1, f);
    }
    let divisor = divisor_of_both(p, f);
    (entry_quotient(p, divisor), entry_quotient(f, divisor))
}

/// The greatest common divisor of a divisor and an entry: one division where the divisor divides the entry.
#[inline(always)]
pub(crate) fn divisor_with(divisor: u128, entry: i128) -> u128
    ensures { IsGcd divisor (unsigned_abs entry) result }
{
    if entry == 0 {
        return divisor;
    }
    gcd_of_magnitudes(entry.unsigned_abs(), divisor)
}

/// Whether the number and its negative fit a word of 64 bits.
#[inline(always)]
fn is_word(z: i128) -> bool
    ensures { IsTrue result ↔ (unsigned_abs z < 2 ^ 63) }
{
    z.unsigned_abs() < 0x8000_0000_0000_0000
}

/// A word over a positive divisor of it.
#[inline(always)]
fn word_quotient(entry: i64, divisor: i64) -> i64
    requires positive { pos 0 <ℤ divisor }
    requires divides { unsigned_abs divisor ∣ unsigned_abs entry }
    ensures { result *ℤ divisor ≡ entry }
{
    entry / divisor
}

/// An entry over a positive divisor of it, as words where both are.
#[inline(always)]
pub(crate) fn entry_quotient(entry: i128, divisor: i128) -> i128
    requires positive { pos 0 <ℤ divisor }
    requires divides { unsigned_abs divisor ∣ unsigned_abs entry }
    ensures { result *ℤ divisor ≡ entry }
{
    if divisor != 1 {
        if is_word(entry) {
            if is_word(divisor) {
                return i128::from(word_quotient(entry as i64, divisor as i64));
            }
        }
    }
    exact_quotient(entry, divisor)
}
