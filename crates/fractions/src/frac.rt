//! Fractions in lowest terms.

ghost use Rattle.std.specs.Prelude.{◌≡◌, pos, ◌*ℤ◌, ◌<ℤ◌, ◌⊎◌, IfSome, IfNone, IfOk, is_ok, false};
ghost use Rattle.std.specs.Ordering.{int_cmp};
ghost use Rattle.fractions.specs.Fraction.{
  Fraction,
  IsLowest,
  IsReduced,
  IsFloor,
  IsCeiling,
  fraction_fits,
  sum_num,
  addition_fits,
  multiplication_fits,
};

use crate::divisors::{divisor_of_both, exact_quotient};
use crate::quotients::compare_quotients;
use crate::wide::Wide;
use std::cmp::Ordering;
use std::marker::Model;

/// A fraction in lowest terms, with a denominator of at least 1.
#[derive(Clone, Copy, Debug, PartialEq, Eq)]
pub struct Frac {
    num: i128,
    den: i128,
}

impl Model for Frac {
    ghost use Rattle.fractions.specs.Fraction.{Fraction, IsLowest};

    ghost Value = { Fraction };

    ghost view = { λ f. record { num = f.num; den = f.den } };

    ghost invariant = { λ f. IsLowest (record { num = f.num; den = f.den }) };

    ghost inverse = { λ f. record { num = f.num; den = f.den } };
}

impl Frac {
    /// `num / den` in lowest terms, or None where `den` is 0 or a part of the reduced fraction is wide.
    pub fn new(num: i128, den: i128) -> Option<Frac>
        ensures reduced { IfSome result (IsReduced num den) }
        ensures refused { IfNone result
            ((den ≡ pos 0) ⊎ ((f : Fraction) × IsReduced num den f × (fraction_fits f ≡ false))) }
    {
        if den == 0 {
            return None;
        }
        let divisor = divisor_of_both(den, num);
        let num = num.checked_div(divisor)?;
        let den = den.checked_div(divisor)?;
        Some(Frac { num, den })
    }

    /// `num / den` in lowest terms, for a positive denominator. Nothing is refused: neither part grows, so both fit.
    pub fn reduced(num: i128, den: i128) -> Frac
        requires { pos 0 <ℤ den }
        ensures { IsReduced num den result }
    {
        let common = divisor_of_both(den, num);
        Frac {
            num: exact_quotient(num, common),
            den: exact_quotient(den, common),
        }
    }

    /// The numerator.
    pub fn num(&self) -> i128
        ensures { result ≡ self.now.num }
    {
        self.num
    }

    /// The denominator, at least 1.
    pub fn den(&self) -> i128
        ensures den { result ≡ self.now.den }
        ensures lowest { IsLowest self.now }
    {
        self.den
    }

    /// Compares the values.
    pub fn cmp(&self, other: &Frac) -> Ordering
        ensures { result ≡ int_cmp (self.now.num *ℤ other.now.den) (other.now.num *ℤ self.now.den) }
    {
        compare_quotients(self.num, self.den, other.num, other.den)
    }

    /// The sum, or `Wide` where a product of a numerator and a denominator, their sum or the product of the
    /// denominators is.
    pub fn add(&self, other: &Frac) -> Result<Frac, Wide>
        ensures sum { IfOk result (IsReduced (sum_num self.now other.now) (self.now.den *ℤ other.now.den)) }
        ensures fits { is_ok result ≡ addition_fits self.now other.now }
    {
        let Some(left) = self.num.checked_mul(other.den) else {
            return Err(Wide);
        };
        let Some(right) = other.num.checked_mul(self.den) else {
            return Err(Wide);
        };
        let Some(below) = self.den.checked_mul(other.den) else {
            return Err(Wide);
        };
        let Some(sum) = left.checked_add(right) else {
            return Err(Wide);
        };
        Ok(Frac::reduced(sum, below))
    }

    /// The product, or `Wide` where the product of the numerators or of the denominators is.
    pub fn mul(&self, other: &Frac) -> Result<Frac, Wide>
        ensures product { IfOk result
            (IsReduced (self.now.num *ℤ other.now.num) (self.now.den *ℤ other.now.den)) }
        ensures fits { is_ok result ≡ multiplication_fits self.now other.now }
    {
        let Some(num) = self.num.checked_mul(other.num) else {
            return Err(Wide);
        };
        let Some(den) = self.den.checked_mul(other.den) else {
            return Err(Wide);
        };
        Ok(Frac::reduced(num, den))
    }

    /// The greatest whole number that is at most the fraction.
    pub fn floor(&self) -> i128
        ensures { IsFloor self.now result }
    {
        self.num.div_euclid(self.den)
    }

    /// The least whole number that is at least the fraction.
    pub fn ceil(&self) -> i128
        ensures { IsCeiling self.now result }
    {
        let (num, den) = (self.num, self.den);
        let floor = num.div_euclid(den);
        if num.rem_euclid(den) == 0 {
            floor
        } else {
            floor + 1
        }
    }
}
