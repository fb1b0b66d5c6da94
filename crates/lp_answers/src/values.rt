//! The value of a file's objective at a point.

ghost use Rattle.std.specs.Prelude.{◌≡◌, ◌<ℤ◌, ◌+ℤ◌, ◌*ℤ◌, ◌&&◌, true, false, pos, length, IfOk, MatchOption, is_ok};
ghost use Rattle.fractions.specs.Fraction.{IsReduced};
ghost use Rattle.fractions.specs.Width.{fits, step_fits};
ghost use Rattle.int_linear.specs.Sums.{at as at_place};
ghost use Rattle.int_linear.specs.Terms.{dot};
ghost use Rattle.lp_rows.specs.Holding.{ids_below, sum_fits};

use fractions::{Frac, Wide, add_product};
use lp_rows::{Point, sum_at};

/// The sum of the terms at the point and the constant, over the scale. `Wide` exactly where one of the numbers that it forms
/// leaves 128 bits: the products and the partial sums in order, then the constant times the denominator and its sum with
/// them, and the scale times the denominator.
pub(crate) fn value_of(
    terms: &[(u32, i128)],
    constant: i128,
    scale: i128,
    at: &Point,
) -> Result<Frac, Wide>
    requires ids { ids_below (length at.now.nums) terms.now ≡ true }
    requires positive { pos 0 <ℤ scale }
    ensures value { IfOk result (IsReduced (dot terms.now (at_place at.now.nums) +ℤ constant *ℤ at.now.over) (scale *ℤ at.now.over)) }
    ensures fits { is_ok result ≡ (sum_fits (pos 0) terms.now (at_place at.now.nums)
        && step_fits (dot terms.now (at_place at.now.nums)) constant at.now.over && fits (scale *ℤ at.now.over)) }
{
    let Ok(sum) = sum_at(terms, at.nums()) else {
        return Err(Wide);
    };
    let over = at.over();
    let Some(above) = add_product(sum, constant, over) else {
        return Err(Wide);
    };
    let Some(below) = product(scale, over) else {
        return Err(Wide);
    };
    Ok(Frac::reduced(above, below))
}

// The product, if it fits 128 bits.
fn product(a: i128, b: i128) -> Option<i128>
    ensures { MatchOption result (fits (a *ℤ b) ≡ false) (λ z. (fits (a *ℤ b) ≡ true) × (z ≡ a *ℤ b)) }
{
    a.checked_mul(b)
}
