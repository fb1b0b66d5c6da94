//! The value of a model's goal at a point.

ghost use Rattle.std.specs.Prelude.{◌≡◌, ◌<ℤ◌, ◌+ℤ◌, ◌*ℤ◌, ◌&&◌, true, pos, length, IfOk, is_ok};
ghost use Rattle.fractions.specs.Fraction.{IsReduced};
ghost use Rattle.fractions.specs.Width.{fits, step_fits};
ghost use Rattle.int_linear.specs.Sums.{at as at_place};
ghost use Rattle.int_linear.specs.Terms.{dot};
ghost use Rattle.lp_rows.specs.Holding.{ids_below, sum_fits};
ghost use Rattle.point_tests.specs.Worth.{IsValueOf, value_fits};

use crate::satisfying::product;
use crate::verdicts::ValueWide;
use fractions::{Frac, add_product};
use lp_rows::{Point, sum_at};
use model_tree::Model;

/// The value of the model's goal at the point: the sum of its terms and its constant, over its scale.
///
/// `ValueWide` exactly where one of the numbers that it forms leaves 128 bits: the products of the coefficients and the
/// point's numerators and their partial sums in order, then the constant times the denominator and its sum with them,
/// and the scale times the denominator.
pub fn value(model: &Model, at: &Point) -> Result<Frac, ValueWide>
    requires { length at.now.nums ≡ length model.now.vars }
    ensures value { IfOk result (IsValueOf model.now.goal at.now) }
    ensures fits { is_ok result ≡ value_fits model.now.goal at.now }
{
    let _ = model.vars();
    goal_value(model.terms(), model.constant(), model.scale(), at)
}

// The sum of the terms at the point and the constant, over the scale.
fn goal_value(
    terms: &[(u32, i128)],
    constant: i128,
    scale: i128,
    at: &Point,
) -> Result<Frac, ValueWide>
    requires ids { ids_below (length at.now.nums) terms.now ≡ true }
    requires positive { pos 0 <ℤ scale }
    ensures value { IfOk result (IsReduced (dot terms.now (at_place at.now.nums) +ℤ constant *ℤ at.now.over) (scale *ℤ at.now.over)) }
    ensures fits { is_ok result ≡ (sum_fits (pos 0) terms.now (at_place at.now.nums)
        && step_fits (dot terms.now (at_place at.now.nums)) constant at.now.over && fits (scale *ℤ at.now.over)) }
{
    let Ok(sum) = sum_at(terms, at.nums()) else {
        return Err(ValueWide);
    };
    let over = at.over();
    let Some(above) = add_product(sum, constant, over) else {
        return Err(ValueWide);
    };
    let Some(below) = product(scale, over) else {
        return Err(ValueWide);
    };
    Ok(Frac::reduced(above, below))
}
