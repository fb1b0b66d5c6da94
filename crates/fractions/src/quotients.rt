//! Comparing quotients, with no product that could be wide.

ghost use Rattle.std.specs.Prelude.{◌≡◌, pos, ◌*ℤ◌, ◌<ℤ◌};
ghost use Rattle.std.specs.Ordering.{int_cmp};

use std::cmp::Ordering;

/// Compares `a / b` with `c / d`, whose divisors are positive: by whole quotients, and where these are
/// equal by the remainders, turned over.
pub fn compare_quotients(a: i128, b: i128, c: i128, d: i128) -> Ordering
    requires b_positive { pos 0 <ℤ b }
    requires d_positive { pos 0 <ℤ d }
    ensures { result ≡ int_cmp (a *ℤ d) (c *ℤ b) }
{
    let left = a.div_euclid(b);
    let right = c.div_euclid(d);
    if left != right {
        return left.cmp(&right);
    }
    let left_rest = a.rem_euclid(b);
    let right_rest = c.rem_euclid(d);
    if left_rest == 0 || right_rest == 0 {
        return left_rest.cmp(&right_rest);
    }
    compare_quotients(d, right_rest, b, left_rest)
}
