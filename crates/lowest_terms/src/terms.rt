//! Lowest terms.

ghost use Rattle.std.specs.Prelude.{◌≡◌, ◌+◌, ◌*ℤ◌, ◌<ℤ◌, ◌≤ℤ◌, ◌<◌, ℕ, suc, pos, length, unsigned_abs, IfOk, slice_index_or};
ghost use Rattle.std.specs.Int.{◌∣◌};
ghost use Rattle.int_linear.specs.Divisors.{IsRowGcd};
ghost use Rattle.int_linear.specs.Sums.{at as at_place};
ghost use Rattle.lowest_terms.specs.Terms.{row_of, IsLowestOf};

use fractions::{divisor_of_both, exact_quotient};
use lp_rows::{Point, PointError};
use outcomes::Memory;
use std::alloc::Global;

/// The point in lowest terms.
pub fn lowest_of(alloc: Global, point: &Point) -> Result<Point, Memory>
    ensures { IfOk result (IsLowestOf point.now) }
{
    let divisor = divisor(point);
    let over = exact_quotient(point.over(), divisor);
    let nums = quotients(alloc, point.nums(), divisor)?;
    match Point::make(alloc, over, nums.as_slice()) {
        Ok(lowest) => Ok(lowest),
        Err(PointError::Over) => unreachable!(),
        Err(PointError::Memory) => Err(Memory),
    }
}

// The greatest number that divides the denominator and each numerator.
fn divisor(point: &Point) -> i128
    ensures positive { pos 0 <ℤ result }
    ensures greatest { IsRowGcd (length point.now.nums + 1) (row_of point.now) (unsigned_abs result) }
{
    let mut divisor = point.over();
    for number in point.nums() {
        divisor = divisor_of_both(divisor, *number);
    }
    divisor
}

// Each number over a divisor of all.
fn quotients(alloc: Global, nums: &[i128], divisor: i128) -> Result<Vec<i128>, Memory>
    requires positive { pos 0 <ℤ divisor }
    requires divides { (k : ℕ) → k < length nums.now → unsigned_abs divisor ∣ unsigned_abs (at_place nums.now k) }
    ensures count { IfOk result (λ out. length out.items ≡ length nums.now) }
    ensures same { IfOk result (λ out. (k : ℕ) → k < length nums.now → at_place out.items k *ℤ divisor ≡ at_place nums.now k) }
{
    let mut out = Vec::new(alloc);
    for number in nums {
        let quotient = exact_quotient(*number, divisor);
        if out.push(quotient).is_err() {
            return Err(Memory);
        }
    }
    Ok(out)
}
