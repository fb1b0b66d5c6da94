//! Whether a row holds at a point.

ghost use Rattle.std.specs.Prelude.{◌≡◌, true, pos, Ok, Err, ◌+ℤ◌, ◌*ℤ◌, ◌&&◌, if◌then◌else◌, int_le, length};
ghost use Rattle.int_linear.specs.Sums.{at as at_place};
ghost use Rattle.lp_rows.specs.Holding.{ids_below, sum_or_wide, row_test, stands};

use crate::kinds::Rel;
use crate::points::Point;
use crate::rows::Row;
use fractions::{Wide, add_product};

/// Whether the row holds at the point: whether the sum of its terms at the numerators stands in its relation to
/// the right side times the denominator.
///
/// `Wide` exactly where a product, a partial sum in the order of the terms, or the right side times the
/// denominator leaves the range of `i128`.
pub fn row_holds(row: &Row, at: &Point) -> Result<bool, Wide>
    requires { ids_below (length at.now.nums) row.now.terms ≡ true }
    ensures { result ≡ row_test row.now at.now }
{
    let Ok(sum) = sum_at(row.terms(), at.nums()) else {
        return Err(Wide);
    };
    let Some(right) = row.right().checked_mul(at.over()) else {
        return Err(Wide);
    };
    Ok(compare(row.rel(), sum, right))
}

/// The sum of the terms at these numbers, or `Wide` exactly where a product or a partial sum in the order of the
/// terms leaves the range of `i128`.
pub fn sum_at(terms: &[(u32, i128)], nums: &[i128]) -> Result<i128, Wide>
    requires { ids_below (length nums.now) terms.now ≡ true }
    ensures { result ≡ sum_or_wide terms.now (at_place nums.now) }
{
    let mut sum = 0;
    for term in terms {
        let Some(next) = add_product(sum, term.1, nums[term.0 as usize]) else {
            return Err(Wide);
        };
        sum = next;
    }
    Ok(sum)
}

/// Whether each term names one of the first `count` places.
pub fn are_ids_below<T>(terms: &[(u32, T)], count: usize) -> bool
    ensures { result ≡ ids_below count terms.now }
{
    terms.iter().all(|term| (term.0 as usize) < count)
}

// Whether the sum stands in the relation to the right side.
fn compare(rel: Rel, sum: i128, right: i128) -> bool
    ensures { result ≡ stands rel sum right }
{
    match rel {
        Rel::AtMost => sum <= right,
        Rel::AtLeast => right <= sum,
        Rel::Equal => sum == right,
    }
}
