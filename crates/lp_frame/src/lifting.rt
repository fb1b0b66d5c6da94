//! From the split columns back to the columns: a point, a ray, and a single column.

ghost use Rattle.std.specs.Prelude.{◌≡◌, ◌≤◌, ◌<◌, ◌+◌, true, length, pos, ◌≤ℤ◌, All, IfOk};
ghost use Rattle.int_linear.specs.Sums.{at};
ghost use Rattle.lp_frame.specs.Split.{place, width_of, joined, AreLifted, IsPartOf};
ghost use Rattle.lp_frame.specs.Force.{is_bounded};
ghost use Rattle.lp_frame.specs.Standard.{IsLifted, KeepsPoint};

use crate::force::Force;
use crate::sizes::width;
use lp_rows::{Col, Nums, Point, Sign};
use outcomes::Memory;
use std::alloc::Global;

/// The point over the columns: the differences of plus and minus on free columns, the same numbers on others. The
/// split point's numerators are not negative, so no difference can be wide.
pub fn lift(alloc: Global, force: &Force, split: &Point) -> Result<Point, Memory>
    requires count { length split.now.nums ≡ place force.now.cols (length force.now.cols) }
    requires signs { All (λ n. pos 0 ≤ℤ n) split.now.nums }
    ensures lifted { IfOk result (IsLifted force.now.cols split.now) }
    ensures keeps { IfOk result (λ point. is_bounded force.now ≡ true → KeepsPoint force.now split.now point) }
{
    let nums = lifted_nums(alloc, force.cols.as_slice(), split.nums())?;
    let Ok(point) = Point::make(alloc, split.over(), &nums) else {
        return Err(Memory);
    };
    Ok(point)
}

/// The ray over the columns, by the same differences. The split ray's numbers are not negative, so no difference can be
/// wide.
pub fn lift_ray(alloc: Global, force: &Force, split: &Nums) -> Result<Nums, Memory>
    requires count { length split.now ≡ place force.now.cols (length force.now.cols) }
    requires signs { All (λ n. pos 0 ≤ℤ n) split.now }
    ensures { IfOk result (AreLifted force.now.cols split.now) }
{
    let nums = lifted_nums(alloc, force.cols.as_slice(), split.as_slice())?;
    Ok(Nums::from_vec(nums))
}

/// The column that became this split column.
pub fn column_of(cols: &[Col], split: usize) -> usize
    requires { split < place cols.now (length cols.now) }
    ensures { IsPartOf cols.now split result }
{
    let mut left = split;
    for j in 0..cols.len() {
        let columns = width(cols[j].sign);
        if left < columns {
            return j;
        }
        left -= columns;
    }
    cols.len()
}

fn lifted_nums(alloc: Global, cols: &[Col], split: &[i128]) -> Result<Vec<i128>, Memory>
    requires count { length split.now ≡ place cols.now (length cols.now) }
    requires signs { All (λ n. pos 0 ≤ℤ n) split.now }
    ensures { IfOk result (λ nums. AreLifted cols.now split.now nums.items) }
{
    let mut nums = Vec::new(alloc);
    let mut place = 0;
    for col in cols {
        nums.push(joined_at(col.sign, split, place))?;
        place += width(col.sign);
    }
    Ok(nums)
}

// The number of a column whose columns begin at this place.
fn joined_at(sign: Sign, split: &[i128], place: usize) -> i128
    requires within { place + width_of sign ≤ length split.now }
    requires signs { All (λ n. pos 0 ≤ℤ n) split.now }
    ensures { result ≡ joined sign (at split.now) place }
{
    match sign {
        Sign::Free => split[place] - split[place + 1],
        Sign::Nonneg => split[place],
    }
}
