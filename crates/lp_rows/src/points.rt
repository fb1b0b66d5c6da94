//! Points: whole numerators over one denominator.

ghost use Rattle.std.specs.Prelude.{◌≡◌, ◌≤ℤ◌, pos, IfOk};
ghost use Rattle.outcomes.specs.Calls.{OrMemory};
ghost use Rattle.lp_rows.specs.Points.{point_made};

use crate::lists::Nums;
use outcomes::Memory;
use std::alloc::Global;
use std::marker::Model;

/// A point: a numerator for each variable or column, over one denominator of at least 1.
///
/// It need not be in lowest terms.
#[derive(Drop)]
pub struct Point {
    over: i128,
    nums: Nums,
}

impl Model for Point {
    ghost use Rattle.std.specs.Prelude.{◌≤ℤ◌, pos};
    ghost use Rattle.lp_rows.specs.Points.{PointValue};

    ghost Value = { PointValue };

    ghost view = { λ p. record { over = p.over; nums = p.nums } };

    ghost invariant = { λ p. pos 1 ≤ℤ p.over };
}

/// Why these are no point.
#[derive(Clone, Copy, Debug, PartialEq, Eq)]
pub enum PointError {
    /// The denominator is below 1.
    Over,
    /// Memory ran out.
    Memory,
}

impl Point {
    /// The point with these numerators over this denominator.
    pub fn make(alloc: Global, over: i128, nums: &[i128]) -> Result<Point, PointError>
        ensures { OrMemory PointError.Memory result (point_made over nums.now) }
    {
        if over < 1 {
            return Err(PointError::Over);
        }
        let Ok(nums) = Nums::from_slice(alloc, nums) else {
            return Err(PointError::Memory);
        };
        Ok(Point { over, nums })
    }

    /// A copy of this point.
    pub fn copy(&self, alloc: Global) -> Result<Point, Memory>
        ensures { IfOk result (λ point. point ≡ self.now) }
    {
        let nums = self.nums.copy(alloc)?;
        Ok(Point {
            over: self.over,
            nums,
        })
    }

    /// The denominator, at least 1.
    pub fn over(&self) -> i128
        ensures value { result ≡ self.now.over }
        ensures positive { pos 1 ≤ℤ self.now.over }
    {
        self.over
    }

    /// The numerators.
    pub fn nums(&self) -> &[i128]
        ensures { result.now ≡ self.now.nums }
    {
        self.nums.as_slice()
    }

    /// The numerators, with no copy.
    pub fn into_nums(self) -> Nums
        ensures { result ≡ self.nums }
    {
        self.nums
    }
}
