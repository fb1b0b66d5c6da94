//! The points and rays that are written.

ghost use Rattle.std.specs.Prelude.{◌≡◌, length, IfOk};
ghost use Rattle.int_linear.specs.Sums.{at as at_place};
ghost use Rattle.lp_answers.specs.Points.{AreFirst, IsLowestIn};

use lowest_terms::lowest_of;
use lp_rows::{Nums, Point, PointError};
use outcomes::Memory;
use std::alloc::Global;

/// The number at a place, 0 past the end.
pub(crate) fn number_at(numbers: &[i128], place: usize) -> i128
    ensures { result ≡ at_place numbers.now place }
{
    match numbers.get(place) {
        None => 0,
        Some(number) => *number,
    }
}

/// As many of these numbers, 0 past their end.
pub(crate) fn first_numbers(alloc: Global, numbers: &[i128], count: usize) -> Result<Nums, Memory>
    ensures { IfOk result (AreFirst count numbers.now) }
{
    let mut first = Nums::new(alloc);
    for place in 0..count {
        first.push(alloc, number_at(numbers, place))?;
    }
    Ok(first)
}

/// The point with as many numbers, in lowest terms.
pub(crate) fn lowest_in(alloc: Global, count: usize, at: &Point) -> Result<Point, Memory>
    ensures { IfOk result (IsLowestIn count at.now) }
{
    let numbers = first_numbers(alloc, at.nums(), count)?;
    match Point::make(alloc, at.over(), numbers.as_slice()) {
        Ok(full) => lowest_of(alloc, &full),
        Err(PointError::Over) => unreachable!(),
        Err(PointError::Memory) => Err(Memory),
    }
}
