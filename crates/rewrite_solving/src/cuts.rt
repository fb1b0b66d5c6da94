//! The cut of a program's point and ray.

ghost use Rattle.std.specs.Prelude.{◌≡◌, ◌≤◌, ◌+◌, length, int_lt, pos, IfOk};
ghost use Rattle.model_tree.specs.Values.{model_tree};
ghost use Rattle.int_linear.specs.Sums.{at as at_place};
ghost use Rattle.rewrite_solving.specs.Cuts.{IsCutOf, IsRayCutOf, numbers_of, truths_of};

use lp_rows::{Flags, Nums, Point, PointError};
use model_tree::{Model, ModelPoint};
use outcomes::Memory;
use std::alloc::Global;

/// The cut of a point of a program to the variables and Booleans of the model.
pub(crate) fn cut(alloc: Global, model: &Model, at: &Point) -> Result<ModelPoint, Memory>
    ensures { IfOk result (λ p. IsCutOf (model_tree model.now) at.now p.at p.truths) }
{
    let vars = model.vars().len();
    let nums = numbers(alloc, at.nums(), vars)?;
    let truths = flags(alloc, at.nums(), vars, model.booleans().len())?;
    match Point::make(alloc, at.over(), nums.as_slice()) {
        Ok(point) => Ok(ModelPoint { at: point, truths }),
        Err(PointError::Over) => unreachable!(),
        Err(PointError::Memory) => Err(Memory),
    }
}

/// The cut of a ray of a program to the variables of the model.
pub fn cut_ray(alloc: Global, model: &Model, ray: &Nums) -> Result<Nums, Memory>
    ensures { IfOk result (IsRayCutOf (model_tree model.now) ray.now) }
{
    numbers(alloc, ray.as_slice(), model.vars().len())
}

// The first numbers.
fn numbers(alloc: Global, nums: &[i128], count: usize) -> Result<Nums, Memory>
    ensures { IfOk result (λ out. out ≡ numbers_of nums.now count) }
{
    let mut out = Nums::new(alloc);
    for place in 0..count {
        out.push(alloc, number_at(nums, place))?;
    }
    Ok(out)
}

// Whether each of the next numbers is positive.
fn flags(alloc: Global, nums: &[i128], first: usize, count: usize) -> Result<Flags, Memory>
    requires first { first ≤ 1000 }
    requires count { count ≤ 1000 }
    ensures { IfOk result (λ out. out ≡ truths_of nums.now first count) }
{
    let mut out = Flags::new(alloc);
    for place in 0..count {
        out.push(alloc, is_positive(number_at(nums, first + place)))?;
    }
    Ok(out)
}

// The number at a place, 0 past the end.
fn number_at(nums: &[i128], place: usize) -> i128
    ensures { result ≡ at_place nums.now place }
{
    match nums.get(place) {
        None => 0,
        Some(number) => *number,
    }
}

fn is_positive(number: i128) -> bool
    ensures { result ≡ int_lt (pos 0) number }
{
    0 < number
}
