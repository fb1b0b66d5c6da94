//! The point and the ray of a tableau, over the columns of the force.

ghost use Rattle.std.specs.Prelude.{◌≡◌, true, ◌*ℤ◌, IfOk};
ghost use Rattle.int_linear.specs.Sums.{at as at_place};
ghost use Rattle.int_linear.specs.Terms.{dot};
ghost use Rattle.lp_frame.specs.Force.{is_bounded, IsForcePoint};
ghost use Rattle.lp_frame.specs.Standard.{standard_of};
ghost use Rattle.exact_simplex.specs.Bland.{bland_move};
ghost use Rattle.exact_simplex.specs.Equations.{IsTableauOf};
ghost use Rattle.exact_simplex.specs.Laws.{IsAtPoint, AttainsLevel};
ghost use Rattle.exact_simplex.specs.Values.{IsPointOf};
ghost use Rattle.settling.specs.Carried.{IsForceRay};
ghost use Rattle.settling.specs.Reading.{Answers, error_of, IsPointRead, IsRayRead};
ghost use Rattle.settling.specs.Settled.{goal_right, goal_scale};

use crate::ending::TestError;
use exact_simplex::{Move, ReadOut, Tableau};
use lp_frame::{Force, lift, lift_ray};
use lp_rows::{Nums, Point};
use std::alloc::Global;

fn refusal(refused: ReadOut) -> TestError
    ensures { result ≡ error_of refused }
{
    match refused {
        ReadOut::Wide(place) => TestError::Wide(place),
        ReadOut::Memory => TestError::Memory,
    }
}

// The point over the columns of the force.
fn lifted_point(
    alloc: Global,
    force: &Force,
    tableau: &Tableau,
    split: &Point,
) -> Result<Point, TestError>
    requires bounded { is_bounded force.now ≡ true }
    requires form { IsTableauOf (standard_of force.now) tableau.now }
    requires read { IsPointOf tableau.now split.now }
    requires attains { AttainsLevel (standard_of force.now) tableau.now split.now.over (at_place split.now.nums) }
    ensures read { Answers (IsPointRead tableau.now force.now) result }
    ensures holds { IfOk result (λ point. IsForcePoint force.now point.over (at_place point.nums)) }
    ensures goal { IfOk result (λ point. goal_scale tableau.now *ℤ dot force.now.goal (at_place point.nums) ≡ goal_right tableau.now *ℤ point.over) }
{
    match lift(alloc, force, split) {
        Err(_) => Err(TestError::Memory),
        Ok(point) => Ok(point),
    }
}

/// The point of the tableau's basis.
pub(crate) fn point_read(
    alloc: Global,
    force: &Force,
    tableau: &Tableau,
) -> Result<Point, TestError>
    requires bounded { is_bounded force.now ≡ true }
    requires form { IsTableauOf (standard_of force.now) tableau.now }
    requires here { IsAtPoint tableau.now }
    ensures read { Answers (IsPointRead tableau.now force.now) result }
    ensures holds { IfOk result (λ point. IsForcePoint force.now point.over (at_place point.nums)) }
    ensures goal { IfOk result (λ point. goal_scale tableau.now *ℤ dot force.now.goal (at_place point.nums) ≡ goal_right tableau.now *ℤ point.over) }
{
    match tableau.point(alloc) {
        Err(refused) => Err(refusal(refused)),
        Ok(split) => lifted_point(alloc, force, tableau, &split),
    }
}

/// The ray along the entering column.
pub(crate) fn ray_read(
    alloc: Global,
    force: &Force,
    tableau: &Tableau,
    enter: u32,
) -> Result<Nums, TestError>
    requires bounded { is_bounded force.now ≡ true }
    requires form { IsTableauOf (standard_of force.now) tableau.now }
    requires unbounded { bland_move tableau.now ≡ Move.Unbounded enter }
    ensures read { Answers (IsRayRead tableau.now force.now enter) result }
    ensures ray { IfOk result (λ ray. IsForceRay force.now (at_place ray)) }
{
    match tableau.ray(alloc, enter) {
        Err(refused) => Err(refusal(refused)),
        Ok(split) => match lift_ray(alloc, force, &split) {
            Err(_) => Err(TestError::Memory),
            Ok(ray) => Ok(ray),
        },
    }
}
