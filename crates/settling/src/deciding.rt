//! The settling of a node at whose tableau no exchange is due.

ghost use Rattle.std.specs.Prelude.{◌≡◌, ◌⊎◌, ◌*ℤ◌, ℕ, ℤ, Bool, true, false, None, Some, Ok, Err, Result, int_le, pos, ◌<ℤ◌};
ghost use Rattle.fractions.specs.Fraction.{Fraction, IsReduced};
ghost use Rattle.int_linear.specs.Sums.{at as at_place};
ghost use Rattle.lp_frame.specs.Force.{is_bounded, IsForcePoint};
ghost use Rattle.lp_frame.specs.Standard.{standard_of};
ghost use Rattle.exact_simplex.specs.Bland.{bland_move};
ghost use Rattle.exact_simplex.specs.Equations.{IsTableauOf};
ghost use Rattle.exact_simplex.specs.ReadOut.{multipliers_of};
ghost use Rattle.closing.specs.Closing.{bound_of};
ghost use Rattle.closing.specs.Shown.{Refutes, BoundsBelow};
ghost use Rattle.settling.specs.Reading.{Answers, keep};
ghost use Rattle.settling.specs.Settled.{Site, goal_right, goal_scale, refuted_ending, is_bounded_by, bounded_ending, better_ending, found_ending, point_ending, OptimalEnds, ray_ending, UnboundedTested, UnboundedRead, UnboundedEnds, IsSettled};

use crate::ending::{Ending, Found, TestError};
use crate::nodes::Nodes;
use crate::reading::{point_read, ray_read};
use closing::{bounds, refutes};
use exact_simplex::{Move, Tableau};
use fractions::Frac;
use lp_frame::{Force, Mults};
use lp_rows::{Flags, Nums, Point};
use proof_tree::Path;
use std::alloc::Global;
use std::cmp::Ordering;

// The leaf of an infeasible node.
fn refuted(alloc: Global, force: &Force, tableau: &Tableau) -> Result<Ending, TestError>
    requires bounded { is_bounded force.now ≡ true }
    requires infeasible { bland_move tableau.now ≡ Move.Infeasible }
    ensures { Answers (λ r. r ≡ refuted_ending force.now tableau.now) result }
{
    let Ok(mults) = tableau.multipliers(alloc) else {
        return Err(TestError::Memory);
    };
    match refutes(force, mults.as_slice()) {
        Err(place) => Err(TestError::Wide(place)),
        Ok(_) => Ok(Ending::Refuted(mults)),
    }
}

/// A scale and multipliers that bound a goal.
#[derive(Drop)]
pub struct BoundLeaf {
    pub scale: i128,
    pub mults: Mults,
}

// The scale and the multipliers of an optimal node, where their sum is not wide.
fn bound_leaf(alloc: Global, force: &Force, tableau: &Tableau) -> Result<BoundLeaf, TestError>
    requires bounded { is_bounded force.now ≡ true }
    requires optimal { bland_move tableau.now ≡ Move.Optimal }
    ensures { Answers (λ r. r ≡ keep (record { scale = goal_scale tableau.now; mults = multipliers_of tableau.now }) (bound_of force.now (goal_scale tableau.now) (multipliers_of tableau.now))) result }
{
    let Ok(mults) = tableau.multipliers(alloc) else {
        return Err(TestError::Memory);
    };
    let scale = tableau.scale();
    match bounds(force, scale, mults.as_slice()) {
        Err(place) => Err(TestError::Wide(place)),
        Ok(_) => Ok(BoundLeaf { scale, mults }),
    }
}

// The leaf of an optimal node whose level is at least the best value.
fn bounded(alloc: Global, force: &Force, tableau: &Tableau) -> Result<Ending, TestError>
    requires bounded { is_bounded force.now ≡ true }
    requires optimal { bland_move tableau.now ≡ Move.Optimal }
    ensures { Answers (λ r. r ≡ bounded_ending force.now tableau.now) result }
{
    match bound_leaf(alloc, force, tableau) {
        Err(error) => Err(error),
        Ok(leaf) => Ok(Ending::Bounded {
            scale: leaf.scale,
            mults: leaf.mults,
        }),
    }
}

// The leaf of an optimal node at which a better point was found.
fn better(
    alloc: Global,
    force: &Force,
    tableau: &Tableau,
    value: Frac,
    at: Point,
    truths: Flags,
) -> Result<Ending, TestError>
    requires bounded { is_bounded force.now ≡ true }
    requires optimal { bland_move tableau.now ≡ Move.Optimal }
    ensures { Answers (λ r. r ≡ better_ending force.now tableau.now value at truths) result }
{
    match bound_leaf(alloc, force, tableau) {
        Err(error) => Err(error),
        Ok(leaf) => Ok(Ending::Better {
            at,
            truths,
            value,
            scale: leaf.scale,
            mults: leaf.mults,
        }),
    }
}

// Whether the node runs with the goal, and its level is at least the best value.
fn is_bounded_at(kept: &Option<Nums>, best: Option<Frac>, level: Frac) -> bool
    ensures { result ≡ is_bounded_by kept.now best level }
{
    match kept {
        Some(_) => false,
        None => match best {
            None => false,
            Some(best) => is_at_most(best, level),
        },
    }
}

fn is_at_most(best: Frac, level: Frac) -> bool
    ensures { result ≡ int_le (best.num *ℤ level.den) (level.num *ℤ best.den) }
{
    best.cmp(&level) != Ordering::Greater
}

// A copy of a ray.
fn copied(alloc: Global, ray: &Nums) -> Result<Nums, TestError>
    ensures { Answers (λ r. r ≡ Ok ray.now) result }
{
    match ray.copy(alloc) {
        Err(_) => Err(TestError::Memory),
        Ok(ray) => Ok(ray),
    }
}

// A point was found where the node runs without the goal.
fn endless(alloc: Global, at: Point, truths: Flags, ray: &Nums) -> Result<Ending, TestError>
    ensures { Answers (λ r. r ≡ Ok (Ending.Endless at truths ray.now)) result }
{
    match copied(alloc, ray) {
        Err(error) => Err(error),
        Ok(ray) => Ok(Ending::Endless { at, truths, ray }),
    }
}

// The optimal point was tested.
fn optimal_tested(
    alloc: Global,
    force: &Force,
    tableau: &Tableau,
    kept: &Option<Nums>,
    level: Frac,
    at: Point,
    found: Found,
) -> Result<Ending, TestError>
    requires bounded { is_bounded force.now ≡ true }
    requires optimal { bland_move tableau.now ≡ Move.Optimal }
    ensures { Answers (λ r. r ≡ found_ending force.now tableau.now kept.now level at (Ok found)) result }
{
    match found {
        Found::Split(split) => Ok(Ending::Split { split, ray: None }),
        Found::Point(truths) => match kept {
            None => better(alloc, force, tableau, level, at, truths),
            Some(ray) => endless(alloc, at, truths, ray),
        },
    }
}

// The point of an optimal node is read and tested.
fn optimal_read<N: Nodes>(
    alloc: Global,
    nodes: &N,
    path: &Path,
    force: &Force,
    tableau: &Tableau,
    kept: &Option<Nums>,
    level: Frac,
) -> Result<Ending, TestError>
    requires ready { N.ready nodes.now path.now }
    requires dead { N.dead_of nodes.now path.now ≡ None }
    requires force { (goal : Bool) × (force.now ≡ N.force_of nodes.now path.now goal) }
    requires form { IsTableauOf (standard_of force.now) tableau.now }
    requires optimal { bland_move tableau.now ≡ Move.Optimal }
    ensures { Answers (OptimalEnds (record { force = force.now; loose = N.loose_of nodes.now path.now; test = N.test_of nodes.now path.now }) tableau.now kept.now level false) result }
{
    match point_read(alloc, force, tableau) {
        Err(error) => Err(error),
        Ok(at) => match nodes.test(alloc, path, &at) {
            Err(error) => Err(error),
            Ok(found) => optimal_tested(alloc, force, tableau, kept, level, at, found),
        },
    }
}

// An optimal node.
fn optimal<N: Nodes>(
    alloc: Global,
    nodes: &N,
    path: &Path,
    force: &Force,
    tableau: &Tableau,
    kept: &Option<Nums>,
    best: Option<Frac>,
) -> Result<Ending, TestError>
    requires ready { N.ready nodes.now path.now }
    requires dead { N.dead_of nodes.now path.now ≡ None }
    requires force { (goal : Bool) × (force.now ≡ N.force_of nodes.now path.now goal) }
    requires form { IsTableauOf (standard_of force.now) tableau.now }
    requires optimal { bland_move tableau.now ≡ Move.Optimal }
    ensures { Answers (IsSettled (record { force = force.now; loose = N.loose_of nodes.now path.now; test = N.test_of nodes.now path.now }) tableau.now kept.now best) result }
{
    let level = tableau.level();
    if is_bounded_at(kept, best, level) {
        bounded(alloc, force, tableau)
    } else {
        optimal_read(alloc, nodes, path, force, tableau, kept, level)
    }
}

// The point of an unbounded node was tested.
fn unbounded_tested(
    alloc: Global,
    force: &Force,
    tableau: &Tableau,
    enter: u32,
    at: Point,
    found: Found,
) -> Result<Ending, TestError>
    requires bounded { is_bounded force.now ≡ true }
    requires form { IsTableauOf (standard_of force.now) tableau.now }
    requires unbounded { bland_move tableau.now ≡ Move.Unbounded enter }
    ensures { Answers (UnboundedTested force.now tableau.now enter at (Ok found)) result }
{
    match ray_read(alloc, force, tableau, enter) {
        Err(error) => Err(error),
        Ok(ray) => match found {
            Found::Split(split) => Ok(Ending::Split {
                split,
                ray: Some(ray),
            }),
            Found::Point(truths) => Ok(Ending::Endless { at, truths, ray }),
        },
    }
}

// The point of an unbounded node is read and tested, and then the ray.
fn unbounded_read<N: Nodes>(
    alloc: Global,
    nodes: &N,
    path: &Path,
    force: &Force,
    tableau: &Tableau,
    enter: u32,
) -> Result<Ending, TestError>
    requires ready { N.ready nodes.now path.now }
    requires dead { N.dead_of nodes.now path.now ≡ None }
    requires force { (goal : Bool) × (force.now ≡ N.force_of nodes.now path.now goal) }
    requires form { IsTableauOf (standard_of force.now) tableau.now }
    requires unbounded { bland_move tableau.now ≡ Move.Unbounded enter }
    ensures { Answers (UnboundedEnds (record { force = force.now; loose = N.loose_of nodes.now path.now; test = N.test_of nodes.now path.now }) tableau.now enter None) result }
{
    match point_read(alloc, force, tableau) {
        Err(error) => Err(error),
        Ok(at) => match nodes.test(alloc, path, &at) {
            Err(error) => Err(error),
            Ok(found) => unbounded_tested(alloc, force, tableau, enter, at, found),
        },
    }
}

// An unbounded node.
fn unbounded<N: Nodes>(
    alloc: Global,
    nodes: &N,
    path: &Path,
    force: &Force,
    tableau: &Tableau,
    enter: u32,
) -> Result<Ending, TestError>
    requires ready { N.ready nodes.now path.now }
    requires dead { N.dead_of nodes.now path.now ≡ None }
    requires force { (goal : Bool) × (force.now ≡ N.force_of nodes.now path.now goal) }
    requires form { IsTableauOf (standard_of force.now) tableau.now }
    requires unbounded { bland_move tableau.now ≡ Move.Unbounded enter }
    ensures { Answers (UnboundedEnds (record { force = force.now; loose = N.loose_of nodes.now path.now; test = N.test_of nodes.now path.now }) tableau.now enter (N.loose_of nodes.now path.now)) result }
{
    match nodes.loose(path) {
        Some(split) => Ok(Ending::Split { split, ray: None }),
        None => unbounded_read(alloc, nodes, path, force, tableau, enter),
    }
}

/// Settles a node at whose tableau no exchange is due and no item is false. `kept` is the ray that is kept from an
/// unbounded node above, and `best` the best value so far.
pub fn settle<N: Nodes>(
    alloc: Global,
    nodes: &N,
    path: &Path,
    force: &Force,
    tableau: &Tableau,
    kept: &Option<Nums>,
    best: Option<Frac>,
) -> Result<Ending, TestError>
    requires ready { N.ready nodes.now path.now }
    requires dead { N.dead_of nodes.now path.now ≡ None }
    requires force { (goal : Bool) × (force.now ≡ N.force_of nodes.now path.now goal) }
    requires form { IsTableauOf (standard_of force.now) tableau.now }
    requires due { (enter leave : ℕ) → bland_move tableau.now ≡ Move.Exchange enter leave → ⊥ }
    ensures { Answers (IsSettled (record { force = force.now; loose = N.loose_of nodes.now path.now; test = N.test_of nodes.now path.now }) tableau.now kept.now best) result }
{
    match tableau.bland() {
        Move::Optimal => optimal(alloc, nodes, path, force, tableau, kept, best),
        Move::Infeasible => refuted(alloc, force, tableau),
        Move::Unbounded { enter } => unbounded(alloc, nodes, path, force, tableau, enter),
        Move::Exchange { enter: _, leave: _ } => Err(TestError::Memory),
    }
}
