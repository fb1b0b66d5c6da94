//! Variables and the goal.

ghost use Rattle.std.specs.Prelude.{◌≡◌, ◌≤◌, ◌*◌, ◌<◌, Some, IfOk};
ghost use Rattle.model_builder.specs.Building.{new_building};
ghost use Rattle.model_builder.specs.Standing.{stands_for};
ghost use Rattle.model_maker.specs.Draws.{after};
ghost use Rattle.model_maker.specs.Generated.{goal_of};
ghost use Rattle.model_maker.specs.Steps.{CanAim, with_vars};

use crate::calls::{add_var, numbered, set_goal, whole};
use crate::draws::Draws;
use lp_rows::Kind;
use model_builder::ModelBuilder;
use outcomes::Memory;
use std::alloc::Global;

/// Declares so many pairs of variables, whose highs are drawn.
pub fn add_vars(
    alloc: Global,
    builder: &mut ModelBuilder,
    draws: &mut Draws,
    size: u32,
) -> Result<(), Memory>
    requires size { size ≤ 20 }
    requires new { stands_for builder.old ≡ new_building }
    ensures drawn { IfOk result (λ _. draws.new ≡ after draws.old (2 * size)) }
    ensures added { IfOk result (λ _. stands_for builder.new ≡ with_vars draws.old size) }
{
    for i in 0..size {
        let x = numbered(alloc, "x", i)?;
        let n = numbered(alloc, "n", i)?;
        let x_high = 5 + draws.draw(6);
        let n_high = 5 + draws.draw(6);
        add_var(alloc, builder, x.as_str(), Kind::Real, x_high, 2 * i + 2)?;
        add_var(alloc, builder, n.as_str(), Kind::Int, n_high, 2 * i + 3)?;
    }
    Ok(())
}

/// Sets a goal with a term for each variable, whose coefficients are drawn.
pub fn add_goal(
    alloc: Global,
    builder: &mut ModelBuilder,
    draws: &mut Draws,
    size: u32,
) -> Result<(), Memory>
    requires size { size ≤ 20 }
    requires bare { CanAim size (stands_for builder.old) }
    ensures drawn { IfOk result (λ _. draws.new ≡ after draws.old (2 * size)) }
    ensures added { IfOk result (λ _. stands_for builder.new ≡ record (stands_for builder.old) { goal = Some (goal_of draws.old size) }) }
{
    let mut terms = Vec::new(alloc);
    for i in 0..size {
        terms.push((2 * i, whole(1 + draws.draw(5))))?;
        terms.push((2 * i + 1, whole(1 + draws.draw(5))))?;
    }
    set_goal(alloc, builder, terms.as_slice(), 2 * size + 2)
}
