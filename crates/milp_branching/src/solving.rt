//! A whole search over a program.

ghost use Rattle.std.specs.Prelude.{IfOk};
ghost use Rattle.search_rules.specs.Answered.{IsAnswer, IsAnswerInAnyOrder};
ghost use Rattle.milp_nodes.specs.Nodes.{milp_meaning, problem_of};

use crate::nodes::MilpNodes;
use milps::Milp;
use outcomes::Memory;
use search_core::{Solved, search_nodes, solve_nodes};
use std::alloc::Global;

/// Searches a program in depth order with at most so many steps. The log is the one in depth order. It is complete, with
/// the best point or that there is none and a proof, or with a ray along which the goal has no least value; or it stops
/// at the end of the steps, or where a number is wide.
pub fn solve_milp(alloc: Global, milp: &Milp, steps: u32) -> Result<Solved, Memory>
    ensures { IfOk result (λ s. IsAnswer (problem_of milp.now) (milp_meaning milp.now) steps s.log.events s.answer) }
{
    solve_nodes(alloc, MilpNodes::new(milp), steps)
}

/// Searches a program in the order of these picks with at most so many steps: each turn opens the half at the next pick in
/// order of making, taken modulo how many wait, and past the last pick the half made first. Its claim is as true, and its
/// stop as exact, as in depth order.
pub fn search_milp(alloc: Global, milp: &Milp, steps: u32, picks: &[u32]) -> Result<Solved, Memory>
    ensures { IfOk result (λ s. IsAnswerInAnyOrder (problem_of milp.now) (milp_meaning milp.now) steps s.log.events s.answer) }
{
    search_nodes(alloc, MilpNodes::new(milp), steps, picks)
}
