//! A whole search over a model.

ghost use Rattle.std.specs.Prelude.{IfOk};
ghost use Rattle.search_rules.specs.Answered.{IsAnswer};
ghost use Rattle.model_tree.specs.Values.{model_tree};
ghost use Rattle.model_nodes.specs.Nodes.{model_problem, model_meaning};
ghost use Rattle.logic_branching.specs.Claimed.{IsTrueAnswer};

use crate::nodes::LogicNodes;
use model_tree::Model;
use outcomes::Memory;
use search_core::{Solved, solve_nodes};
use std::alloc::Global;

/// Searches a model in depth order with at most so many steps. The log is the one in depth order. It is complete, with
/// the best point or that there is none and a proof, or with a ray along which the goal has no least value; or it stops
/// at the end of the steps, or where a number is wide.
pub fn solve_logic(alloc: Global, model: &Model, steps: u32) -> Result<Solved, Memory>
    ensures answer { IfOk result (λ s. IsAnswer (model_problem (model_tree model.now)) (model_meaning (model_tree model.now)) steps s.log.events s.answer) }
    ensures claim { IfOk result (λ s. IsTrueAnswer (model_tree model.now) s.answer) }
{
    let _ = model.vars();
    solve_nodes(alloc, LogicNodes::new(alloc, model), steps)
}
