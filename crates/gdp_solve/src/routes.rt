//! A model solved by a route.

ghost use Rattle.model_tree.specs.Values.{model_tree};
ghost use Rattle.gdp_solve.specs.Solved.{IsSolution};

use crate::logic::solve_by_logic;
use answers::Route;
use hybrid_rewrite::{Choice, CompileError};
use model_tree::Model;
use outcomes::Memory;
use rewrite_solving::{Reached, solve_compiled};
use std::alloc::Global;

/// Solves a model by the route with at most so many steps (an opening of a node or a move is one). What is claimed is true
/// of the model, in lowest terms, and its proof is accepted by the checker. It gives up exactly where the steps end with
/// one due, or before the first number past 128 bits; a route that compiles refuses a model as compiling does.
pub fn solve(
    alloc: Global,
    model: &Model,
    route: Route,
    steps: u32,
) -> Result<Reached, CompileError>
    ensures { IsSolution (model_tree model.now) route steps result }
{
    match route {
        Route::BigM => solve_compiled(alloc, model, Choice::BigM, steps),
        Route::Hull => solve_compiled(alloc, model, Choice::Hull, steps),
        Route::Hybrid => solve_compiled(alloc, model, Choice::Hybrid, steps),
        Route::Logic => match solve_by_logic(alloc, model, steps) {
            Ok(reached) => Ok(reached),
            Err(Memory) => Err(CompileError::Memory),
        },
    }
}
