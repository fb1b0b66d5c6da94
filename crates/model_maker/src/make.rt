//! The model of a seed and a size.

ghost use Rattle.std.specs.Prelude.{◌≡◌, ◌≤◌, IfOk};
ghost use Rattle.model_tree.specs.Values.{model_tree};
ghost use Rattle.model_maker.specs.Generated.{generated};

use crate::calls::finish;
use crate::choices::{add_choices, add_some_first};
use crate::draws::Draws;
use crate::variables::{add_goal, add_vars};
use model_builder::ModelBuilder;
use model_tree::Model;
use outcomes::Memory;
use std::alloc::Global;

/// The model of a seed and a size from 1 to 20.
pub fn make_model(alloc: Global, seed: u64, size: u32) -> Result<Model, Memory>
    requires some { 1 ≤ size }
    requires few { size ≤ 20 }
    ensures { IfOk result (λ model. model_tree model ≡ generated seed size) }
{
    let mut builder = ModelBuilder::new(alloc);
    let mut draws = Draws::new(seed);
    add_vars(alloc, &mut builder, &mut draws, size)?;
    add_goal(alloc, &mut builder, &mut draws, size)?;
    add_choices(alloc, &mut builder, &mut draws, size)?;
    add_some_first(alloc, &mut builder, size)?;
    Ok(finish(alloc, builder))
}
