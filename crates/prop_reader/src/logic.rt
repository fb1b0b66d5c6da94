//! A line that adds a proposition.

ghost use Rattle.propositions.specs.View.{prop_tree};
ghost use Rattle.model_builder.specs.Standing.{stands_for};
ghost use Rattle.gdp_lines.specs.Gives.{Gives};
ghost use Rattle.prop_reader.specs.LogicLines.{line_tree};

use crate::opened::Reading;
use crate::read::read_prop;
use gdp_lines::fault::LineError;
use gdp_lines::token::Tokens;
use model_builder::ModelBuilder;
use propositions::Prop;
use std::alloc::Global;

/// The proposition of a line: its names are known, its numbers small, and its size is within the limits. Nothing that
/// is refused is built.
pub fn line_prop(
    alloc: Global,
    builder: &ModelBuilder,
    tokens: &Tokens<'_>,
) -> Result<Prop, LineError>
    ensures { Gives prop_tree result (line_tree (stands_for builder.now).booleans tokens.now) }
{
    let Reading { prop, .. } = read_prop(alloc, builder, &mut tokens.ahead())?;
    Ok(prop?)
}
