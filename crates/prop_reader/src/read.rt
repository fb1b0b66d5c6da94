//! A proposition, from its tokens.

ghost use Rattle.std.specs.Prelude.{◌≡◌};
ghost use Rattle.model_builder.specs.Standing.{stands_for};
ghost use Rattle.text_grammar.specs.Outcomes.{result_map};
ghost use Rattle.gdp_grammar.specs.PropReading.{prop_of};
ghost use Rattle.gdp_lines.specs.Gives.{Gives};
ghost use Rattle.prop_reader.specs.steps.Heads.{whole_at};
ghost use Rattle.prop_reader.specs.steps.Readings.{reading_value, reading_of};

use crate::head::{Head, Joint, take_head, take_joint};
use crate::opened::{Opened, Reading, read_name};
use gdp_grammar::ReadCause;
use gdp_lines::fault::LineError;
use gdp_lines::token::Tokens;
use model_builder::ModelBuilder;
use std::alloc::Global;

/// What is read of the proposition that the tokens spell: from left to right and once, with a stack of what is open in
/// place of recursion.
pub fn read_prop(
    alloc: Global,
    builder: &ModelBuilder,
    tokens: &mut Tokens<'_>,
) -> Result<Reading, LineError>
    ensures { Gives reading_value result (result_map (reading_of (stands_for builder.now).booleans) (prop_of tokens.old)) }
{
    let mut stack = Vec::new(alloc);
    let mut read = None;
    'tokens: loop {
        match read {
            None => match take_head(tokens)? {
                Head::Name(name) => read = Some(read_name(builder, name)),
                Head::Opens(operator) => {
                    stack.push(Opened::new(alloc, operator))?;
                    read = None;
                }
            },
            Some(prop) => {
                let joint = take_joint(tokens)?;
                match stack.pop() {
                    None => return Ok(whole(joint, prop)?),
                    Some(opened) => match joint {
                        Joint::End => return Err(LineError::Refused(ReadCause::Form)),
                        Joint::Further => {
                            stack.push(opened.with_argument(prop)?)?;
                            read = None;
                        }
                        Joint::Closes => match opened.with_argument(prop)?.closed(alloc)? {
                            None => return Err(LineError::Refused(ReadCause::Form)),
                            Some(prop) => read = Some(prop),
                        },
                    },
                }
            }
        }
    }
}

/// A proposition with nothing open, which is whole where nothing follows it.
fn whole(joint: Joint, read: Reading) -> Result<Reading, ReadCause>
    ensures { result_map reading_value result ≡ whole_at joint (reading_value read) }
{
    match joint {
        Joint::End => Ok(read),
        Joint::Further | Joint::Closes => Err(ReadCause::Form),
    }
}
