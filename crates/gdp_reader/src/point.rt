//! Reads point texts.

ghost use Rattle.std.specs.Prelude.{◌≡◌, ◌^◌, ◌-◌, ◌<◌, ◌≤◌, length, List, Bool, IfSome, IfOk, IfErr};
ghost use Rattle.std.specs.Option.{option_map};
ghost use Rattle.lp_rows.specs.Points.{PointValue};
ghost use Rattle.model_tree.specs.Values.{model_tree};
ghost use Rattle.text_grammar.specs.Grammars.{at_line};
ghost use Rattle.text_grammar.specs.Grammars.{follow_by, given_by};
ghost use Rattle.text_grammar.specs.Lines.{lines_of};
ghost use Rattle.gdp_grammar.specs.PointReading.{no_point_taken, all_numbers as all_numbers_of, point_after};
ghost use Rattle.gdp_grammar.specs.Points.{point_grammar, SpellsPoint};
ghost use Rattle.gdp_reader.specs.PointTaking.{point_taken_of, point_parts, IsPointReadAs, IsPointRefused};
ghost use Rattle.gdp_reader.specs.Taking.{GivesText};

use crate::error::ReadError;
use crate::point_taking::PointTaking;
use gdp_grammar::ReadCause;
use gdp_lines::line::first_line;
use lp_rows::{Flags, Point, PointError};
use model_tree::{Model, ModelPoint};
use outcomes::Memory;
use std::alloc::Global;

/// What the lines of a text give, and how many there are.
fn take_lines<'a>(
    alloc: Global,
    model: &'a Model,
    text: &[u8],
) -> Result<(PointTaking<'a>, u32), ReadError>
    requires { length text.now < 2 ^ 32 - 1 }
    ensures taken { GivesText (λ x. point_taken_of x.0) result (follow_by (point_grammar (model_tree model.now)) 1 (no_point_taken (model_tree model.now)) (lines_of text.now)) }
    ensures model { IfOk result (λ x. x.0.model.now ≡ model.now) }
    ensures counted { IfOk result (λ x. x.1 ≡ length (lines_of text.now)) }
    ensures few { IfOk result (λ x. x.1 ≤ length text.now) }
{
    let Ok(mut taking) = PointTaking::new(alloc, model) else {
        return Err(ReadError::Memory);
    };
    let mut rest = text;
    let mut lines = 0u32;
    'lines: while !rest.is_empty() {
        let (first, after) = first_line(rest);
        lines += 1;
        if let Err(cause) = taking.take(first) {
            return Err(ReadError::At { line: lines, cause });
        }
        rest = after;
    }
    Ok((taking, lines))
}

/// The numbers, where each variable has one.
fn all_numbers(alloc: Global, numbers: &[Option<i128>]) -> Result<Option<Vec<i128>>, Memory>
    ensures all { IfOk result (λ all. option_map (λ ns. ns.items) all ≡ all_numbers_of numbers.now) }
    ensures sized { IfOk result (λ all. IfSome all (λ ns. length ns.items ≡ length numbers.now)) }
{
    let mut all = Vec::new(alloc);
    'numbers: for number in numbers {
        let Some(number) = number else {
            return Ok(None);
        };
        all.push(*number)?;
    }
    Ok(Some(all))
}

/// The point that the lines gave; `line` is the number after the last one's.
#[tactic(auto, unfolding(gdp_grammar::specs::PointReading::point_after))]
fn finish(alloc: Global, taking: PointTaking<'_>, line: u32) -> Result<ModelPoint, ReadError>
    ensures given { GivesText point_parts result (at_line line (point_after (point_taken_of taking.entry))) }
    ensures numbers { IfOk result (λ point. length point.at.nums ≡ length taking.entry.model.now.vars) }
    ensures truths { IfOk result (λ point. length point.truths ≡ length taking.entry.model.now.booleans) }
{
    if !taking.is_headed {
        return Err(ReadError::At {
            line,
            cause: ReadCause::Header,
        });
    }
    if !taking.is_ended {
        return Err(ReadError::At {
            line,
            cause: ReadCause::Missing,
        });
    }
    let PointTaking {
        over,
        numbers,
        truths,
        ..
    } = taking;
    let Some(over) = over else {
        return Err(ReadError::At {
            line,
            cause: ReadCause::Missing,
        });
    };
    let Ok(nums) = all_numbers(alloc, numbers.as_slice()) else {
        return Err(ReadError::Memory);
    };
    let Some(nums) = nums else {
        return Err(ReadError::At {
            line,
            cause: ReadCause::Missing,
        });
    };
    match Point::make(alloc, over, nums.as_slice()) {
        Ok(at) => Ok(ModelPoint {
            at,
            truths: Flags::from_vec(truths),
        }),
        Err(PointError::Over) => unreachable!(),
        Err(PointError::Memory) => Err(ReadError::Memory),
    }
}

/// The point that the lines of a text give, or its first bad line.
fn read_point_text(alloc: Global, model: &Model, text: &[u8]) -> Result<ModelPoint, ReadError>
    requires { length text.now < 2 ^ 32 - 1 }
    ensures given { GivesText point_parts result (given_by (point_grammar (model_tree model.now)) (lines_of text.now)) }
    ensures numbers { IfOk result (λ point. length point.at.nums ≡ length model.now.vars) }
    ensures truths { IfOk result (λ point. length point.truths ≡ length model.now.booleans) }
{
    let (taking, lines) = take_lines(alloc, model, text)?;
    finish(alloc, taking, lines + 1)
}

/// The point of the model that a text spells, or its first bad line with its cause.
pub fn read_point(alloc: Global, model: &Model, text: &[u8]) -> Result<ModelPoint, ReadError>
    requires { length text.now < 2 ^ 32 - 1 }
    // What is read is spelled.
    ensures found { IfOk result (λ point. SpellsPoint (model_tree model.now) text.now point.at point.truths) }
    // The point has a number for each variable and a truth value for each Boolean.
    ensures numbers { IfOk result (λ point. length point.at.nums ≡ length model.now.vars) }
    ensures truths { IfOk result (λ point. length point.truths ≡ length model.now.booleans) }
    // What is spelled is read, and nothing else, unless memory ran out.
    ensures only { (at : PointValue) (truths : List Bool) → SpellsPoint (model_tree model.now) text.now at truths → IsPointReadAs at truths result }
    // What is refused is the first bad line, with its cause.
    ensures refused { IfErr result (λ error. IsPointRefused (model_tree model.now) text.now error) }
{
    read_point_text(alloc, model, text)
}
