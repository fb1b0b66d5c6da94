//! `solve ROUTE STEPS MODEL`: what is best, with a certificate.
ghost use Rattle.std.specs.Prelude.{ℕ, List, [], ◌∷◌, IfOk, Ok};
ghost use Rattle.answer_tests.specs.Counted.{IsCounted};
ghost use Rattle.gdp_io.specs.Shelf.{OpensFirst};
ghost use Rattle.gdp_solve.specs.Solved.{IsSolution};
ghost use Rattle.model_tree.specs.Values.{model_tree};
ghost use Rattle.rewrite_solving.specs.declared.reached.Reached.TheVariants.{Claimed};
ghost use Rattle.gdp_commands.specs.Answers.{IsReplyTo};
ghost use Rattle.gdp_commands.specs.Replies.{text_of};
ghost use Rattle.gdp_commands.specs.Solve.{ReachedSays, SolveSays};
ghost use Rattle.gdp_commands.specs.Statuses.{IsWorked};
ghost use Rattle.gdp_commands.specs.Table.{For};
ghost use Rattle.gdp_commands.specs.Texts.{IsLong};
ghost use Rattle.gdp_commands.specs.Words.Form.{Solve};

use crate::compile_command::refuse;
use crate::fetched::{Fetched, fetch};
use crate::replies::{Reply, read_failed, refuse_at};
use crate::status::Status;
use answer_texts::model_answer_text;
use answers::{Answer, Claim, Route};
use gdp_io::Shelf;
use gdp_reader::ReadError;
use gdp_solve::{Reached, solve};
use hybrid_rewrite::CompileError;
use log_writer::log_text;
use model_tree::Model;
use outcomes::Memory;
use std::alloc::Global;

/// Fetches the model's text, and answers by it.
pub fn solve_command<S: Shelf>(
    alloc: Global,
    shelf: &mut S,
    route: Route,
    steps: u32,
    model: &str,
) -> Result<Reply, Memory>
    ensures replies { IfOk result (λ reply. IsReplyTo (Solve route steps model.now) (S.contents shelf.old) (S.faults shelf.old) (S.faults shelf.new) reply.status (text_of reply)) }
    ensures opens { OpensFirst (S.is_opened shelf.old) (S.is_opened shelf.new) (model.now ∷ []) }
{
    match fetch(alloc, shelf, model) {
        Ok(text) => solve_text(alloc, route, steps, model, &text),
        Err(error) => read_failed(alloc, error, model),
    }
}

/// What a text that was fetched answers.
fn solve_text(
    alloc: Global,
    route: Route,
    steps: u32,
    model: &str,
    text: &Fetched,
) -> Result<Reply, Memory>
    requires within { ¬ IsLong text.now }
    ensures worked { IfOk result (λ reply. IsWorked reply.status) }
    ensures says { IfOk result (λ reply. SolveSays route steps model.now text.now reply.status (text_of reply)) }
{
    match text.model(alloc) {
        Ok(read) => solve_model(alloc, route, steps, &read),
        Err(ReadError::At { line, cause }) => refuse_at(alloc, model, line, cause),
        Err(ReadError::Memory) => Err(Memory),
    }
}

/// What solving a model answers.
fn solve_model(alloc: Global, route: Route, steps: u32, model: &Model) -> Result<Reply, Memory>
    ensures worked { IfOk result (λ reply. IsWorked reply.status) }
    ensures says { IfOk result (λ reply. For (IsSolution (model_tree model.now) route steps) (ReachedSays (model_tree model.now) route) reply.status (text_of reply)) }
{
    match solve(alloc, model, route, steps) {
        Ok(Reached::Claimed(claim)) => claimed(alloc, model, route, claim),
        Ok(Reached::GaveUp { log, stop }) => Ok(Reply {
            status: Status::GaveUp,
            text: log_text(alloc, Some(route), &log, stop)?,
        }),
        Err(error) => refuse(alloc, model, error),
    }
}

/// The text of what is claimed.
fn claimed(alloc: Global, model: &Model, route: Route, claim: Claim) -> Result<Reply, Memory>
    requires { IsCounted (model_tree model.now) claim }
    ensures worked { IfOk result (λ reply. IsWorked reply.status) }
    ensures says { IfOk result (λ reply. ReachedSays (model_tree model.now) route (Ok (Claimed claim)) reply.status (text_of reply)) }
{
    let _vars = model.vars();
    let answer = Answer { route, claim };
    Ok(Reply {
        status: Status::Done,
        text: model_answer_text(alloc, model, &answer)?,
    })
}
