//! `test MODEL POINT`: whether a point satisfies a model.
ghost use Rattle.std.specs.Prelude.{◌≡◌, ℕ, List, [], ◌∷◌, IfOk};
ghost use Rattle.gdp_io.specs.Shelf.{OpensFirst};
ghost use Rattle.gdp_commands.specs.Answers.{IsReplyTo};
ghost use Rattle.gdp_commands.specs.Replies.{text_of};
ghost use Rattle.gdp_commands.specs.Statuses.{IsWorked};
ghost use Rattle.gdp_commands.specs.Table.{IsOne};
ghost use Rattle.gdp_commands.specs.Test.{TestSays, TestedSays, VerdictSays};
ghost use Rattle.gdp_commands.specs.Texts.{IsLong, PointSays};
ghost use Rattle.gdp_commands.specs.Words.Form.{Test};
ghost use Rattle.model_tree.specs.Values.{model_tree};

use crate::fetched::{Fetched, fetch};
use crate::messages::{make_line, make_place};
use crate::replies::{Reply, read_failed, refuse_at};
use crate::status::Status;
use gdp_io::Shelf;
use gdp_reader::{ReadError, read_point};
use model_tree::Model;
use outcomes::Memory;
use point_tests::{SumWide, Verdict, satisfies};
use std::alloc::Global;

/// Fetches both texts, the model's first, and answers by them.
pub fn test_command<S: Shelf>(
    alloc: Global,
    shelf: &mut S,
    model: &str,
    point: &str,
) -> Result<Reply, Memory>
    ensures replies { IfOk result (λ reply. IsReplyTo (Test model.now point.now) (S.contents shelf.old) (S.faults shelf.old) (S.faults shelf.new) reply.status (text_of reply)) }
    ensures opens { OpensFirst (S.is_opened shelf.old) (S.is_opened shelf.new) (model.now ∷ point.now ∷ []) }
{
    let first = fetch(alloc, shelf, model);
    let model_text = match first {
        Ok(text) => text,
        Err(error) => return read_failed(alloc, error, model),
    };
    let second = fetch(alloc, shelf, point);
    let point_text = match second {
        Ok(text) => text,
        Err(error) => return read_failed(alloc, error, point),
    };
    judge(alloc, model, point, &model_text, &point_text)
}

/// What two texts that were fetched answer.
fn judge(
    alloc: Global,
    model: &str,
    point: &str,
    model_text: &Fetched,
    point_text: &Fetched,
) -> Result<Reply, Memory>
    requires model_within { ¬ IsLong model_text.now }
    requires point_within { ¬ IsLong point_text.now }
    ensures worked { IfOk result (λ reply. IsWorked reply.status) }
    ensures says { IfOk result (λ reply. TestSays model.now point.now model_text.now point_text.now reply.status (text_of reply)) }
{
    match model_text.model(alloc) {
        Ok(read) => judge_point(alloc, &read, point, point_text),
        Err(ReadError::At { line, cause }) => refuse_at(alloc, model, line, cause),
        Err(ReadError::Memory) => Err(Memory),
    }
}

/// What a point text answers for a model.
fn judge_point(
    alloc: Global,
    model: &Model,
    point: &str,
    point_text: &Fetched,
) -> Result<Reply, Memory>
    ensures worked { IfOk result (λ reply. IsWorked reply.status) }
    ensures says { IfOk result (λ reply. PointSays (model_tree model.now) point.now point_text.now (TestedSays (model_tree model.now)) reply.status (text_of reply)) }
{
    let at = match read_point(alloc, model, point_text.as_slice()) {
        Ok(at) => at,
        Err(ReadError::At { line, cause }) => return refuse_at(alloc, point, line, cause),
        Err(ReadError::Memory) => return Err(Memory),
    };
    verdict_reply(alloc, satisfies(model, &at.at, at.truths.as_slice()))
}

/// The answer of a verdict.
fn verdict_reply(alloc: Global, verdict: Result<Verdict, SumWide>) -> Result<Reply, Memory>
    ensures worked { IfOk result (λ reply. IsWorked reply.status) }
    ensures says { IfOk result (λ reply. VerdictSays verdict reply.status (text_of reply)) }
{
    let (status, text) = match verdict {
        Ok(Verdict::Holds) => (Status::Done, make_line(alloc, b"holds", b"")?),
        Ok(Verdict::FailsAt(mark)) => (Status::No, make_place(alloc, b"fails at line ", mark)?),
        Err(SumWide { mark }) => (Status::GaveUp, make_place(alloc, b"wide at line ", mark)?),
    };
    Ok(Reply { status, text })
}

/// Two texts have at most one answer.
pub fn one_answer()
    ensures { (model point model_text point_text : List ℕ) → IsOne (TestSays model point model_text point_text) }
{}
