//! `check MODEL ANSWER`: whether an answer and its certificate hold for a model.
ghost use Rattle.std.specs.Prelude.{◌≡◌, ◌++◌, ℕ, List, [], ◌∷◌, IfOk};
ghost use Rattle.std.specs.Fmt.{decimal};
ghost use Rattle.answer_tests.specs.Counted.{IsCounted};
ghost use Rattle.gdp_io.specs.Shelf.{OpensFirst};
ghost use Rattle.answer_checker.specs.Valid.{check_groups};
ghost use Rattle.answer_tests.specs.Groups.{first_error};
ghost use Rattle.model_tree.specs.Values.{model_tree};
ghost use Rattle.gdp_commands.specs.Answers.{IsReplyTo};
ghost use Rattle.gdp_commands.specs.Check.{AnswerSays, CheckSays, CheckedSays, RefusalSays, rejected, spoilt_at, spoilt_name, wide};
ghost use Rattle.gdp_commands.specs.Messages.{line};
ghost use Rattle.gdp_commands.specs.Replies.{text_of};
ghost use Rattle.gdp_commands.specs.Statuses.{IsWorked};
ghost use Rattle.gdp_commands.specs.Table.{IsOne};
ghost use Rattle.gdp_commands.specs.Texts.{IsLong, IsLongAnswer};
ghost use Rattle.gdp_commands.specs.Words.Form.{Check};

use crate::compile_command::refuse;
use crate::fetched::{Fetched, fetch, fetch_answer};
use crate::messages::make_line;
use crate::replies::{Reply, read_failed, refuse_at, refuse_for};
use crate::status::Status;
use answer_checker::{CheckError, check};
use answer_texts::read_model_answer;
use answers::Answer;
use cert_grammar::CertCause;
use cert_grammar::laws::answers_exact;
use cert_reader::CertError;
use certificate_checker::Refusal;
use gdp_io::{Shelf, Text};
use gdp_reader::ReadError;
use model_tree::Model;
use outcomes::Memory;
use std::alloc::Global;

/// Fetches both texts, the model's first, and answers by them.
pub fn check_command<S: Shelf>(
    alloc: Global,
    shelf: &mut S,
    model: &str,
    answer: &str,
) -> Result<Reply, Memory>
    ensures replies { IfOk result (λ reply. IsReplyTo (Check model.now answer.now) (S.contents shelf.old) (S.faults shelf.old) (S.faults shelf.new) reply.status (text_of reply)) }
    ensures opens { OpensFirst (S.is_opened shelf.old) (S.is_opened shelf.new) (model.now ∷ answer.now ∷ []) }
{
    let first = fetch(alloc, shelf, model);
    let model_text = match first {
        Ok(text) => text,
        Err(error) => return read_failed(alloc, error, model),
    };
    let second = fetch_answer(alloc, shelf, answer);
    let answer_text = match second {
        Ok(text) => text,
        Err(error) => return read_failed(alloc, error, answer),
    };
    check_texts(alloc, model, answer, &model_text, &answer_text)
}

/// What two texts that were fetched answer.
fn check_texts(
    alloc: Global,
    model: &str,
    answer: &str,
    model_text: &Fetched,
    answer_text: &Text,
) -> Result<Reply, Memory>
    requires model_within { ¬ IsLong model_text.now }
    requires answer_within { ¬ IsLongAnswer answer_text.now }
    ensures worked { IfOk result (λ reply. IsWorked reply.status) }
    ensures says { IfOk result (λ reply. CheckSays model.now answer.now model_text.now answer_text.now reply.status (text_of reply)) }
{
    match model_text.model(alloc) {
        Ok(read) => check_text(alloc, &read, answer, answer_text),
        Err(ReadError::At { line, cause }) => refuse_at(alloc, model, line, cause),
        Err(ReadError::Memory) => Err(Memory),
    }
}

/// What the text of an answer says for a model.
fn check_text(
    alloc: Global,
    model: &Model,
    answer: &str,
    answer_text: &Text,
) -> Result<Reply, Memory>
    ensures worked { IfOk result (λ reply. IsWorked reply.status) }
    ensures says { IfOk result (λ reply. AnswerSays (model_tree model.now) answer.now answer_text.now (λ a. CheckedSays (model_tree model.now) (first_error (check_groups (model_tree model.now) a))) reply.status (text_of reply)) }
{
    let _vars = model.vars();
    match read_model_answer(alloc, model, answer_text.as_slice()) {
        Ok(read) => check_answer(alloc, model, &read),
        Err(CertError::At { line, cause }) => spoilt(alloc, answer, line, cause),
        Err(CertError::Memory) => Err(Memory),
    }
}

/// What the tests of an answer say.
fn check_answer(alloc: Global, model: &Model, answer: &Answer) -> Result<Reply, Memory>
    requires { IsCounted (model_tree model.now) answer.now.claim }
    ensures worked { IfOk result (λ reply. IsWorked reply.status) }
    ensures says { IfOk result (λ reply. CheckedSays (model_tree model.now) (first_error (check_groups (model_tree model.now) answer.now)) reply.status (text_of reply)) }
{
    match check(alloc, model, answer) {
        Ok(()) => Ok(Reply {
            status: Status::Done,
            text: make_line(alloc, b"accepted", b"")?,
        }),
        Err(CheckError::Test(refusal)) => refused(alloc, refusal),
        Err(CheckError::Rewrite(error)) => refuse(alloc, model, error),
    }
}

/// The answer of the first test that does not pass.
fn refused(alloc: Global, refusal: Refusal) -> Result<Reply, Memory>
    ensures worked { IfOk result (λ reply. IsWorked reply.status) }
    ensures says { IfOk result (λ reply. RefusalSays refusal reply.status (text_of reply)) }
{
    match refusal {
        Refusal::Point { mark } => reject(alloc, b"point at line ", u64::from(mark)),
        Refusal::PointWide { mark } => give_up(alloc, b"point at line ", u64::from(mark)),
        Refusal::Value => Ok(Reply {
            status: Status::No,
            text: make_line(alloc, b"rejected: ", b"value")?,
        }),
        Refusal::ValueWide => Ok(Reply {
            status: Status::GaveUp,
            text: make_line(alloc, b"wide: ", b"value")?,
        }),
        Refusal::Ray { mark } => reject(alloc, b"ray at line ", u64::from(mark)),
        Refusal::RayWide { mark } => give_up(alloc, b"ray at line ", u64::from(mark)),
        Refusal::Tree { node } => reject(alloc, b"tree at node ", node),
        Refusal::Leaf { node } => reject(alloc, b"leaf at node ", node),
        Refusal::Wide { node } => give_up(alloc, b"node ", node),
        Refusal::Memory => Err(Memory),
    }
}

/// A test fails at this place.
fn reject(alloc: Global, before: &[u8], place: u64) -> Result<Reply, Memory>
    ensures { IfOk result (λ reply. (reply.status ≡ Status.No) × (text_of reply ≡ rejected (before.now ++ decimal place))) }
{
    Ok(Reply {
        status: Status::No,
        text: make_three(alloc, b"rejected: ", before, place)?,
    })
}

/// A number of a test leaves 128 bits at this place.
fn give_up(alloc: Global, before: &[u8], place: u64) -> Result<Reply, Memory>
    ensures { IfOk result (λ reply. (reply.status ≡ Status.GaveUp) × (text_of reply ≡ wide (before.now ++ decimal place))) }
{
    Ok(Reply {
        status: Status::GaveUp,
        text: make_three(alloc, b"wide: ", before, place)?,
    })
}

/// A line of two parts and a number.
fn make_three(alloc: Global, first: &[u8], second: &[u8], number: u64) -> Result<Text, Memory>
    ensures { IfOk result (λ text. text ≡ line (first.now ++ (second.now ++ decimal number))) }
{
    let number = number.to_string(alloc)?;
    let mut text = Text::new(alloc);
    text.append(alloc, first)?;
    text.append(alloc, second)?;
    text.append(alloc, number.as_bytes())?;
    text.push(alloc, b'\n')?;
    Ok(text)
}

/// What is answered where the text of an answer is refused at a line.
fn spoilt(alloc: Global, name: &str, line: u64, cause: CertCause) -> Result<Reply, Memory>
    ensures { IfOk result (λ reply. (reply.status ≡ Status.Text) × (text_of reply ≡ spoilt_at name.now line cause)) }
{
    refuse_for(alloc, name, line, cause_name(cause))
}

/// The name of a cause.
fn cause_name(cause: CertCause) -> &'static [u8]
    ensures { result.now ≡ spoilt_name cause }
{
    match cause {
        CertCause::Form => b"Form",
        CertCause::Name => b"Name",
        CertCause::Number => b"Number",
        CertCause::Shape => b"Shape",
    }
}

/// Two texts have at most one answer.
pub fn one_check()
    ensures { (model answer model_text answer_text : List ℕ) → IsOne (CheckSays model answer model_text answer_text) }
{
    answers_exact();
}
