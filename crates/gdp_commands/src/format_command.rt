//! `format MODEL`: the canonical text of a model.
ghost use Rattle.std.specs.Prelude.{◌≡◌, ℕ, List, [], ◌∷◌, IfOk};
ghost use Rattle.gdp_io.specs.Shelf.{OpensFirst};
ghost use Rattle.gdp_commands.specs.Answers.{IsReplyTo};
ghost use Rattle.gdp_commands.specs.Format.{FormatSays};
ghost use Rattle.gdp_commands.specs.Replies.{text_of};
ghost use Rattle.gdp_commands.specs.Statuses.{IsWorked};
ghost use Rattle.gdp_commands.specs.Table.{IsOne};
ghost use Rattle.gdp_commands.specs.Texts.{IsLong};
ghost use Rattle.gdp_commands.specs.Words.Form.{Format};

use crate::fetched::{Fetched, fetch};
use crate::replies::{Reply, read_failed, refuse_at};
use crate::status::Status;
use gdp_io::Shelf;
use gdp_printer::model_text;
use gdp_reader::ReadError;
use outcomes::Memory;
use std::alloc::Global;

/// Fetches the model's text, and answers by it.
pub fn format_command<S: Shelf>(alloc: Global, shelf: &mut S, model: &str) -> Result<Reply, Memory>
    ensures replies { IfOk result (λ reply. IsReplyTo (Format model.now) (S.contents shelf.old) (S.faults shelf.old) (S.faults shelf.new) reply.status (text_of reply)) }
    ensures opens { OpensFirst (S.is_opened shelf.old) (S.is_opened shelf.new) (model.now ∷ []) }
{
    match fetch(alloc, shelf, model) {
        Ok(text) => format(alloc, model, &text),
        Err(error) => read_failed(alloc, error, model),
    }
}

/// What a text that was fetched answers.
fn format(alloc: Global, model: &str, text: &Fetched) -> Result<Reply, Memory>
    requires within { ¬ IsLong text.now }
    ensures worked { IfOk result (λ reply. IsWorked reply.status) }
    ensures says { IfOk result (λ reply. FormatSays model.now text.now reply.status (text_of reply)) }
{
    match text.model(alloc) {
        Ok(read) => Ok(Reply {
            status: Status::Done,
            text: model_text(alloc, &read)?,
        }),
        Err(ReadError::At { line, cause }) => refuse_at(alloc, model, line, cause),
        Err(ReadError::Memory) => Err(Memory),
    }
}

/// A text has at most one answer.
pub fn one_format()
    ensures { (model model_text : List ℕ) → IsOne (FormatSays model model_text) }
{}
