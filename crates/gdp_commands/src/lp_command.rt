//! `lp STEPS FILE`: what is best of the program of an LP text.
ghost use Rattle.std.specs.Prelude.{◌≡◌, ℕ, List, [], ◌∷◌, IfOk};
ghost use Rattle.gdp_io.specs.Shelf.{OpensFirst};
ghost use Rattle.lp_answers.specs.Texts.{IsBestText};
ghost use Rattle.gdp_commands.specs.Answers.{IsReplyTo};
ghost use Rattle.gdp_commands.specs.Lp.{BestSays, FoundSays, IsSearched, LpSays, SearchedSays, StoppedSays, lp_cause_name, lp_refused_at};
ghost use Rattle.gdp_commands.specs.Replies.{text_of};
ghost use Rattle.gdp_commands.specs.Statuses.{IsWorked};
ghost use Rattle.gdp_commands.specs.Table.{For};
ghost use Rattle.gdp_commands.specs.Texts.{IsLong};
ghost use Rattle.gdp_commands.specs.Words.Form.{Lp};

use crate::fetched::{Fetched, fetch};
use crate::replies::{Reply, read_failed, refuse_for};
use crate::status::Status;
use answers::Stop;
use exact_simplex::Log;
use gdp_io::Shelf;
use log_writer::log_text;
use lp_answers::{LpTextError, best_text, empty_text, endless_text};
use lp_grammar::LpCause;
use lp_reader::{LpError, LpFile};
use lp_rows::{Point, WideAt};
use milp_branching::solve_milp;
use outcomes::Memory;
use search_core::Solved;
use search_rules::{Answer, Outcome};
use std::alloc::Global;

/// Fetches the LP text, and answers by it.
pub fn lp_command<S: Shelf>(
    alloc: Global,
    shelf: &mut S,
    steps: u32,
    file: &str,
) -> Result<Reply, Memory>
    ensures replies { IfOk result (λ reply. IsReplyTo (Lp steps file.now) (S.contents shelf.old) (S.faults shelf.old) (S.faults shelf.new) reply.status (text_of reply)) }
    ensures opens { OpensFirst (S.is_opened shelf.old) (S.is_opened shelf.new) (file.now ∷ []) }
{
    match fetch(alloc, shelf, file) {
        Ok(text) => solve_lp(alloc, steps, file, &text),
        Err(error) => read_failed(alloc, error, file),
    }
}

/// What a text that was fetched answers.
fn solve_lp(alloc: Global, steps: u32, file: &str, text: &Fetched) -> Result<Reply, Memory>
    requires within { ¬ IsLong text.now }
    ensures worked { IfOk result (λ reply. IsWorked reply.status) }
    ensures says { IfOk result (λ reply. LpSays steps file.now text.now reply.status (text_of reply)) }
{
    match text.program(alloc) {
        Ok(read) => search_file(alloc, steps, &read),
        Err(LpError::At { line, cause }) => refuse_lp(alloc, file, line, cause),
        Err(LpError::Memory) => Err(Memory),
    }
}

/// What a search over the program of a file answers.
fn search_file(alloc: Global, steps: u32, file: &LpFile) -> Result<Reply, Memory>
    ensures worked { IfOk result (λ reply. IsWorked reply.status) }
    ensures says { IfOk result (λ reply. For (IsSearched file.now.milp steps) (SearchedSays file.now) reply.status (text_of reply)) }
{
    let solved = solve_milp(alloc, file.milp(), steps)?;
    found(alloc, file, &solved)
}

/// What the answer of a search says in the words of the file.
fn found(alloc: Global, file: &LpFile, solved: &Solved) -> Result<Reply, Memory>
    ensures worked { IfOk result (λ reply. IsWorked reply.status) }
    ensures says { IfOk result (λ reply. FoundSays file.now solved.now.log.events solved.now.answer reply.status (text_of reply)) }
{
    let log = &solved.log;
    match &solved.answer {
        Answer::Stopped(stop) => stopped(alloc, log, *stop),
        Answer::Done(Outcome::Empty { .. }) => Ok(Reply {
            status: Status::Done,
            text: empty_text(alloc)?,
        }),
        Answer::Done(Outcome::Best { best, .. }) => found_best(alloc, file, log, &best.at),
        Answer::Endless { at, ray, .. } => {
            let _over = at.over();
            Ok(Reply {
                status: Status::Done,
                text: endless_text(alloc, file, at, ray)?,
            })
        }
    }
}

/// The text of a best point, or the log where the value there is wide.
fn found_best(alloc: Global, file: &LpFile, log: &Log, at: &Point) -> Result<Reply, Memory>
    ensures worked { IfOk result (λ reply. IsWorked reply.status) }
    ensures says { IfOk result (λ reply. For (IsBestText file.now at.now) (BestSays log.now.events) reply.status (text_of reply)) }
{
    match best_text(alloc, file, at) {
        Ok(text) => Ok(Reply {
            status: Status::Done,
            text,
        }),
        Err(LpTextError::Value) => stopped(alloc, log, Stop::Wide(WideAt::Value)),
        Err(LpTextError::Memory) => Err(Memory),
    }
}

/// The log of a search that stopped.
fn stopped(alloc: Global, log: &Log, stop: Stop) -> Result<Reply, Memory>
    ensures worked { IfOk result (λ reply. IsWorked reply.status) }
    ensures says { IfOk result (λ reply. StoppedSays log.now.events stop reply.status (text_of reply)) }
{
    Ok(Reply {
        status: Status::GaveUp,
        text: log_text(alloc, None, log, stop)?,
    })
}

/// What is answered where an LP text is refused at a line.
fn refuse_lp(alloc: Global, name: &str, line: u32, cause: LpCause) -> Result<Reply, Memory>
    ensures { IfOk result (λ reply. (reply.status ≡ Status.Text) × (text_of reply ≡ lp_refused_at name.now line cause)) }
{
    refuse_for(alloc, name, u64::from(line), cause_name(cause))
}

/// The name of a cause.
fn cause_name(cause: LpCause) -> &'static [u8]
    ensures { result.now ≡ lp_cause_name cause }
{
    match cause {
        LpCause::Form => b"Form",
        LpCause::Section => b"Section",
        LpCause::Unsupported => b"Unsupported",
        LpCause::Number => b"Number",
        LpCause::Limit => b"Limit",
    }
}
