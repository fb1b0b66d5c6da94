//! `bench ROUTE STEPS SEED SIZE`: what is best of the model of a seed and a size.
ghost use Rattle.std.specs.Prelude.{◌≡◌, ◌∷◌, ◌++◌, IfOk, OnOk};
ghost use Rattle.cert_grammar.specs.Claims.{value_word};
ghost use Rattle.gdp_solve.specs.Solved.{IsSolution};
ghost use Rattle.model_tree.specs.Values.{model_tree};
ghost use Rattle.gdp_commands.specs.Bench.{BenchSays, BenchedSays, bench_text as bench_text_of, claim_line as claim_line_of};
ghost use Rattle.gdp_commands.specs.Replies.{text_of};
ghost use Rattle.gdp_commands.specs.Statuses.{IsWorked};
ghost use Rattle.gdp_commands.specs.Table.{For};

use crate::compile_command::refuse;
use crate::replies::Reply;
use crate::status::Status;
use crate::words::Size;
use answers::{Claim, Route};
use cert_writer::put_route;
use gdp_io::Text;
use gdp_solve::{Reached, solve};
use lp_answers::put_value;
use model_maker::make_model;
use model_tree::Model;
use outcomes::Memory;
use std::alloc::Global;
use text_printer::{end_line, put_natural, put_word};

/// Makes the model, solves it, and answers by what came of it.
pub fn bench_command(
    alloc: Global,
    route: Route,
    steps: u32,
    seed: u64,
    size: Size,
) -> Result<Reply, Memory>
    ensures worked { IfOk result (λ reply. IsWorked reply.status) }
    ensures says { IfOk result (λ reply. BenchSays route steps seed size reply.status (text_of reply)) }
{
    let number = size.get();
    let model = make_model(alloc, seed, number)?;
    bench_model(alloc, &model, route, steps, seed, number)
}

/// What solving a model answers.
fn bench_model(
    alloc: Global,
    model: &Model,
    route: Route,
    steps: u32,
    seed: u64,
    size: u32,
) -> Result<Reply, Memory>
    ensures worked { IfOk result (λ reply. IsWorked reply.status) }
    ensures says { IfOk result (λ reply. For (IsSolution (model_tree model.now) route steps) (BenchedSays (model_tree model.now) route seed size) reply.status (text_of reply)) }
{
    match solve(alloc, model, route, steps) {
        Ok(Reached::Claimed(claim)) => {
            let last = claim_line(alloc, &claim)?;
            Ok(Reply {
                status: Status::Done,
                text: bench_text(alloc, route, seed, size, last.as_slice())?,
            })
        }
        Ok(Reached::GaveUp { .. }) => Ok(Reply {
            status: Status::GaveUp,
            text: bench_text(alloc, route, seed, size, b"gave up")?,
        }),
        Err(error) => refuse(alloc, model, error),
    }
}

/// The line of a claim.
fn claim_line(alloc: Global, claim: &Claim) -> Result<Text, Memory>
    ensures { IfOk result (λ text. text ≡ claim_line_of claim.now) }
{
    match claim {
        Claim::Best { value, .. } => {
            let mut text = Text::from_slice(alloc, b"best")?;
            put_value(alloc, &mut text, *value)?;
            Ok(text)
        }
        Claim::Empty { .. } => Text::from_slice(alloc, b"empty"),
        Claim::Endless { .. } => Text::from_slice(alloc, b"endless"),
    }
}

/// Three lines: which model, which route, and what came of it.
fn bench_text(
    alloc: Global,
    route: Route,
    seed: u64,
    size: u32,
    last: &[u8],
) -> Result<Text, Memory>
    ensures { IfOk result (λ text. text ≡ bench_text_of route seed size last.now) }
{
    let mut text = Text::from_slice(alloc, b"seed")?;
    put_natural(alloc, &mut text, u128::from(seed))?;
    put_word(alloc, &mut text, b"size")?;
    put_natural(alloc, &mut text, u128::from(size))?;
    end_line(alloc, &mut text)?;
    text.append(alloc, b"route")?;
    put_route(alloc, &mut text, route)?;
    end_line(alloc, &mut text)?;
    text.append(alloc, last)?;
    end_line(alloc, &mut text)?;
    Ok(text)
}
