//! A model solved over a rewrite.

ghost use Rattle.std.specs.Prelude.{◌≡◌, [], IfOk};
ghost use Rattle.model_tree.specs.Values.{model_tree};
ghost use Rattle.search_rules.specs.declared.outcome.Outcome.TheVariants as outcome;
ghost use Rattle.answers.specs.declared.claim.Claim.TheVariants as claims;
ghost use Rattle.search_rules.specs.Claims.{found_at};
ghost use Rattle.milp_nodes.specs.Nodes.{problem_of};
ghost use Rattle.hybrid_rewrite.specs.Rewritten.{IsExactRewrite};
ghost use Rattle.rewrite_solving.specs.Laws.{IsRight};
ghost use Rattle.rewrite_solving.specs.Solutions.{IsAccepted, IsBestMade, IsCompiledSolution, IsEndlessMade, IsSolution};

use crate::cuts::{cut, cut_ray};
use crate::reached::{Reached, come_to};
use answer_tests::see_claim;
use answers::Claim;
use hybrid_rewrite::{Choice, CompileError, compile};
use lowest_terms::{MakeError, best_claim, endless_claim, wide_place};
use lp_rows::{Nums, Point, WideAt};
use milp_branching::solve_milp;
use milps::Milp;
use model_tree::{Model, ModelPoint};
use outcomes::Memory;
use proof_tree::Proof;
use search_core::Solved;
use search_rules::{Answer, Best, Outcome};
use std::alloc::Global;

/// Solves a model over a rewrite of it with at most so many steps.
pub fn solve_rewrite(
    alloc: Global,
    model: &Model,
    milp: &Milp,
    steps: u32,
) -> Result<Reached, Memory>
    requires { IsExactRewrite (model_tree model.now) milp.now }
    ensures { IfOk result (IsSolution (model_tree model.now) milp.now steps) }
{
    let Solved { answer, log } = solve_milp(alloc, milp, steps)?;
    match answer {
        Answer::Stopped(stop) => Ok(Reached::GaveUp { log, stop }),
        Answer::Done(Outcome::Empty { proof }) => Ok(Reached::Claimed(empty(model, milp, proof))),
        Answer::Done(Outcome::Best { best, proof }) => {
            let made = claim_best(alloc, model, milp, &best, proof)?;
            Ok(come_to(made, log))
        }
        Answer::Endless { at, truths: _, ray } => {
            let made = claim_endless(alloc, model, milp, &at, &ray)?;
            Ok(come_to(made, log))
        }
    }
}

/// Solves a model over the program that it is compiled to by this choice, with at most so many steps, or says why it is
/// not compiled.
pub fn solve_compiled(
    alloc: Global,
    model: &Model,
    choice: Choice,
    steps: u32,
) -> Result<Reached, CompileError>
    ensures { IsCompiledSolution (model_tree model.now) choice steps result }
{
    let compiled = compile(alloc, model, choice)?;
    match solve_rewrite(alloc, model, compiled.milp(), steps) {
        Ok(reached) => Ok(reached),
        Err(Memory) => Err(CompileError::Memory),
    }
}

// That there is no point.
fn empty(model: &Model, milp: &Milp, proof: Proof) -> Claim
    requires rewrite { IsExactRewrite (model_tree model.now) milp.now }
    requires right { IsRight milp.now (outcome.Empty proof) }
    ensures made { result ≡ claims.Empty proof }
    ensures accepted { IsAccepted (model_tree model.now) milp.now result }
{
    let _vars = model.vars();
    let _cols = milp.cols();
    Claim::Empty { proof }
}

// The claim of a best point.
fn claim_best(
    alloc: Global,
    model: &Model,
    milp: &Milp,
    best: &Best,
    proof: Proof,
) -> Result<Result<Claim, WideAt>, Memory>
    requires rewrite { IsExactRewrite (model_tree model.now) milp.now }
    requires right { IsRight milp.now (outcome.Best best.now proof) }
    ensures made { IfOk result (IsBestMade (model_tree model.now) best.now.at proof) }
    ensures accepted { IfOk result (λ made. IfOk made (IsAccepted (model_tree model.now) milp.now)) }
{
    let _vars = model.vars();
    let _cols = milp.cols();
    let ModelPoint { at, truths } = cut(alloc, model, &best.at)?;
    match best_claim(alloc, model, &at, truths, proof) {
        Ok(claim) => {
            see_claim(&claim);
            Ok(Ok(claim))
        }
        Err(MakeError::Memory) => Err(Memory),
        Err(MakeError::Test(error)) => match wide_place(error) {
            Some(place) => Ok(Err(place)),
            None => unreachable!(),
        },
    }
}

// The claim of a point and a ray.
fn claim_endless(
    alloc: Global,
    model: &Model,
    milp: &Milp,
    from: &Point,
    ray: &Nums,
) -> Result<Result<Claim, WideAt>, Memory>
    requires rewrite { IsExactRewrite (model_tree model.now) milp.now }
    requires endless { (problem_of milp.now).endless (found_at from.now []) ray.now }
    ensures made { IfOk result (IsEndlessMade (model_tree model.now) from.now ray.now) }
    ensures accepted { IfOk result (λ made. IfOk made (IsAccepted (model_tree model.now) milp.now)) }
{
    let _vars = model.vars();
    let _cols = milp.cols();
    let _over = from.over();
    let ModelPoint { at, truths } = cut(alloc, model, from)?;
    let ray = cut_ray(alloc, model, ray)?;
    match endless_claim(alloc, model, &at, truths, ray) {
        Ok(claim) => {
            see_claim(&claim);
            Ok(Ok(claim))
        }
        Err(MakeError::Memory) => Err(Memory),
        Err(MakeError::Test(error)) => match wide_place(error) {
            Some(place) => Ok(Err(place)),
            None => unreachable!(),
        },
    }
}
