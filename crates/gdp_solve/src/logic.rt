//! A model solved by its own truth values and integer variables.

ghost use Rattle.std.specs.Prelude.{◌≡◌, IfOk};
ghost use Rattle.model_tree.specs.Values.{model_tree};
ghost use Rattle.answers.specs.declared.claim.Claim.TheVariants as claims;
ghost use Rattle.search_rules.specs.declared.outcome.Answer.TheVariants as answer;
ghost use Rattle.search_rules.specs.declared.outcome.Outcome.TheVariants as outcome;
ghost use Rattle.gdp_solve.specs.Logic.{IsAcceptedItself, IsBestMade, IsEndlessMade, IsFound, IsLogicSolution};

use answer_tests::see_claim;
use answers::Claim;
use logic_branching::solve_logic;
use lowest_terms::{MakeError, best_claim, endless_claim, wide_place};
use lp_rows::{Flags, Nums, Point, WideAt};
use model_tree::Model;
use outcomes::Memory;
use proof_tree::Proof;
use rewrite_solving::{Reached, come_to, cut_ray};
use search_core::Solved;
use search_rules::{Answer, Best, Outcome};
use std::alloc::Global;

/// Solves a model by branching on its truth values and integer variables, with at most so many steps. No bound is needed.
pub fn solve_by_logic(alloc: Global, model: &Model, steps: u32) -> Result<Reached, Memory>
    ensures { IfOk result (IsLogicSolution (model_tree model.now) steps) }
{
    let _vars = model.vars();
    let Solved { answer, log } = solve_logic(alloc, model, steps)?;
    match answer {
        Answer::Stopped(stop) => Ok(Reached::GaveUp { log, stop }),
        Answer::Done(Outcome::Empty { proof }) => Ok(Reached::Claimed(empty(model, proof))),
        Answer::Done(Outcome::Best { best, proof }) => {
            let made = claim_best(alloc, model, best, proof)?;
            Ok(come_to(made, log))
        }
        Answer::Endless { at, truths, ray } => {
            let made = claim_endless(alloc, model, &at, truths, &ray)?;
            Ok(come_to(made, log))
        }
    }
}

// That there is no point.
fn empty(model: &Model, proof: Proof) -> Claim
    requires { IsFound (model_tree model.now) (answer.Done (outcome.Empty proof)) }
    ensures made { result ≡ claims.Empty proof }
    ensures accepted { IsAcceptedItself (model_tree model.now) result }
{
    let _vars = model.vars();
    let _nodes = proof.nodes();
    Claim::Empty { proof }
}

// The claim of a best point.
fn claim_best(
    alloc: Global,
    model: &Model,
    best: Best,
    proof: Proof,
) -> Result<Result<Claim, WideAt>, Memory>
    requires { IsFound (model_tree model.now) (answer.Done (outcome.Best best proof)) }
    ensures made { IfOk result (IsBestMade (model_tree model.now) best proof) }
    ensures accepted { IfOk result (λ made. IfOk made (IsAcceptedItself (model_tree model.now))) }
{
    let _vars = model.vars();
    let Best {
        at,
        truths,
        value: _,
    } = best;
    match best_claim(alloc, model, &at, truths, proof) {
        Ok(claim) => {
            see_claim(&claim);
            Ok(Ok(claim))
        }
        Err(MakeError::Memory) => Err(Memory),
        Err(MakeError::Test(error)) => match wide_place(error) {
            Some(place) => Ok(Err(place)),
            None => unreachable!(),
        },
    }
}

// The claim of a point and a ray.
fn claim_endless(
    alloc: Global,
    model: &Model,
    at: &Point,
    truths: Flags,
    ray: &Nums,
) -> Result<Result<Claim, WideAt>, Memory>
    requires { IsFound (model_tree model.now) (answer.Endless at.now truths ray.now) }
    ensures made { IfOk result (IsEndlessMade (model_tree model.now) at.now truths ray.now) }
    ensures accepted { IfOk result (λ made. IfOk made (IsAcceptedItself (model_tree model.now))) }
{
    let _vars = model.vars();
    let cut = cut_ray(alloc, model, ray)?;
    match endless_claim(alloc, model, at, truths, cut) {
        Ok(claim) => {
            see_claim(&claim);
            Ok(Ok(claim))
        }
        Err(MakeError::Memory) => Err(Memory),
        Err(MakeError::Test(error)) => match wide_place(error) {
            Some(place) => Ok(Err(place)),
            None => unreachable!(),
        },
    }
}
