//! The tests of an answer in their order.

ghost use Rattle.std.specs.Prelude.{◌≡◌, OnOk};
ghost use Rattle.outcomes.specs.Calls.{OrMemory};
ghost use Rattle.model_tree.specs.Values.{model_tree};
ghost use Rattle.hybrid_rewrite.specs.Compiled.{compiled};
ghost use Rattle.hybrid_rewrite.specs.Chosen.{flagging};
ghost use Rattle.certificate_checker.specs.Answers.{refused_by};
ghost use Rattle.certificate_checker.specs.declared.refusal.Refusal.TheVariants as refusal;
ghost use Rattle.rewrite_checker.specs.Accepted.{IsProvedFor};
ghost use Rattle.answer_tests.specs.Counted.{IsCounted};
ghost use Rattle.answer_tests.specs.Groups.{first_error};
ghost use Rattle.answer_tests.specs.Laws.{IsTrueOf};
ghost use Rattle.answer_checker.specs.Valid.{
  choice_of as choice_by,
  has_proof as proof_there,
  compile_error,
  compiled_groups,
  groups_by,
  check_groups,
};

use crate::errors::CheckError;
use answer_tests::{see_claim, test_claim};
use answers::{Answer, Claim, Route};
use certificate_checker::{Refusal, check_by_program, refusal_of_claim};
use hybrid_rewrite::{Choice, CompileError, compile};
use logic_checker::check_by_logic;
use model_tree::Model;
use std::alloc::Global;

/// Tests an answer: its point, its value or its ray, then, where the claim has a proof, the compilation by the answer's
/// route and the nodes of the proof in preorder. The first test that fails, or that forms a number outside 128 bits,
/// decides. Where it answers Ok, the claim is true of the model.
///
/// It goes once over the proof and keeps one path, so beside the answer and the program it takes memory by depth.
pub fn check(alloc: Global, model: &Model, answer: &Answer) -> Result<(), CheckError>
    requires { IsCounted (model_tree model.now) answer.now.claim }
    ensures first { OrMemory (CheckError.Test refusal.Memory) result (first_error (check_groups (model_tree model.now) answer.now)) }
    ensures sound { OnOk result (IsTrueOf (model_tree model.now) answer.now.claim) }
{
    match choice_of(answer.route) {
        None => check_itself(alloc, model, &answer.claim),
        Some(choice) => check_rewritten(alloc, model, &answer.claim, choice),
    }
}

// The choice by which a route compiles the model, where it does.
fn choice_of(route: Route) -> Option<Choice>
    ensures { result ≡ choice_by route }
{
    match route {
        Route::BigM => Some(Choice::BigM),
        Route::Hull => Some(Choice::Hull),
        Route::Hybrid => Some(Choice::Hybrid),
        Route::Logic => None,
    }
}

// Tests a claim whose proof is over the model itself.
fn check_itself(alloc: Global, model: &Model, claim: &Claim) -> Result<(), CheckError>
    requires { IsCounted (model_tree model.now) claim.now }
    ensures first { OrMemory (CheckError.Test refusal.Memory) result (first_error (groups_by (model_tree model.now) None claim.now)) }
    ensures sound { OnOk result (IsTrueOf (model_tree model.now) claim.now) }
{
    tested(check_by_logic(alloc, model, claim))
}

// Tests a claim whose proof is over the program that the model is compiled to.
fn check_rewritten(
    alloc: Global,
    model: &Model,
    claim: &Claim,
    choice: Choice,
) -> Result<(), CheckError>
    requires { IsCounted (model_tree model.now) claim.now }
    ensures first { OrMemory (CheckError.Test refusal.Memory) result (first_error (groups_by (model_tree model.now) (Some choice) claim.now)) }
    ensures sound { OnOk result (IsTrueOf (model_tree model.now) claim.now) }
{
    let _vars = model.vars();
    see_claim(claim);
    match test_claim(model, claim) {
        Ok(()) => check_compiled(alloc, model, claim, choice),
        Err(error) => Err(CheckError::Test(refusal_of_claim(error))),
    }
}

// Compiles the model and tests the nodes of the claim's proof, where it has one.
fn check_compiled(
    alloc: Global,
    model: &Model,
    claim: &Claim,
    choice: Choice,
) -> Result<(), CheckError>
    ensures first { OrMemory (CheckError.Test refusal.Memory) result (first_error (compiled_groups claim.now (compiled (model_tree model.now) (flagging choice (model_tree model.now))))) }
    ensures proved { OnOk result (IsProvedFor (model_tree model.now) claim.now) }
{
    let _vars = model.vars();
    if !has_proof(claim) {
        return Ok(());
    }
    match compile(alloc, model, choice) {
        Ok(compiled) => tested(check_by_program(alloc, claim, compiled.milp())),
        Err(error) => Err(refused(error)),
    }
}

// Whether the claim has a proof.
fn has_proof(claim: &Claim) -> bool
    ensures { result ≡ proof_there claim.now }
{
    match claim {
        Claim::Best {
            at: _,
            truths: _,
            value: _,
            proof: _,
        } => true,
        Claim::Empty { proof: _ } => true,
        Claim::Endless {
            at: _,
            truths: _,
            ray: _,
        } => false,
    }
}

// What a test answers, with its refusal as one of the answer.
fn tested(outcome: Result<(), Refusal>) -> Result<(), CheckError>
    ensures { result ≡ refused_by CheckError.Test outcome }
{
    match outcome {
        Ok(()) => Ok(()),
        Err(refusal) => Err(CheckError::Test(refusal)),
    }
}

// Why an answer is refused whose model is not compiled.
fn refused(error: CompileError) -> CheckError
    ensures { result ≡ compile_error error }
{
    match error {
        CompileError::NoBound { mark, var } => CheckError::Rewrite(CompileError::NoBound {
            mark,
            var,
        }),
        CompileError::MTooWide { mark } => CheckError::Rewrite(CompileError::MTooWide { mark }),
        CompileError::TooBig => CheckError::Rewrite(CompileError::TooBig),
        CompileError::Memory => CheckError::Test(Refusal::Memory),
    }
}
