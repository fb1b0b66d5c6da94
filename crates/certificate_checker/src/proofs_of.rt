//! The nodes of a claim's proof, which stand last among the tests of an answer.

ghost use Rattle.std.specs.Prelude.{◌≡◌, OnOk};
ghost use Rattle.outcomes.specs.Calls.{OrMemory};
ghost use Rattle.node_checker.specs.Tests.{least_of};
ghost use Rattle.answer_tests.specs.Groups.{first_error};
ghost use Rattle.certificate_checker.specs.Programs.{subject_of, least_for};
ghost use Rattle.certificate_checker.specs.Answers.{
  claim_refusal,
  cause_refusal,
  node_refusal,
  nodes_group,
  proof_groups,
  best_of,
  IsProvedOf,
};

use crate::programs::{Program, least};
use crate::refusal::Refusal;
use answer_tests::{AnswerError, see_claim};
use answers::Claim;
use fractions::Frac;
use milps::Milp;
use node_checker::{Least, Tested, check_nodes};
use proof_tree::{Cause, CheckError, Proof};
use std::alloc::Global;

/// Tests the nodes of a claim's proof, where it has one.
pub fn check_proof<T: Tested>(
    alloc: Global,
    claim: &Claim,
    tested: &T,
    least: &Option<Least>,
) -> Result<(), Refusal>
    ensures { OrMemory Refusal.Memory result (first_error (proof_groups (T.subject tested.now) (least_of least.now) claim.now)) }
{
    match claim {
        Claim::Best {
            at: _,
            truths: _,
            value: _,
            proof,
        } => check_tree(alloc, tested, least, proof),
        Claim::Empty { proof } => check_tree(alloc, tested, &None, proof),
        Claim::Endless {
            at: _,
            truths: _,
            ray: _,
        } => Ok(()),
    }
}

fn check_tree<T: Tested>(
    alloc: Global,
    tested: &T,
    least: &Option<Least>,
    proof: &Proof,
) -> Result<(), Refusal>
    ensures { OrMemory Refusal.Memory result (nodes_group (T.subject tested.now) (least_of least.now) proof.now) }
{
    let _nodes = proof.nodes();
    match check_nodes(alloc, tested, least, proof) {
        Ok(()) => Ok(()),
        Err(error) => Err(refusal_of_node(error)),
    }
}

/// Why an answer is refused whose claim's own tests fail so.
pub fn refusal_of_claim(error: AnswerError) -> Refusal
    ensures { result ≡ claim_refusal error }
{
    match error {
        AnswerError::Point { mark } => Refusal::Point { mark },
        AnswerError::PointWide { mark } => Refusal::PointWide { mark },
        AnswerError::Value => Refusal::Value,
        AnswerError::ValueWide => Refusal::ValueWide,
        AnswerError::Ray { mark } => Refusal::Ray { mark },
        AnswerError::RayWide { mark } => Refusal::RayWide { mark },
    }
}

fn refusal_of_node(error: CheckError) -> Refusal
    ensures { result ≡ node_refusal error }
{
    match error {
        CheckError::At { node, cause } => refusal_of_cause(node, cause),
        CheckError::Memory => Refusal::Memory,
    }
}

fn refusal_of_cause(node: u64, cause: Cause) -> Refusal
    ensures { result ≡ cause_refusal node cause }
{
    match cause {
        Cause::Tree => Refusal::Tree { node },
        Cause::Leaf => Refusal::Leaf { node },
        Cause::Wide(_) => Refusal::Wide { node },
    }
}

/// Tests the nodes of a claim's proof over the program, where it has one. Where they pass, no point of the program is
/// better than the claimed value, or there is none.
pub fn check_by_program(alloc: Global, claim: &Claim, milp: &Milp) -> Result<(), Refusal>
    ensures first { OrMemory Refusal.Memory result (first_error (proof_groups (subject_of milp.now) (least_for milp.now (best_of claim.now)) claim.now)) }
    ensures sound { OnOk result (IsProvedOf milp.now claim.now) }
{
    see_claim(claim);
    let _cols = milp.cols();
    let program = Program { milp };
    check_proof(alloc, claim, &program, &least(milp, &best(claim)))
}

// The best value that is claimed.
fn best(claim: &Claim) -> Option<Frac>
    ensures { result ≡ best_of claim.now }
{
    match claim {
        Claim::Best {
            at: _,
            truths: _,
            value,
            proof: _,
        } => Some(*value),
        Claim::Empty { proof: _ } => None,
        Claim::Endless {
            at: _,
            truths: _,
            ray: _,
        } => None,
    }
}
