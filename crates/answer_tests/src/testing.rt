//! The tests of a claim, group by group.

ghost use Rattle.std.specs.Prelude.{◌≡◌, length};
ghost use Rattle.model_tree.specs.Values.{model_tree};
ghost use Rattle.answer_tests.specs.Groups.{point_group, value_group, ray_group, claim_groups, first_error};
ghost use Rattle.answer_tests.specs.Counted.{IsCounted};
ghost use Rattle.answer_tests.specs.Laws.{IsClaim};

use crate::errors::AnswerError;
use crate::rays::ray_verdict;
use answers::Claim;
use fractions::Frac;
use lp_rows::Point;
use model_tree::Model;
use point_tests::{Verdict, satisfies, value};

/// Tests that the point satisfies the model.
pub fn test_point(model: &Model, at: &Point, truths: &[bool]) -> Result<(), AnswerError>
    requires numbers { length at.now.nums ≡ length model.now.vars }
    requires truths { length truths.now ≡ length model.now.booleans }
    ensures { result ≡ point_group (model_tree model.now) at.now truths.now }
{
    match satisfies(model, at, truths) {
        Ok(Verdict::Holds) => Ok(()),
        Ok(Verdict::FailsAt(mark)) => Err(AnswerError::Point { mark }),
        Err(wide) => Err(AnswerError::PointWide { mark: wide.mark }),
    }
}

/// Tests that the value is the goal's at the point.
pub fn test_value(model: &Model, at: &Point, given: Frac) -> Result<(), AnswerError>
    requires { length at.now.nums ≡ length model.now.vars }
    ensures { result ≡ value_group model.now.goal at.now given }
{
    let _given = given.den();
    match value(model, at) {
        Ok(own) => {
            if own == given {
                Ok(())
            } else {
                Err(AnswerError::Value)
            }
        }
        Err(_) => Err(AnswerError::ValueWide),
    }
}

/// Tests that the ray leads from points with these truths to better ones without end.
pub fn test_ray(model: &Model, truths: &[bool], ray: &[i128]) -> Result<(), AnswerError>
    requires numbers { length ray.now ≡ length model.now.vars }
    requires truths { length truths.now ≡ length model.now.booleans }
    ensures { result ≡ ray_group (model_tree model.now) truths.now ray.now }
{
    match ray_verdict(model, truths, ray) {
        Ok(Verdict::Holds) => Ok(()),
        Ok(Verdict::FailsAt(mark)) => Err(AnswerError::Ray { mark }),
        Err(wide) => Err(AnswerError::RayWide { mark: wide.mark }),
    }
}

/// Tests a claim: its point, then its value or its ray.
pub fn test_claim(model: &Model, claim: &Claim) -> Result<(), AnswerError>
    requires { IsCounted (model_tree model.now) claim.now }
    ensures { result ≡ first_error (claim_groups (model_tree model.now) claim.now) }
{
    match claim {
        Claim::Best {
            at,
            truths,
            value,
            proof: _,
        } => {
            test_point(model, at, truths.as_slice())?;
            test_value(model, at, *value)
        }
        Claim::Empty { proof: _ } => Ok(()),
        Claim::Endless { at, truths, ray } => {
            test_point(model, at, truths.as_slice())?;
            test_ray(model, truths.as_slice(), ray.as_slice())
        }
    }
}

/// What each claim has: positive denominators, and a proof that is a tree.
pub fn see_claim(claim: &Claim)
    ensures { IsClaim claim.now }
{
    match claim {
        Claim::Best {
            at,
            truths: _,
            value,
            proof,
        } => {
            let _over = at.over();
            let _den = value.den();
            let _nodes = proof.nodes();
        }
        Claim::Empty { proof } => {
            let _nodes = proof.nodes();
        }
        Claim::Endless {
            at,
            truths: _,
            ray: _,
        } => {
            let _over = at.over();
        }
    }
}
