//! Claims that are made of a point, with their own tests.

ghost use Rattle.std.specs.Prelude.{◌≡◌, length};
ghost use Rattle.model_tree.specs.Values.{model_tree};
ghost use Rattle.answer_tests.specs.Groups.{claim_groups};
ghost use Rattle.lowest_terms.specs.Made.{IsBestOf, IsEndlessOf, IsMade, wide_place as place_of};

use crate::terms::lowest_of;
use answer_tests::{AnswerError, test_point, test_ray};
use answers::Claim;
use lp_rows::{Flags, Nums, Point, WideAt};
use model_tree::Model;
use point_tests::value;
use proof_tree::Proof;
use std::alloc::Global;

/// Why no claim is made.
#[derive(Clone, Copy, Debug, PartialEq, Eq)]
pub enum MakeError {
    /// A test does not pass.
    Test(AnswerError),
    /// Memory ran out.
    Memory,
}

/// The claim that the point is a best one: the point in lowest terms, with its value.
pub fn best_claim(
    alloc: Global,
    model: &Model,
    at: &Point,
    truths: Flags,
    proof: Proof,
) -> Result<Claim, MakeError>
    requires numbers { length at.now.nums ≡ length model.now.vars }
    requires truths { length truths ≡ length model.now.booleans }
    ensures { IsMade at.now (λ y r. IsBestOf (model_tree model.now) y truths proof r) result }
{
    match lowest_of(alloc, at) {
        Ok(lowest) => match best_of(model, lowest, truths, proof) {
            Ok(claim) => Ok(claim),
            Err(error) => Err(MakeError::Test(error)),
        },
        Err(_) => Err(MakeError::Memory),
    }
}

// The claim of this very point.
fn best_of(model: &Model, at: Point, truths: Flags, proof: Proof) -> Result<Claim, AnswerError>
    requires numbers { length at.nums ≡ length model.now.vars }
    requires truths { length truths ≡ length model.now.booleans }
    ensures { IsBestOf (model_tree model.now) at truths proof result }
{
    match test_point(model, &at, truths.as_slice()) {
        Ok(()) => {}
        Err(error) => return Err(error),
    }
    match value(model, &at) {
        Ok(value) => Ok(Claim::Best {
            at,
            truths,
            value,
            proof,
        }),
        Err(_) => Err(AnswerError::ValueWide),
    }
}

/// The claim that the ray leads from the point to better ones without end: the point in lowest terms.
pub fn endless_claim(
    alloc: Global,
    model: &Model,
    at: &Point,
    truths: Flags,
    ray: Nums,
) -> Result<Claim, MakeError>
    requires numbers { length at.now.nums ≡ length model.now.vars }
    requires truths { length truths ≡ length model.now.booleans }
    requires ray { length ray ≡ length model.now.vars }
    ensures { IsMade at.now (λ y r. IsEndlessOf (model_tree model.now) y truths ray r) result }
{
    match lowest_of(alloc, at) {
        Ok(lowest) => match endless_of(model, lowest, truths, ray) {
            Ok(claim) => Ok(claim),
            Err(error) => Err(MakeError::Test(error)),
        },
        Err(_) => Err(MakeError::Memory),
    }
}

// The claim of this very point.
fn endless_of(model: &Model, at: Point, truths: Flags, ray: Nums) -> Result<Claim, AnswerError>
    requires numbers { length at.nums ≡ length model.now.vars }
    requires truths { length truths ≡ length model.now.booleans }
    requires ray { length ray ≡ length model.now.vars }
    ensures { IsEndlessOf (model_tree model.now) at truths ray result }
{
    match test_point(model, &at, truths.as_slice()) {
        Ok(()) => {}
        Err(error) => return Err(error),
    }
    match test_ray(model, truths.as_slice(), ray.as_slice()) {
        Ok(()) => Ok(Claim::Endless { at, truths, ray }),
        Err(error) => Err(error),
    }
}

/// The place at which an answer's own test was wide, where one was.
pub fn wide_place(error: AnswerError) -> Option<WideAt>
    ensures { result ≡ place_of error }
{
    match error {
        AnswerError::Point { mark: _ } => None,
        AnswerError::PointWide { mark } => Some(WideAt::Sum { mark }),
        AnswerError::Value => None,
        AnswerError::ValueWide => Some(WideAt::Value),
        AnswerError::Ray { mark: _ } => None,
        AnswerError::RayWide { mark } => Some(WideAt::RaySum { mark }),
    }
}
