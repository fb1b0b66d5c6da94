//! The checker of answers, by whatever route they were found: what it accepts is true.
//!
//! Its contract in one sentence: `check` answers the first of an answer's ordered tests that fails, or in which a number
//! leaves 128 bits; and where it accepts, the claim is true of the model, whoever wrote the answer.
//!
//! The tests in their order: the point, its value or its ray, the compilation by the answer's route, and the nodes of the
//! proof in preorder. No part of a solver is used.
//!
//! Read `specs/Valid.antt` for the tests in their order, `errors.rt` for why an answer is refused, then `checking.rt`.
#![tactic(auto)]

pub mod checking;
pub mod errors;

pub use checking::check;
pub use errors::CheckError;
