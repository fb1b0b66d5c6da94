//! When a point satisfies a model, and the value of the model's goal there.
//!
//! The test of a point answers the first test that fails or is wide. Read `satisfying.rt` for the tests in their
//! order, `verdicts.rt` for what they answer, and `valuing.rt` for the value of the goal.
#![tactic(auto)]

pub mod satisfying;
pub mod valuing;
pub mod verdicts;

pub use satisfying::satisfies;
pub use valuing::value;
pub use verdicts::{SumWide, ValueWide, Verdict};
