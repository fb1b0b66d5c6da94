//! What the calls on a model answer.

pub use model_tree::BuildError;
pub use point_tests::{SumWide, ValueWide, Verdict};
