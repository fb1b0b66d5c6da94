//! Why an answer is refused.

use certificate_checker::Refusal;
use hybrid_rewrite::CompileError;

/// Why an answer is refused.
#[derive(Clone, Copy, Debug, PartialEq, Eq)]
pub enum CheckError {
    /// A test of the claim, or of a node of its proof, fails or is wide; or memory ran out.
    Test(Refusal),
    /// The model is not compiled by the answer's route. That memory ran out never stands here.
    Rewrite(CompileError),
}
