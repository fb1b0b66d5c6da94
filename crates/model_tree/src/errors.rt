//! Why a call of a builder is refused.

use thiserror::Error;

/// Why a call of a builder is refused, in the order in which the causes are tested.
#[derive(Clone, Copy, Debug, PartialEq, Eq, Error)]
pub enum BuildError {
    /// The call is not allowed here.
    #[error("not allowed here")]
    Place,
    /// A declared name is taken, or one id stands twice in the terms of a row or of the goal.
    #[error("a name twice")]
    NameTwice,
    /// An id is out of range.
    #[error("an unknown name")]
    NameUnknown,
    /// A coefficient is 0, a number passes 10^15, a low bound exceeds the high one, or the number of a counting
    /// connective passes 1,000.
    #[error("a number out of range")]
    Number,
    /// A limit on depth would be passed.
    #[error("nested too deep")]
    Nesting,
    /// A block is still open.
    #[error("a block is open")]
    Unclosed,
    /// A limit on size would be passed, a name is not a valid name, or a connective has a list without arguments.
    #[error("a limit would be passed")]
    Limit,
    /// A disjunction has no disjunct, or a model no variable.
    #[error("a disjunct or a variable is missing")]
    Missing,
    /// Memory ran out.
    #[error("out of memory")]
    Memory,
}
