//! Why a line isn't read.

use gdp_grammar::ReadCause;
use model_tree::BuildError;
use outcomes::Memory;
use std::alloc::{AllocError, AllocFailed};

/// Why a line isn't read: it is refused, or memory ran out.
#[derive(Clone, Copy, Debug, PartialEq, Eq)]
pub enum LineError {
    Refused(ReadCause),
    Memory,
}

impl From<AllocError> for LineError {
    ghost use Rattle.std.specs.Prelude.{◌≡◌};
    ghost use Rattle.gdp_lines.specs.declared.fault.LineError.TheVariants.{Memory};

    ghost from_gives = { λ _ e. e ≡ Memory };

    fn from(_error: AllocError) -> LineError {
        LineError::Memory
    }
}

impl<T: Drop> From<AllocFailed<T>> for LineError {
    ghost use Rattle.std.specs.Prelude.{◌≡◌};
    ghost use Rattle.gdp_lines.specs.declared.fault.LineError.TheVariants.{Memory};

    ghost from_gives = { λ _ e. e ≡ Memory };

    fn from(_refused: AllocFailed<T>) -> LineError {
        LineError::Memory
    }
}

impl From<Memory> for LineError {
    ghost use Rattle.std.specs.Prelude.{◌≡◌};
    ghost use Rattle.gdp_lines.specs.declared.fault.LineError.TheVariants as error;

    ghost from_gives = { λ _ e. e ≡ error.Memory };

    fn from(_memory: Memory) -> LineError {
        LineError::Memory
    }
}

impl From<ReadCause> for LineError {
    ghost use Rattle.std.specs.Prelude.{◌≡◌};
    ghost use Rattle.gdp_lines.specs.declared.fault.LineError.TheVariants.{Refused};

    ghost from_gives = { λ cause e. e ≡ Refused cause };

    fn from(cause: ReadCause) -> LineError {
        LineError::Refused(cause)
    }
}

impl From<BuildError> for LineError {
    ghost use Rattle.std.specs.Prelude.{◌≡◌};
    ghost use Rattle.gdp_lines.specs.Refusals.{line_error};

    ghost from_gives = { λ refusal e. e ≡ line_error refusal };

    fn from(refusal: BuildError) -> LineError {
        match refusal {
            BuildError::Place => LineError::Refused(ReadCause::Form),
            BuildError::NameTwice => LineError::Refused(ReadCause::NameTwice),
            BuildError::NameUnknown => LineError::Refused(ReadCause::NameUnknown),
            BuildError::Number => LineError::Refused(ReadCause::Number),
            BuildError::Nesting => LineError::Refused(ReadCause::Nesting),
            BuildError::Unclosed => LineError::Refused(ReadCause::Unclosed),
            BuildError::Limit => LineError::Refused(ReadCause::Limit),
            BuildError::Missing => LineError::Refused(ReadCause::Missing),
            BuildError::Memory => LineError::Memory,
        }
    }
}
