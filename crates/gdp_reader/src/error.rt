//! Why a text isn't read.

ghost use Rattle.std.specs.Prelude.{◌≡◌};

use gdp_grammar::ReadCause;
use gdp_lines::fault::LineError;
use thiserror::Error;

/// Why a text isn't read: its first bad line, or the line after its last, with the cause; or memory ran out.
#[derive(Clone, Copy, Debug, PartialEq, Eq, Error)]
pub enum ReadError {
    /// The first bad line and its cause.
    #[error("line {line}: {cause:?}")]
    At { line: u32, cause: ReadCause },
    /// Memory ran out.
    #[error("out of memory")]
    Memory,
}

impl ReadError {
    ghost use Rattle.gdp_reader.specs.steps.Errors.{error_at};

    /// What a text answers for the error of this line.
    pub fn at(line: u32, error: LineError) -> ReadError
        ensures { result ≡ error_at line error }
    {
        match error {
            LineError::Refused(cause) => ReadError::At { line, cause },
            LineError::Memory => ReadError::Memory,
        }
    }
}
