//! Why a line is not taken, and why a text is not read.

use cert_grammar::CertCause;

/// Why a line is not taken.
#[derive(Clone, Copy, Debug, PartialEq, Eq)]
pub enum LineFault {
    /// The line is refused.
    Refused(CertCause),
    /// Memory ran out.
    Memory,
}

/// Why a text is not read.
#[derive(Clone, Copy, Debug, PartialEq, Eq)]
pub enum CertError {
    /// A line is refused, the first of those that are.
    At {
        /// Its number.
        line: u64,
        /// The first cause against it.
        cause: CertCause,
    },
    /// Memory ran out.
    Memory,
}
