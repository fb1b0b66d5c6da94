//! The bounds of a variable.

use fractions::Frac;

/// The least and the greatest value of a variable; None where it has none.
#[derive(Clone, Copy, Debug, PartialEq, Eq)]
pub struct Bound {
    /// The least value.
    pub low: Option<Frac>,
    /// The greatest value.
    pub high: Option<Frac>,
}
