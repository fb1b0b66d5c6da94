//! Halves that are not opened, and the best point.

use exact_simplex::Event;
use fractions::Frac;
use lp_rows::{Flags, Nums, Point};
use proof_tree::Path;

/// A half that is not opened.
#[derive(Drop)]
pub struct Waiting {
    /// In order of making.
    pub number: usize,
    /// What opens it.
    pub event: Event,
    /// Its path.
    pub path: Path,
    /// A ray that is kept from above.
    pub kept: Option<Nums>,
}

/// A point with the value of the goal there.
#[derive(Drop)]
pub struct Best {
    /// The point.
    pub at: Point,
    /// Its truths.
    pub truths: Flags,
    /// The value.
    pub value: Frac,
}
