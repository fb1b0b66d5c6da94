//! Points of a model.

use lp_rows::{Flags, Point};

/// A point of a model: a number for each variable, and whether each Boolean is true.
#[derive(Drop)]
pub struct ModelPoint {
    pub at: Point,
    pub truths: Flags,
}
