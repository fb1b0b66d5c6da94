//! What a turn comes to, and why it stops.

use answers::Stop;
use lp_rows::{Flags, Nums, Point};

/// What a turn comes to.
#[derive(Drop)]
pub enum Turn {
    /// The node settled.
    Rested,
    /// A point and a ray along which the goal has no least value.
    Endless {
        /// The point.
        at: Point,
        /// Its truths.
        truths: Flags,
        /// The ray.
        ray: Nums,
    },
}

/// Why a turn has no answer.
#[derive(Clone, Copy, Debug, PartialEq, Eq)]
pub enum TurnError {
    /// The search stops.
    Stopped(Stop),
    /// Memory ran out.
    Memory,
}
