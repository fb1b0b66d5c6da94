//! What a search ends with.

use crate::waiting::Best;
use answers::Stop;
use lp_rows::{Flags, Nums, Point};
use proof_tree::Proof;

/// What a complete search claims, with its proof.
#[derive(Drop)]
pub enum Outcome {
    /// The best point, and a proof that none is better.
    Best {
        /// The point.
        best: Best,
        /// The proof.
        proof: Proof,
    },
    /// There is no point.
    Empty {
        /// The proof.
        proof: Proof,
    },
}

/// What a whole search comes to.
#[derive(Drop)]
pub enum Answer {
    /// The best point or that there is none, with its proof.
    Done(Outcome),
    /// A point and a ray along which the goal has no least value.
    Endless {
        /// The point.
        at: Point,
        /// Its truths.
        truths: Flags,
        /// The ray.
        ray: Nums,
    },
    /// The search stopped.
    Stopped(Stop),
}
