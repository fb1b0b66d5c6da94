//! What is claimed of a model.

use fractions::Frac;
use lp_rows::{Flags, Nums, Point};
use proof_tree::Proof;

/// What is claimed of a model. Points and rays have a number for each variable of the model, and truths one for each of
/// its Booleans.
#[derive(Drop)]
pub enum Claim {
    /// No point is better than this one.
    Best {
        /// Its numbers.
        at: Point,
        /// Its truths.
        truths: Flags,
        /// Its value: the goal's, as the model states it.
        value: Frac,
        /// That no point is better.
        proof: Proof,
    },
    /// There is no point.
    Empty {
        /// That there is none.
        proof: Proof,
    },
    /// From this point on the goal gets better without end.
    Endless {
        /// Its numbers.
        at: Point,
        /// Its truths.
        truths: Flags,
        /// The ray that leads from it.
        ray: Nums,
    },
}
