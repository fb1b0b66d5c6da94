//! The test of a proof's nodes, one after the other in preorder, with one path.
//!
//! Its contract in one sentence: the first node that fails its test, or in which a number leaves 128 bits, decides, by its
//! number in preorder; and a proof whose nodes pass shows that no point has less than the value, or that there is none.
//!
//! Read `specs/Subjects.antt` for what nodes speak of and `tested.rt` for what shows itself as such, `specs/Tests.antt` for
//! the test of a node and `least.rt` for the value, and `specs/Shown.antt` for what a proof shows; then `leaves.rt` and
//! `walking.rt`.
#![tactic(auto)]

mod errors;
mod least;
mod leaves;
mod tested;
mod walking;

pub use errors::NodeError;
pub use least::Least;
pub use tested::Tested;
pub use walking::check_nodes;
