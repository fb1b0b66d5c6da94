//! What a search rests on that branches on truth values and integer variables of a model: what is found at a path, and
//! the laws of the nodes.
//!
//! Its contract in one sentence: the nodes of a model promise what a search needs, so that what a complete search claims is
//! true of the model.
//!
//! Read `specs/Nodes.antt` for the problem and for what is found at a path, `specs/Promises.antt` and `specs/Rays.antt` for
//! the laws, then `testing.rt` and `reading.rt`.
#![tactic(auto)]

pub mod laws;
pub mod promises;
pub mod reading;
mod testing;

pub use reading::loose;
pub use testing::model_point;
