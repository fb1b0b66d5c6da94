//! Models made from a number: a seed and a size give a model, to measure a solver with or to test it.
//!
//! Its contract in one sentence: `make_model` gives the model that `generated` names for the seed and the size, or runs out
//! of memory.
//!
//! Read `specs/Draws.antt`, `specs/Generated.antt`, then `draws.rt`, `make.rt`, `variables.rt`, `choices.rt` and `calls.rt`.
#![tactic(auto)]

mod calls;
mod choices;
pub mod draws;
pub mod laws;
mod make;
mod variables;

pub use make::make_model;
