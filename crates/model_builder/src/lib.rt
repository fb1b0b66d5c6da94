//! How a model is built.
//!
//! A builder stands for what it was given: each call appends exactly what it says, or refuses with the first cause
//! that holds and changes nothing.
//! Read `builder.rt` for the calls, then `specs/Building.antt`, `specs/Nesting.antt` and `specs/Props.antt` for what
//! they answer and leave, `parts.rt` for how they do it, and `queries.rt` for what a builder tells on the way.
#![tactic(auto)]

pub mod builder;
pub mod parts;
mod prop_limits;
mod queries;

pub use builder::ModelBuilder;
