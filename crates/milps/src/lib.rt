//! Mixed-integer programs: what one is, when numbers are a point of it, and how one is built.
//!
//! Its contract in one sentence: each call of the builder answers and leaves what its outcome says, a refused call changes
//! nothing, and every program that is built keeps the limits on columns, rows and numbers.
//!
//! Read `specs/Milps.antt` for programs, points and the normal form of a row, `specs/Building.antt` for the limits and the
//! outcomes, then `builder.rt`, and `gathering.rt` for the normal form in code.
#![tactic(auto)]

pub mod builder;
pub mod gathering;

pub use builder::{Milp, MilpBuilder, MilpError};
