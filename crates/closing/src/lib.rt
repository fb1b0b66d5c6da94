//! Multipliers that close a node of a search: they refute what is in force there, or bound its goal from below.
//!
//! Its contract in one sentence: each call answers the first of its tests that fails or in which a number leaves 128
//! bits; multipliers that pass show what they claim (by Farkas and by weak duality), and multipliers that show it are
//! refused only where a number is wide.
//!
//! Read `specs/Rows.antt` for the sums, `specs/Closing.antt` for the tests in their order, `specs/Shown.antt` for what
//! they show, and `closing.rt` for the two public calls; `summing.rt` has the sums.
#![tactic(auto)]

mod closing;
mod summing;

pub use closing::{bounds, refutes};
