//! The parts of the program that an LP text spells.
//!
//! Its contract in one sentence: sums of terms, rows and objectives in whole numbers, columns with their bounds, and the
//! program that they make are those of `lp_grammar`, and each of them may be stored.
//!
//! `pending.rt` has what stands before a name and `terms.rt` the sum that is read; `scaling.rt` makes whole numbers of
//! terms, with `objective.rt` for an objective of them; `columns.rt` has columns with bounds, and `building.rt` makes the
//! program. `specs/Stored.antt` says what may be stored.
#![tactic(auto)]

pub mod building;
pub mod columns;
pub mod objective;
pub mod pending;
pub mod scaling;
pub mod terms;

pub use objective::Objective;
pub use terms::TermMap;
