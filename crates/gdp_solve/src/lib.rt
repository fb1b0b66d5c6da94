//! Solves a model by any route: over its program by big-M, hull or the hybrid, or over its own truth values and integer
//! variables.
//!
//! Its contract in one sentence: `solve` claims what is true of the model, in lowest terms and with a proof that the
//! checker accepts; or it gives up, with the log of its moves in depth order, at the end of the steps or at the first
//! number past 128 bits; or it says why the model is not compiled.
//!
//! Read `specs/Logic.antt` for the answers by logic, `specs/Solved.antt` for those by all routes, then `logic.rt` and
//! `routes.rt`; `laws.rt` has the laws.
#![tactic(auto)]

pub mod laws;
pub mod logic;
pub mod routes;

pub use laws::{claims_are_right, solves_once};
pub use logic::solve_by_logic;
pub use rewrite_solving::Reached;
pub use routes::solve;
