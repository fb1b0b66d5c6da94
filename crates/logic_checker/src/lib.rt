//! The checker of answers over a model itself, by its truth values and integer variables.
//!
//! Its contract in one sentence: the first test of an answer that fails, or in which a number leaves 128 bits, decides; and
//! where all pass, the claim is true of the model, whoever wrote the answer.
//!
//! Read `specs/Models.antt` for the nodes over a model, `specs/Accepted.antt` for the law that `laws.rt` states, and
//! `models.rt`.
#![tactic(auto)]

pub mod laws;
pub mod models;

pub use models::check_by_logic;
