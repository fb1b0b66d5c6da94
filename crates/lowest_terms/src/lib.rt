//! Answers in lowest terms, with their own tests.
//!
//! Its contract in one sentence: a point and its value, or a point and its ray, are made a claim in lowest terms that
//! passes its own tests, or the first of those tests that does not pass is answered; and of what is true of the model no
//! test fails, so that it is wide.
//!
//! Read `specs/Terms.antt` for lowest terms and `terms.rt`, `specs/Made.antt` for the claims that are made and
//! `making.rt`, and `specs/Laws.antt` for the laws that `laws.rt` states.
#![tactic(auto)]

pub mod laws;
pub mod making;
pub mod terms;

pub use making::{MakeError, best_claim, endless_claim, wide_place};
pub use terms::lowest_of;
