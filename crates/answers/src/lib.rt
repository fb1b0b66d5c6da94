//! Answers: what is claimed of a model, with its proof, by which route it was found, and why a search stops without one.
//!
//! Types alone: what makes a claim true stands with the claims of a model, what makes it pass the tests with the
//! checker, and how it is written with the grammar of answer texts. Read `claim.rt`, `answer.rt` and `stop.rt`.
#![tactic(auto)]

mod answer;
mod claim;
mod stop;

pub use answer::{Answer, Route};
pub use claim::Claim;
pub use stop::Stop;
