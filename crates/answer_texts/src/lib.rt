//! Answers and their texts, both ways: what is written is read again, and what is read is written again.
//!
//! Its contract in one sentence: an answer that is written is read as that answer, and a text that is read is written
//! byte for byte, both from the clauses of `cert_writer` and `cert_reader` alone, for the names of every model.
//!
//! Read `models.rt` for answers over a model, with `specs/ModelNames.antt`, then `laws.rt`.
#![tactic(auto)]

mod laws;
mod models;

pub use laws::{model_names, one_answer, read_again, write_again};
pub use models::{boolean_names, model_answer_text, read_model_answer, variable_names};
