//! What an accepted answer over a rewrite says of the model.
//!
//! Its contract in one sentence: where the tests of an answer pass over a program that is an exact rewrite of a model, the
//! claim is true of the model, whoever wrote the answer.
//!
//! Read `specs/Accepted.antt` for the laws that `laws.rt` states.
#![tactic(auto)]

pub mod laws;
