//! Reads the texts of answers.
//!
//! Its contract in one sentence: `read_answer` gives the answer exactly where the text is its canonical text over the
//! names, else the first bad line with its first cause.
//!
//! `reader.rt` has the loop over lines and `fault.rt` its errors; `taken.rt` keeps what the lines gave so far and takes each
//! line by what is due, and `tree.rt` the nodes of the proof. A line is read in one pass, and nothing recurses. The
//! definitions are those of `cert_grammar`; `specs/` says how the reader answers.
#![tactic(auto)]

mod fault;
mod reader;
pub mod taken;
pub mod tree;

pub use fault::{CertError, LineFault};
pub use reader::read_answer;
