//! What answer texts say, line by line: a route, a claim with its point, and the nodes of a proof.
//!
//! Its contract in one sentence: a text spells an answer exactly where it is the canonical text of that answer, and
//! every other text has one first bad line with one cause.
//!
//! Lines are exact: single blanks, no leading zeros, and a newline at the end of each. So a text is read exactly where it
//! is the text of what is read. Read `specs/` in the order Wholes, ExactLines, Nodes, Trees, Claims,
//! Answers, Laws; `due.rt` has the lines that may be due, and `laws.rt` the laws, each the contract of a function with an
//! empty body.
#![tactic(auto)]

pub mod cause;
pub mod due;
pub mod laws;

pub use cause::CertCause;
pub use due::{ClaimKind, Due};
