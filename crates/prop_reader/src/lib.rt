//! Propositions in: what the tokens of a `logic` line spell.
//!
//! `line_prop` gives the tree that the line's tokens spell, or the first cause against it. The tokens are read once,
//! from left to right, with a stack and without recursion, so however deep they nest, a line is read or refused, and
//! only what keeps the limits is built.
//! `operator.rt` has the operators and their words, `head.rt` takes what begins an argument and what ends it, `size.rt`
//! measures, `opened.rt` has what is open, `read.rt` reads, and `logic.rt` tells what a line gives.
#![tactic(auto)]

pub mod head;
pub mod logic;
pub mod opened;
pub mod operator;
pub mod read;
pub mod size;

pub use logic::line_prop;
