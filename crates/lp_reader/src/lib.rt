//! LP texts in: what a text spells, or its first bad line and the cause.
//!
//! Its contract in one sentence: `read_lp` gives the program that the text spells by `lp_grammar`, else the first bad line
//! and its cause, and the text that is written of a program gives that program again.
//!
//! `read.rt` goes over the text once, line by line, and nothing recurses. `taking.rt` keeps what the items so far gave;
//! `goal.rt`, `row.rt`, `bound.rt`, `section.rt` and `line.rt` take items by the clauses of the definition, each function
//! one clause, with names in sums in `sum.rt`; `program.rt` has the program at the end of a text. `laws.rt` has the law that
//! what a text spells is a program.
#![tactic(auto)]

pub mod bound;
pub mod goal;
pub mod laws;
pub mod line;
pub mod program;
pub mod read;
pub mod row;
pub mod section;
pub mod sum;
pub mod taking;

pub use program::LpFile;
pub use read::{LpError, read_lp};
