//! The LP text of a program.
//!
//! Its contract in one sentence: `lp_text` gives exactly the text that `lp_text_of` of `lp_grammar` defines, which spells
//! the program with constant 0 and scale 1.
//!
//! Read `put.rt` from its end: the program, its sections, and their lines; `put_word` and its kin are of `text_printer`.
#![tactic(auto)]

mod put;

pub use put::{lp_text, put_milp};
