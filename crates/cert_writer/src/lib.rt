//! Writes the texts of answers.
//!
//! Its contract in one sentence: `answer_text` gives exactly the text that `cert_grammar` defines for the answer, which
//! spells it, or runs out of memory.
//!
//! `answer.rt` writes the answer, its claim and the lines of points, `tree.rt` those of a proof, and
//! `word.rt` their words. Each function appends the text that its clause names, and says beside it that the numbers it wrote
//! fit their types, so that what is written is an answer that may be read.
#![tactic(auto)]

mod answer;
mod tree;
mod word;

pub use answer::answer_text;
pub use word::put_route;
