//! Tables: keywords with their codes, and the connectives of truth values of which some are open.
//!
//! A table of keywords has no two equal spellings, so a word has at most one code; and a three-valued connective knows
//! an answer exactly where every completion of what is open gives it.
//! Read `word.rt` and `words.rt` with `specs/Keywords.antt`, and `tri.rt` with `specs/Readings.antt`, `specs/Completions.antt` and
//! `specs/Laws.antt`, whose laws are the contracts of `laws.rt`.
#![tactic(auto)]

pub mod laws;
pub mod tri;
pub mod word;
pub mod words;

pub use tri::{Tri, tri_and, tri_not, tri_or, tri_same};
pub use word::Word;
pub use words::Words;

#[cfg(test)]
mod tests;
