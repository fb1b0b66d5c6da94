//! The texts of answers for LP files.
//!
//! Its contract in one sentence: what a search over the program of a file found is written in lowest terms, with the file's
//! names and the value of its objective, or a number on the way to that value is wide.
//!
//! Read `specs/Values.antt` and `values.rt` for the value, `specs/Points.antt` and `points.rt` for the numbers that are
//! written, then `specs/Texts.antt` and `texts.rt`; `lines.rt` has their lines.
#![tactic(auto)]

pub mod lines;
pub mod points;
pub mod texts;
pub mod values;

pub use lines::put_value;
pub use texts::{LpTextError, best_text, empty_text, endless_text};
