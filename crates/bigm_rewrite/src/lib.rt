//! Rows relaxed by big-M: in force where a switch is on, and true of every point of the box where it is off.
//!
//! Its contract in one sentence: `relaxed_rows` answers the at-most rows of a row under a frame, a scale and a switch, or
//! the first refusal, a bound that is missing or a number past 10^15, as the rewrite of the row lists them.
//!
//! Read `switches.rt` for switches, `relaxing.rt` for the rows, and `laws.rt` for the laws that tie what is answered to
//! what is listed (`specs/Relaxed.antt`), and that to what the row says (`specs/Laws.antt`).
#![tactic(auto)]

pub mod laws;
pub mod relaxing;
pub mod switches;

pub use laws::{answers_are_listed, relaxed_rows_are_exact};
pub use relaxing::{RelaxedRow, RelaxedRows, Unfit, column_of, relaxed_rows};
pub use switches::Switch;
