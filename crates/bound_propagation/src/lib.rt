//! The box of a model: whole bounds of its variables after eight rounds over the root's rows, and the greatest value of
//! a sum over it, from which the M of a relaxed row comes.
//!
//! Its contract in one sentence: `propagate` answers the box of eight rounds, in which every point of the model lies, and
//! `max_of` the greatest value of a sum over it, or the variable of the first term whose bound is missing.
//!
//! Read `bounds.rt` for a box, `maxima.rt` for what `max_of` answers, `propagating.rt` for the rounds; below it
//! `declaring.rt` has the box before the first round, `narrowing.rt` what rows make of it, `moving.rt` which rows a round has
//! to visit, `tallies.rt` and `rounding.rt` the numbers of one limit, and `laws.rt` the law that points lie in boxes.
#![tactic(auto)]

pub mod bounds;
mod declaring;
pub mod laws;
pub mod maxima;
mod moving;
mod narrowing;
pub mod propagating;
mod rounding;
mod tallies;

pub use bounds::Bounds;
pub use laws::points_lie_in_boxes;
pub use maxima::Max;
pub use propagating::propagate;
