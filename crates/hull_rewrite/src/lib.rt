//! Copies of a hull: for each disjunct one of each variable that occurs, a rest where the scale is on and the disjunction
//! is not, and the sums that tie the copies to the variable.
//!
//! Its contract in one sentence: `expand` emits the copies, rests and sums of a disjunction, or refuses by the first
//! variable that occurs and lacks a bound, and answers the frames of its disjuncts; `hulled` says which disjunctions a
//! choice rewrites by hull.
//!
//! Read `choices.rt` for the choices, `occurring.rt` for the variables that occur, `frames.rt` for frames, `copying.rt`
//! for copies, rests and sums, `expanding.rt` for the whole; `framing.rt` and `switching.rt` have the rows of a block
//! under any frame, and `laws.rt` what a hull's items say of a point.
#![tactic(auto)]

pub mod choices;
pub mod copying;
pub mod expanding;
pub mod frames;
pub mod framing;
pub mod laws;
pub mod occurring;
pub mod switching;

pub use choices::{Choice, hulled, is_hulled};
pub use expanding::expand;
pub use frames::{Frame, FrameList};
pub use framing::emit_rows;
pub use laws::{expansions_are_exact, occurring_are_listed};
pub use occurring::{first_unbounded, occurring_in};
