//! Solves a model over the program that it is compiled to: the program is searched, and its point and ray are cut to the
//! model.
//!
//! Its contract in one sentence: a claim is true of the model, in lowest terms, and passes the checker's tests over that
//! program; where none is made, the log of the search ends at the budget or before the first number past 128 bits.
//!
//! Read `specs/Cuts.antt` for the cut of a point and of a ray, `specs/Laws.antt` for what a search's answer says of the
//! model, `specs/Reached.antt` and `specs/Solutions.antt` for what solving answers; then `cuts.rt`, `reached.rt` and
//! `solving.rt`.
#![tactic(auto)]

pub mod cuts;
pub mod laws;
pub mod reached;
pub mod solving;

pub use cuts::cut_ray;
pub use reached::{Reached, come_to};
pub use solving::{solve_compiled, solve_rewrite};
