//! What is read at a path of a model before anything is solved: the first false item, and the least open Boolean.
//!
//! Its contract in one sentence: the answers are exactly the first item whose condition is read as false at the path, and
//! the least Boolean that is open there.
//!
//! Read `specs/Reading.antt`, then `dead.rt` (one walk over the model's items, with `falsity.rt` for each of them) and
//! `loose.rt`.
#![tactic(auto)]

mod dead;
mod falsity;
mod loose;

pub use dead::{false_item, first_false_item};
pub use loose::open_boolean;
