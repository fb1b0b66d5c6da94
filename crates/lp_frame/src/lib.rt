//! The standard form of the rows in force at a node of a search.
//!
//! Each free column is split into a plus and a minus column, so that all columns are non-negative: the standard
//! form has the same points and the same goal, both ways. Read `force.rt` for what holds at a node, then `form.rt`
//! and `lifting.rt` with `specs/Split.antt` and `specs/Standard.antt`; `sizes.rt` has the limits.
#![tactic(auto)]

pub mod force;
pub mod form;
pub mod lifting;
pub mod mults;
pub mod sizes;

pub use force::{AtMost, AtMostList, Force};
pub use form::{StandardForm, standard};
pub use lifting::{column_of, lift, lift_ray};
pub use mults::Mults;
pub use sizes::bounded;
