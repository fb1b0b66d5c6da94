//! The items of a model, its propositions and disjunctions: the condition of each, what is known of it, and the
//! variables that occur in a disjunction.
//!
//! A point is one of the model's just where the conditions of all items are true and what is in force holds.
//!
//! Read `items.rt` for the conditions, `laws.rt` for what they say of points, and `occurring.rt` for the variables.
#![tactic(auto)]

pub mod items;
pub mod laws;
pub mod occurring;

pub use items::{item_count, item_tri};
pub use occurring::occurs;
