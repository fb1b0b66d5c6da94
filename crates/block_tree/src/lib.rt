//! Models: how one is built, when a point satisfies it, and what is known of each of its items.
//!
//! This crate only gathers four others under one name: `model_tree` has the tree and the model, `model_builder` how one
//! is built, `point_tests` the test of a point and the value of the goal there, and `model_items` the conditions of
//! propositions and disjunctions. A crate that should not be built again when one of them changes cites those that it
//! needs.
#![tactic(auto)]

pub mod errors;

pub use errors::{BuildError, SumWide, ValueWide, Verdict};
pub use model_builder::{ModelBuilder, builder, parts};
pub use model_items::{item_count, item_tri, items, laws, occurring, occurs};
pub use model_tree::{
    Block, Booleans, Bound, Disjunct, Disjunction, Goal, Mode, Model, ModelPoint, Names, Variables,
    begins_name, bounds, continues_name, declarations, is_name, limits, models, names, points,
    scaling, tree,
};
pub use point_tests::{satisfies, satisfying, value, valuing};
