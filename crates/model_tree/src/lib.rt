//! Models: variables, a goal, and a tree of blocks with rows, propositions and disjunctions.
//!
//! A model keeps its limits, its names differ, and all that it names is declared.
//! Read `limits.rt` for the limits, `names.rt`, `bounds.rt` and `declarations.rt` for what is declared, `errors.rt` and
//! `scaling.rt` for the whole numbers that rows and goals of fractions are stored as, and then `tree.rt` for the tree,
//! `models.rt` for what a model keeps and `points.rt` for a point of one.
#![tactic(auto)]

pub mod bounds;
pub mod declarations;
pub mod errors;
pub mod limits;
pub mod models;
pub mod names;
pub mod points;
pub mod scaling;
pub mod tree;

pub use bounds::Bound;
pub use declarations::{Booleans, Variables};
pub use errors::BuildError;
pub use models::{Goal, Model};
pub use names::{Names, begins_name, continues_name, is_name};
pub use points::ModelPoint;
pub use tree::{Block, Disjunct, Disjunction, Mode};
