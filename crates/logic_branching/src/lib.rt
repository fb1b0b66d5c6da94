//! The search over a model by branching on truth values and integer variables.
//!
//! Its contract in one sentence: what a whole search answers comes with a log in depth order, a complete one claims the
//! truth of the model, and any other true claim, by whatever route it was had, is of the same kind and value.
//!
//! Read `specs/Claimed.antt` for what an answer claims, `solving.rt`, and `laws.rt`; `nodes.rt` gives the nodes to the
//! search.
#![tactic(auto)]

pub mod laws;
mod nodes;
mod solving;

pub use nodes::LogicNodes;
pub use solving::solve_logic;
