//! The search over a mixed-integer program.
#![tactic(auto)]

mod nodes;
mod solving;

pub use nodes::MilpNodes;
pub use solving::{search_milp, solve_milp};
