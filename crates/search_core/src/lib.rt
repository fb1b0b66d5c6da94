//! Search in any order, with its log.
//!
//! Its contract in one sentence: each turn opens the half that is picked, works at its node and leaves what the rules of
//! a search say, and a search that ends has a valid proof and a true claim, or stops exactly where the rules say.
//!
//! Read `specs/Boards.antt` for what callers see of a search, then `search.rt` and `whole.rt`; `board.rt`, `boarding.rt`
//! and `arena.rt` hold the halves and what is made, `specs/Arena.antt` and `specs/Tidy.antt` how.
#![tactic(auto)]

mod arena;
mod board;
mod boarding;
mod search;
mod whole;

pub use arena::{Arena, Leaf, Slot};
pub use board::Board;
pub use search::{Promising, Search, is_right};
pub use whole::{Solved, search_nodes, solve_nodes};
