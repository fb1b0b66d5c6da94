//! Propositions over Booleans: their truth, what is known of it where some Booleans are open, and how large they are.
//!
//! A reading with open Booleans says yes or no only where every completion of what is open gives that.
//! Read `tree.rt` with `specs/Tree.antt` and `specs/View.antt`, then `truths.rt` with `specs/Truth.antt`, `reading.rt`
//! with `specs/Reading.antt` and `specs/Laws.antt`, and `sizes.rt` with `specs/Sizes.antt`.
#![tactic(auto)]

pub mod copying;
pub mod reading;
pub mod sizes;
pub mod tree;
pub mod truths;

pub use copying::copy;
pub use reading::{Counts, at_least_of, exactly_of, is_open, is_yes, tri};
pub use sizes::{depth, greatest_number, has_empty_list, most_arguments, node_count};
pub use tree::Prop;
pub use truths::{has_ids_below, truth};
