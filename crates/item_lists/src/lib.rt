//! A growing list, which contracts see as std's list of its items.
//!
//! Its contract in one sentence: each call answers of the items in order, and one that runs out of memory changes nothing.
//!
//! Crates above name their lists as this one of some item: `lp_rows::Nums`, `lp_rows::ColList`, `lp_frame::Mults`. A field
//! of such a type is a list in their contracts, where a `Vec` would be its items and its capacity.
//! Read `list.rt`.
#![tactic(auto)]

pub mod list;

pub use list::List;
