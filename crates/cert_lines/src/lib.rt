//! Reads the parts of the lines of answer texts.
//!
//! Its contract in one sentence: each function reads from a line or a word exactly what `cert_grammar` says that it spells,
//! or tells the first cause against it.
//!
//! `words.rt` cuts lines and words; `number.rt` reads whole numbers that are spelled exactly; `value.rt` the value of a
//! claim, `lines.rt` the other lines before the nodes; `pairs.rt` and `nodes.rt` the multipliers and the nodes of a proof.
//! A number may be longer than its type: then it is told apart from a word that spells none, and rows are compared by
//! their digits.
#![tactic(auto)]

pub mod lines;
pub mod nodes;
pub mod number;
pub mod pairs;
pub mod value;
pub mod words;

pub use lines::{
    are_two, find_place, is_one, name_at, named_number, on_name, read_over, route_named, second_of,
};
pub use nodes::{NodeRead, read_node};
pub use number::{Natural, Whole, read_natural, read_whole};
pub use value::read_value;
pub use words::{Words, first_piece};
