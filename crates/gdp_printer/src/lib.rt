//! The canonical text of a model.
//!
//! `model_text` gives exactly the text that `canonical_text` of `gdp_grammar` defines: the same bytes for every model
//! that is the same but for its marks. Each function here appends what its contract says to a text. Read `numbers.rt`
//! for numbers and words, `lines.rt` for the lines, and `blocks.rt` for the walk through the tree of blocks.
#![tactic(auto)]

mod blocks;
mod indicators;
mod lines;
pub mod models;
mod numbers;
mod props;
mod sums;

pub use models::model_text;
pub use props::put_prop_line;
