//! What holds at a node of a search.

use item_lists::List;
use lp_rows::{ColList, Terms};

/// A row: the sum of its terms is at most its bound.
#[derive(Drop)]
pub struct AtMost {
    /// The columns with their coefficients, ids ascending.
    pub terms: Terms,
    /// The bound.
    pub bound: i128,
}

/// What holds at a node: columns, at-most rows and the goal, which is to be minimised.
#[derive(Drop)]
pub struct Force {
    /// The columns.
    pub cols: ColList,
    /// The rows.
    pub rows: AtMostList,
    /// The goal's terms.
    pub goal: Terms,
}

/// At-most rows, which contracts see as a list.
pub type AtMostList = List<AtMost>;
