//! Columns of a linear program, and the places at which a number was wide.

use crate::kinds::Kind;
use item_lists::List;

/// Which sign a column's numbers may have.
#[derive(Clone, Copy, Debug, PartialEq, Eq)]
pub enum Sign {
    /// Any sign.
    Free,
    /// No negative number.
    Nonneg,
}

/// A column: which numbers it may take.
#[derive(Clone, Copy, Debug, PartialEq, Eq)]
pub struct Col {
    /// Whether only whole numbers.
    pub kind: Kind,
    /// Whether only numbers of at least 0.
    pub sign: Sign,
}

/// Where a number was wide.
#[derive(Clone, Copy, Debug, PartialEq, Eq)]
pub enum WideAt {
    /// An entry of the tableau, in an exchange.
    Entry {
        /// Its row.
        row: u32,
        /// Its column.
        column: u32,
    },
    /// The denominator or a numerator of the point, formed at this row.
    Over {
        /// The row.
        row: u32,
    },
    /// The factor or a number of the ray, formed at this row.
    Ray {
        /// The row.
        row: u32,
    },
    /// A sum that closes a leaf.
    Leaf {
        /// The row at which the sum was wide.
        row: u32,
        /// The column that is summed.
        column: u32,
    },
    /// A sum of a test of a point.
    Sum {
        /// The line of what is tested.
        mark: u32,
    },
    /// A sum of a test of a ray.
    RaySum {
        /// The line of what is tested.
        mark: u32,
    },
    /// The value of the goal.
    Value,
}

/// Columns, which contracts see as a list.
pub type ColList = List<Col>;
