//! Rows of a linear program and points, the data that every crate above speaks of.
//!
//! A row holds at a point exactly where the sum of its terms stands in its relation to its right side times
//! the point's denominator; the call that tests it gives that answer, or says that a number left 128 bits.
//! Read `kinds.rt` and `columns.rt` for the small types, `lists.rt` for the lists that fields are made of, `rows.rt` for
//! what a row may be, `points.rt` for points, and `holding.rt` for the test.
#![tactic(auto)]

pub mod columns;
pub mod holding;
pub mod kinds;
pub mod lists;
pub mod points;
pub mod rows;

pub use columns::{Col, ColList, Sign, WideAt};
pub use holding::{are_ids_below, row_holds, sum_at};
pub use kinds::{Kind, Rel, Sense, is_of_kind};
pub use lists::{Flags, Nums, Terms};
pub use points::{Point, PointError};
pub use rows::{
    Row, RowError, are_coefficients_storable, do_ids_ascend, has_zero_coefficient, is_storable,
};
