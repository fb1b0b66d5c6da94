//! The rows of an exact simplex tableau: primitive rows of whole numbers, and how an exchange changes them in place.
//!
//! Its contract in one sentence: a row is cleared of the entering column by the pivot row and divided by its greatest
//! common divisor, or the first column in which a number would not be narrow is named and nothing is changed; and
//! what rows do in such steps keeps the tableau of a basis, for whatever equations.
//!
//! Read `specs/Tableau.antt` for what a tableau is (its rows span the equations, and each is primitive, positive on
//! its own basic column and 0 on the others'), `specs/Steps.antt` and `specs/Width.antt` for one row's step, then
//! `specs/Sparse.antt` for a row as two lists, `row.rt` (a row, with a mark that its numbers are below 2^62; a column that
//! was read is a row too, with a number for each row) and `matrix.rt` (the rows with an entry in the entering column
//! against the pivot row). `index.rt` and `specs/Index.antt` have bits that say which rows may have an entry in a column.
//! `lists.rt` has the loops over the columns in which one of two rows has an entry, `slices.rt` the greatest common divisor
//! of a row's entries, which is left at 1, and `steps.rt` the arithmetic of one entry. `laws.rt` has the laws: a basis has one tableau, an exchange makes that of the new basis,
//! directions meet the equations, and a column may drop out.
#![tactic(auto)]

pub mod index;
pub mod laws;
mod lists;
pub mod matrix;
pub mod row;
mod slices;
pub mod steps;

pub use index::{index_exchange, index_rows};
pub use matrix::{clear_rows, first_wide_entry, narrow_rows};
pub use row::Row;
pub use steps::factors;
