//! Programs that are built from columns, rows and bounds.

ghost use Rattle.std.specs.Prelude.{◌≡◌, ◌<◌, ◌≤◌, false, true, [], ◌∷◌, ◌++◌, List, map, length, IfOk, OnOk};
ghost use Rattle.lp_rows.specs.Rows.{RowValue};
ghost use Rattle.lp_rows.specs.declared.columns.Col.{Col};
ghost use Rattle.lp_grammar.specs.Programs.{AreStored, AreStoredRows, IsStoredRow};
ghost use Rattle.lp_grammar.specs.Reading.{is_zero as is_zero_of, col_of, end_row, low_row, bound_rows, is_within};
ghost use Rattle.lp_parts.specs.Grown.{with_cols, with_rows, Grows};
ghost use Rattle.lp_parts.specs.Stored.{IsStoredBound, AreStoredBounds};

use fractions::Frac;
use lp_grammar::Column;
use lp_rows::{Col, Kind, Rel, Row, Sense, Sign};
use milps::{MilpBuilder, MilpError};
use outcomes::Memory;
use std::alloc::Global;

/// Whether a bound is 0.
fn is_zero(bound: &Option<Frac>) -> bool
    ensures { result ≡ is_zero_of bound.now }
{
    match bound {
        None => false,
        Some(bound) => bound.num() == 0,
    }
}

/// The column of a program.
fn make_col(column: Column) -> Col
    ensures { result ≡ col_of column }
{
    Col {
        kind: if column.is_integer {
            Kind::Int
        } else {
            Kind::Real
        },
        sign: if is_zero(&column.low) {
            Sign::Nonneg
        } else {
            Sign::Free
        },
    }
}

/// Adds a column; whether it is within the limits.
fn push_col(milp: &mut MilpBuilder, alloc: Global, col: Col) -> Result<bool, Memory>
    ensures fits { IfOk result (λ fits. fits ≡ true → Grows true milp.new (with_cols milp.old (col ∷ []))) }
    ensures past { IfOk result (λ fits. fits ≡ false → (more : List Col) → is_within (with_cols milp.old (col ∷ more)) ≡ false) }
{
    match milp.push_col(alloc, col) {
        Ok(_) => Ok(true),
        Err(MilpError::Memory) => Err(Memory),
        Err(MilpError::TooBig) => Ok(false),
        Err(MilpError::Coefficient) => unreachable!(),
    }
}

/// Adds columns; whether they are within the limits.
pub fn push_cols(milp: &mut MilpBuilder, alloc: Global, columns: &[Column]) -> Result<bool, Memory>
    requires { is_within milp.old ≡ true }
    ensures { IfOk result (λ fits. Grows fits milp.new (with_cols milp.old (map col_of columns.now))) }
{
    'columns: for column in columns {
        if !push_col(milp, alloc, make_col(*column))? {
            return Ok(false);
        }
    }
    Ok(true)
}

/// Sets the goal.
pub fn set_goal(
    milp: &mut MilpBuilder,
    alloc: Global,
    sense: Sense,
    terms: &[(u32, i128)],
) -> Result<(), Memory>
    requires within { is_within milp.old ≡ true }
    requires stored { AreStored (length milp.old.cols) terms.now }
    ensures { OnOk result (milp.new ≡ record milp.old { sense = sense; goal = terms.now }) }
{
    match milp.set_goal(alloc, sense, terms) {
        Ok(()) => Ok(()),
        Err(MilpError::Memory) => Err(Memory),
        Err(MilpError::TooBig) => unreachable!(),
        Err(MilpError::Coefficient) => unreachable!(),
    }
}

/// Adds a row; whether it is within the limits.
fn push_row(
    milp: &mut MilpBuilder,
    alloc: Global,
    terms: &[(u32, i128)],
    rel: Rel,
    right: i128,
) -> Result<bool, Memory>
    requires within { is_within milp.old ≡ true }
    requires stored { IsStoredRow (length milp.old.cols) (record { terms = terms.now; rel = rel; right = right }) }
    ensures fits { IfOk result (λ fits. fits ≡ true → Grows true milp.new (with_rows milp.old (record { terms = terms.now; rel = rel; right = right } ∷ []))) }
    ensures past { IfOk result (λ fits. fits ≡ false → (more : List RowValue) → is_within (with_rows milp.old (record { terms = terms.now; rel = rel; right = right } ∷ more)) ≡ false) }
{
    match milp.push_row(alloc, terms, rel, right) {
        Ok(()) => Ok(true),
        Err(MilpError::Memory) => Err(Memory),
        Err(MilpError::TooBig) => Ok(false),
        Err(MilpError::Coefficient) => unreachable!(),
    }
}

/// Adds rows; whether they are within the limits.
pub fn push_rows(milp: &mut MilpBuilder, alloc: Global, rows: &[Row]) -> Result<bool, Memory>
    requires within { is_within milp.old ≡ true }
    requires stored { AreStoredRows (length milp.old.cols) rows.now }
    ensures { IfOk result (λ fits. Grows fits milp.new (with_rows milp.old rows.now)) }
{
    'rows: for row in rows {
        if !push_row(milp, alloc, row.terms(), row.rel(), row.right())? {
            return Ok(false);
        }
    }
    Ok(true)
}

/// Adds the row of a bound, if it is finite; whether it is within the limits.
fn push_bound(
    milp: &mut MilpBuilder,
    alloc: Global,
    id: u32,
    rel: Rel,
    bound: &Option<Frac>,
) -> Result<bool, Memory>
    requires within { is_within milp.old ≡ true }
    requires column { id < length milp.old.cols }
    requires bound { IsStoredBound bound.now }
    ensures fits { IfOk result (λ fits. fits ≡ true → Grows true milp.new (with_rows milp.old (end_row id rel bound.now))) }
    ensures past { IfOk result (λ fits. fits ≡ false → (more : List RowValue) → is_within (with_rows milp.old (end_row id rel bound.now ++ more)) ≡ false) }
{
    match bound {
        None => Ok(true),
        Some(bound) => push_row(milp, alloc, &[(id, bound.den())], rel, bound.num()),
    }
}

/// Adds the row of a low bound other than 0, if it is finite; whether it is within the limits.
fn push_low(
    milp: &mut MilpBuilder,
    alloc: Global,
    id: u32,
    low: &Option<Frac>,
) -> Result<bool, Memory>
    requires within { is_within milp.old ≡ true }
    requires column { id < length milp.old.cols }
    requires bound { IsStoredBound low.now }
    ensures fits { IfOk result (λ fits. fits ≡ true → Grows true milp.new (with_rows milp.old (low_row id low.now))) }
    ensures past { IfOk result (λ fits. fits ≡ false → (more : List RowValue) → is_within (with_rows milp.old (low_row id low.now ++ more)) ≡ false) }
{
    if is_zero(low) {
        return Ok(true);
    }
    push_bound(milp, alloc, id, Rel::AtLeast, low)
}

/// Adds the rows of the bounds of columns; whether they are within the limits.
pub fn push_bounds(
    milp: &mut MilpBuilder,
    alloc: Global,
    columns: &[Column],
) -> Result<bool, Memory>
    requires within { is_within milp.old ≡ true }
    requires columns { length columns.now ≤ length milp.old.cols }
    requires bounds { AreStoredBounds columns.now }
    ensures { IfOk result (λ fits. Grows fits milp.new (with_rows milp.old (bound_rows 0 columns.now))) }
{
    'columns: for (id, column) in columns.iter().enumerate() {
        let id = id as u32;
        if !push_low(milp, alloc, id, &column.low)? {
            return Ok(false);
        }
        if !push_bound(milp, alloc, id, Rel::AtMost, &column.high)? {
            return Ok(false);
        }
    }
    Ok(true)
}
