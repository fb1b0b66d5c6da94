//! What holds at a path of a program.

ghost use Rattle.std.specs.Prelude.{◌≡◌, ◌+◌, ◌<◌, ◌^◌, ◌++◌, ◌∷◌, [], true, length, OnOk, IfOk, reverse, neg_ℤ};
ghost use Rattle.std.specs.List.{list_all};
ghost use Rattle.fractions.specs.Width.{is_narrow};
ghost use Rattle.milp_forces.specs.Forces.{
  at_most_rows,
  forward,
  turned,
  negated,
  low_at,
  high_at,
  low_row,
  high_row,
  low_step,
  high_step,
  greater,
  lesser,
  column_rows,
  force_at,
  goal_of,
  all_rows,
  path_rows,
};
ghost use Rattle.milp_forces.specs.Milps.{is_row_fit};

use lp_frame::{AtMost, AtMostList, Force};
use lp_rows::{Col, ColList, Kind, Rel, Row, Sense, Terms};
use milps::Milp;
use outcomes::Memory;
use proof_tree::{Half, Path, Split};
use std::alloc::Global;

/// What holds at a path: the rows as at-most rows in order, and then for each integer column in order the tightest low
/// and the tightest high that the path sets; with the goal, which is to be minimised, or without.
pub fn milp_force(alloc: Global, milp: &Milp, path: &Path, goal: bool) -> Result<Force, Memory>
    ensures { IfOk result (λ force. force ≡ force_at milp.now path.now goal) }
{
    let given = milp.cols();
    let stated = milp.rows();
    let room = stated.len().saturating_add(given.len());
    let mut rows = AtMostList::from_vec(Vec::with_capacity(alloc, room)?);
    push_rows(alloc, &mut rows, stated)?;
    push_bounds(alloc, &mut rows, given, path.halves())?;
    let goal = goal_terms(alloc, milp, goal)?;
    let cols = ColList::from_slice(alloc, given)?;
    Ok(Force { cols, rows, goal })
}

// Adds the rows as at-most rows.
fn push_rows(alloc: Global, rows: &mut AtMostList, given: &[Row]) -> Result<(), Memory>
    requires { list_all (λ r. is_row_fit r) given.now ≡ true }
    ensures { OnOk result (rows.new ≡ rows.old ++ all_rows given.now) }
{
    'given: for row in given {
        push_row(alloc, rows, row)?;
    }
    Ok(())
}

// Adds a row as at-most rows.
fn push_row(alloc: Global, rows: &mut AtMostList, row: &Row) -> Result<(), Memory>
    requires { is_row_fit row.now ≡ true }
    ensures { OnOk result (rows.new ≡ rows.old ++ at_most_rows row.now) }
{
    match row.rel() {
        Rel::AtMost => push_forward(alloc, rows, row),
        Rel::AtLeast => push_turned(alloc, rows, row),
        Rel::Equal => {
            push_forward(alloc, rows, row)?;
            push_turned(alloc, rows, row)
        }
    }
}

fn push_forward(alloc: Global, rows: &mut AtMostList, row: &Row) -> Result<(), Memory>
    ensures { OnOk result (rows.new ≡ rows.old ++ forward row.now ∷ []) }
{
    let terms = Terms::from_slice(alloc, row.terms())?;
    rows.push(
        alloc,
        AtMost {
            terms,
            bound: row.right(),
        },
    )
}

fn push_turned(alloc: Global, rows: &mut AtMostList, row: &Row) -> Result<(), Memory>
    requires { is_row_fit row.now ≡ true }
    ensures { OnOk result (rows.new ≡ rows.old ++ turned row.now ∷ []) }
{
    let terms = negated_terms(alloc, row.terms())?;
    rows.push(
        alloc,
        AtMost {
            terms,
            bound: minus(row.right()),
        },
    )
}

fn minus(number: i128) -> i128
    requires { is_narrow number ≡ true }
    ensures { result ≡ neg_ℤ number }
{
    -number
}

fn negated_terms(alloc: Global, given: &[(u32, i128)]) -> Result<Terms, Memory>
    requires { list_all (λ t. is_narrow t.1) given.now ≡ true }
    ensures { IfOk result (λ terms. terms ≡ negated given.now) }
{
    let mut terms = Terms::new(alloc);
    'given: for term in given {
        terms.push(alloc, (term.0, minus(term.1)))?;
    }
    Ok(terms)
}

// The goal to be minimised, or none.
fn goal_terms(alloc: Global, milp: &Milp, goal: bool) -> Result<Terms, Memory>
    requires { list_all (λ t. is_narrow t.1) milp.now.goal ≡ true }
    ensures { IfOk result (λ terms. terms ≡ goal_of milp.now goal) }
{
    if !goal {
        return Ok(Terms::new(alloc));
    }
    match milp.sense() {
        Sense::Min => Terms::from_slice(alloc, milp.goal()),
        Sense::Max => negated_terms(alloc, milp.goal()),
    }
}

// Adds the bounds that the path sets.
fn push_bounds(
    alloc: Global,
    rows: &mut AtMostList,
    cols: &[Col],
    halves: &[Half],
) -> Result<(), Memory>
    requires { length cols.now < 2 ^ 32 }
    ensures { OnOk result (rows.new ≡ rows.old ++ path_rows (reverse halves.now) 0 cols.now) }
{
    let mut column: u32 = 0;
    'cols: for col in cols {
        push_column(alloc, rows, col.kind, column, halves)?;
        column = next(column);
    }
    Ok(())
}

pub(crate) fn next(column: u32) -> u32
    ensures { column + 1 < 2 ^ 32 → result ≡ column + 1 }
{
    column.wrapping_add(1)
}

// Adds the bounds of one column.
fn push_column(
    alloc: Global,
    rows: &mut AtMostList,
    kind: Kind,
    column: u32,
    halves: &[Half],
) -> Result<(), Memory>
    ensures { OnOk result (rows.new ≡ rows.old ++ column_rows kind column (reverse halves.now)) }
{
    match kind {
        Kind::Real => Ok(()),
        Kind::Int => {
            push_low(alloc, rows, column, lowest(halves, column))?;
            push_high(alloc, rows, column, highest(halves, column))
        }
    }
}

pub(crate) fn push_low(
    alloc: Global,
    rows: &mut AtMostList,
    column: u32,
    low: Option<i128>,
) -> Result<(), Memory>
    ensures { OnOk result (rows.new ≡ rows.old ++ low_row column low) }
{
    match low {
        None => Ok(()),
        Some(at) => push_bound(alloc, rows, (column, -1), -1 - at),
    }
}

pub(crate) fn push_high(
    alloc: Global,
    rows: &mut AtMostList,
    column: u32,
    high: Option<i128>,
) -> Result<(), Memory>
    ensures { OnOk result (rows.new ≡ rows.old ++ high_row column high) }
{
    match high {
        None => Ok(()),
        Some(at) => push_bound(alloc, rows, (column, 1), at),
    }
}

fn push_bound(
    alloc: Global,
    rows: &mut AtMostList,
    term: (u32, i128),
    bound: i128,
) -> Result<(), Memory>
    ensures { OnOk result (rows.new ≡ rows.old ++ record { terms = term ∷ []; bound = bound } ∷ []) }
{
    let mut terms = Terms::new(alloc);
    terms.push(alloc, term)?;
    rows.push(alloc, AtMost { terms, bound })
}

// The greatest number of a second half of the column.
fn lowest(halves: &[Half], column: u32) -> Option<i128>
    ensures { result ≡ low_at (reverse halves.now) column }
{
    let mut low = None;
    'halves: for half in halves {
        low = raised(half.split, half.second, column, low);
    }
    low
}

// The least number of a first half of the column.
fn highest(halves: &[Half], column: u32) -> Option<i128>
    ensures { result ≡ high_at (reverse halves.now) column }
{
    let mut high = None;
    'halves: for half in halves {
        high = lowered(half.split, half.second, column, high);
    }
    high
}

pub(crate) fn raised(split: Split, second: bool, column: u32, low: Option<i128>) -> Option<i128>
    ensures { result ≡ low_step split second column low }
{
    match split {
        Split::Truth { id: _ } => low,
        Split::Int { column: own, at } => {
            if second && own == column {
                Some(greatest(low, at))
            } else {
                low
            }
        }
    }
}

fn greatest(low: Option<i128>, at: i128) -> i128
    ensures { result ≡ greater low at }
{
    match low {
        None => at,
        Some(low) => { if low <= at { at } else { low } }
    }
}

pub(crate) fn lowered(split: Split, second: bool, column: u32, high: Option<i128>) -> Option<i128>
    ensures { result ≡ high_step split second column high }
{
    match split {
        Split::Truth { id: _ } => high,
        Split::Int { column: own, at } => {
            if !second && own == column {
                Some(least(high, at))
            } else {
                high
            }
        }
    }
}

fn least(high: Option<i128>, at: i128) -> i128
    ensures { result ≡ lesser high at }
{
    match high {
        None => at,
        Some(high) => { if at <= high { at } else { high } }
    }
}
