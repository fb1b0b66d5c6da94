//! The limits of a force.

ghost use Rattle.std.specs.Prelude.{◌≡◌, ◌≤◌, length};
ghost use Rattle.std.specs.List.{list_all};
ghost use Rattle.lp_frame.specs.Split.{place, width_of};
ghost use Rattle.lp_frame.specs.Force.{are_terms, is_row, is_bounded};
ghost use Rattle.fractions.specs.Width.{is_narrow};

use crate::force::{AtMost, Force};
use lp_rows::{Col, Sign, are_ids_below, do_ids_ascend};

/// The greatest number of rows, and that of split columns.
pub const MOST: usize = 4000;

/// Whether the force is bounded: at most 4,000 rows and 4,000 split columns, ids that ascend strictly and name
/// columns, and no number that is the least `i128`.
pub fn bounded(force: &Force) -> bool
    ensures { result ≡ is_bounded force.now }
{
    let columns = force.cols.len();
    if columns > MOST {
        return false;
    }
    force.rows.len() <= MOST
        && split_count(force.cols.as_slice()) <= MOST
        && are_rows_over(columns, force.rows.as_slice())
        && are_terms_over(columns, force.goal.as_slice())
}

/// How many columns these become when free ones are split.
pub(crate) fn split_count(cols: &[Col]) -> usize
    requires { length cols.now ≤ 4000 }
    ensures { result ≡ place cols.now (length cols.now) }
{
    let mut count = 0;
    for col in cols {
        count += width(col.sign);
    }
    count
}

/// How many columns a column of this sign becomes.
pub(crate) fn width(sign: Sign) -> usize
    ensures { result ≡ width_of sign }
{
    match sign {
        Sign::Free => 2,
        Sign::Nonneg => 1,
    }
}

fn are_rows_over(columns: usize, rows: &[AtMost]) -> bool
    ensures { result ≡ list_all (is_row columns) rows.now }
{
    rows.iter().all(|row| is_row_over(columns, row))
}

fn is_row_over(columns: usize, row: &AtMost) -> bool
    ensures { result ≡ is_row columns row.now }
{
    are_terms_over(columns, row.terms.as_slice()) && is_not_least(row.bound)
}

fn are_terms_over(columns: usize, terms: &[(u32, i128)]) -> bool
    ensures { result ≡ are_terms columns terms.now }
{
    do_ids_ascend(terms) && are_ids_below(terms, columns) && has_no_least(terms)
}

fn has_no_least(terms: &[(u32, i128)]) -> bool
    ensures { result ≡ list_all (λ t. is_narrow t.1) terms.now }
{
    terms.iter().all(|term| is_not_least(term.1))
}

fn is_not_least(number: i128) -> bool
    ensures { result ≡ is_narrow number }
{
    number != i128::MIN
}
