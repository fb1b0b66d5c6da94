//! The sum of multipliers with a column's numbers, or with the bounds.

ghost use Rattle.std.specs.Prelude.{◌≡◌, ◌<◌, true, false, length, ◌+ℤ◌, ◌*ℤ◌, MatchOption};
ghost use Rattle.std.specs.List.{list_all};
ghost use Rattle.int_linear.specs.Terms.{coefficients};
ghost use Rattle.lp_rows.specs.Rows.{ascends_from};
ghost use Rattle.lp_frame.specs.Force.{is_bounded};
ghost use Rattle.fractions.specs.Width.{step_fits};
ghost use Rattle.closing.specs.Rows.{entry, entries, sum_along};
ghost use Rattle.closing.specs.Closing.{are_multipliers};

use fractions::add_product;
use lp_frame::{AtMost, Force};

/// Whether each multiplier is at least 0, and one of that many rows.
pub(crate) fn are_multipliers_of(rows: usize, multipliers: &[(u32, i128)]) -> bool
    ensures { result ≡ are_multipliers rows multipliers.now }
{
    multipliers.iter().all(|multiplier| (multiplier.0 as usize) < rows && multiplier.1 >= 0)
}

/// The coefficient of a column, whose ids ascend.
pub(crate) fn coefficient_at(terms: &[(u32, i128)], column: u32) -> i128
    requires { ascends_from 0 terms.now ≡ true }
    ensures { result ≡ coefficients terms.now column }
{
    for term in terms {
        if term.0 == column {
            return term.1;
        }
        if column < term.0 {
            return 0;
        }
    }
    0
}

// What a row has at a column, or its bound.
fn entry_at(row: &AtMost, column: Option<u32>) -> i128
    requires { ascends_from 0 row.now.terms ≡ true }
    ensures { result ≡ entry column row.now }
{
    match column {
        Some(column) => coefficient_at(row.terms.as_slice(), column),
        None => row.bound,
    }
}

// The next partial sum of a sum of products, or None where the product or that sum is wide; most entries are 0.
fn next_sum(sum: i128, multiplier: i128, entry: i128) -> Option<i128>
    ensures { MatchOption result (step_fits sum multiplier entry ≡ false)
        (λ next. (step_fits sum multiplier entry ≡ true) × (next ≡ sum +ℤ multiplier *ℤ entry)) }
{
    if entry == 0 {
        return Some(sum);
    }
    add_product(sum, multiplier, entry)
}

/// The sum from `start` on of each multiplier with its row's number, or the row of the first wide number.
pub(crate) fn sum(
    force: &Force,
    multipliers: &[(u32, i128)],
    column: Option<u32>,
    start: i128,
) -> Result<i128, u32>
    requires bounded { is_bounded force.now ≡ true }
    requires multipliers { are_multipliers (length force.now.rows) multipliers.now ≡ true }
    ensures { result ≡ sum_along (entries force.now.rows column) start multipliers.now }
{
    let rows = force.rows.as_slice();
    let mut sum = start;
    for multiplier in multipliers {
        let entry = entry_at(&rows[multiplier.0 as usize], column);
        let Some(next) = next_sum(sum, multiplier.1, entry) else {
            return Err(multiplier.0);
        };
        sum = next;
    }
    Ok(sum)
}
