//! The tests that close a force.

ghost use Rattle.std.specs.Prelude.{◌≡◌, ◌<◌, ◌≤◌, ◌^◌, true, pos, ℤ, length, Ok, Some};
ghost use Rattle.lp_frame.specs.Force.{is_bounded};
ghost use Rattle.closing.specs.Closing.{are_multipliers, may_stand, is_negative, sum_test, column_sum, column_tests, verdict, refute_tests, bound_of};
ghost use Rattle.closing.specs.Shown.{Refutes, BoundsBelow, IsUnlessWide, HasNoPoint, IsBoundedBelow};

use crate::summing::{are_multipliers_of, coefficient_at, sum};
use lp_frame::Force;
use lp_rows::{Sign, WideAt};

// Whether a column of this sign may have this sum.
fn stands(sign: Sign, sum: i128) -> bool
    ensures { result ≡ may_stand sign sum }
{
    match sign {
        Sign::Nonneg => 0 <= sum,
        Sign::Free => sum == 0,
    }
}

// Whether a sum is negative.
fn falls(sum: i128) -> bool
    ensures { result ≡ is_negative sum }
{
    sum < 0
}

// The test of one column, the goal's product first.
#[tactic(auto, using(crate::proofs::Rows::row_count, crate::proofs::Rows::goal_ascends))]
fn column(
    force: &Force,
    scale: i128,
    multipliers: &[(u32, i128)],
    column: u32,
    sign: Sign,
) -> Result<bool, WideAt>
    requires bounded { is_bounded force.now ≡ true }
    requires multipliers { are_multipliers (length force.now.rows) multipliers.now ≡ true }
    ensures { result ≡ sum_test (may_stand sign) column (column_sum force.now scale multipliers.now column) }
{
    let entry = coefficient_at(force.goal.as_slice(), column);
    let Some(start) = scale.checked_mul(entry) else {
        return Err(WideAt::Leaf {
            row: force.rows.len() as u32,
            column,
        });
    };
    match sum(force, multipliers, Some(column), start) {
        Ok(sum) => Ok(stands(sign, sum)),
        Err(row) => Err(WideAt::Leaf { row, column }),
    }
}

// The tests of all columns.
#[tactic(auto, using(crate::proofs::Rows::column_count))]
fn columns(force: &Force, scale: i128, multipliers: &[(u32, i128)]) -> Result<bool, WideAt>
    requires bounded { is_bounded force.now ≡ true }
    requires multipliers { are_multipliers (length force.now.rows) multipliers.now ≡ true }
    ensures { result ≡ verdict (column_tests force.now scale multipliers.now 0 force.now.cols) }
{
    for (index, col) in force.cols.as_slice().iter().enumerate() {
        match column(force, scale, multipliers, index as u32, col.sign) {
            Ok(true) => {}
            Ok(false) => return Ok(false),
            Err(place) => return Err(place),
        }
    }
    Ok(true)
}

// Whether the multipliers refute the force.
#[tactic(auto, using(crate::proofs::Verdicts::refute_parts, crate::proofs::Rows::column_count))]
fn refuted(force: &Force, multipliers: &[(u32, i128)]) -> Result<bool, WideAt>
    requires { is_bounded force.now ≡ true }
    ensures { result ≡ verdict (refute_tests force.now multipliers.now) }
{
    if !are_multipliers_of(force.rows.len(), multipliers) {
        return Ok(false);
    }
    match columns(force, 0, multipliers) {
        Ok(true) => {}
        Ok(false) => return Ok(false),
        Err(place) => return Err(place),
    }
    match sum(force, multipliers, None, 0) {
        Ok(sum) => Ok(falls(sum)),
        Err(row) => Err(WideAt::Leaf {
            row,
            column: force.cols.len() as u32,
        }),
    }
}

/// Whether the multipliers refute the force. Multipliers that do so are refused only where a number is wide.
pub fn refutes(force: &Force, multipliers: &[(u32, i128)]) -> Result<bool, WideAt>
    requires { is_bounded force.now ≡ true }
    ensures exact { result ≡ verdict (refute_tests force.now multipliers.now) }
    ensures shown { result ≡ Ok true → Refutes force.now multipliers.now }
    ensures sound { result ≡ Ok true → HasNoPoint force.now }
    ensures complete { Refutes force.now multipliers.now → IsUnlessWide true result }
{
    refuted(force, multipliers)
}

// The numerator over the scale of the bound.
#[tactic(auto, using(crate::proofs::Rows::column_count, crate::proofs::Rows::row_count))]
fn bounded(force: &Force, scale: i128, multipliers: &[(u32, i128)]) -> Result<Option<i128>, WideAt>
    requires { is_bounded force.now ≡ true }
    ensures { result ≡ bound_of force.now scale multipliers.now }
{
    if scale < 1 || !are_multipliers_of(force.rows.len(), multipliers) {
        return Ok(None);
    }
    match columns(force, scale, multipliers) {
        Ok(true) => {}
        Ok(false) => return Ok(None),
        Err(place) => return Err(place),
    }
    match sum(force, multipliers, None, 0) {
        Ok(sum) => match sum.checked_neg() {
            Some(bound) => Ok(Some(bound)),
            None => Err(WideAt::Leaf {
                row: force.rows.len() as u32,
                column: force.cols.len() as u32,
            }),
        },
        Err(row) => Err(WideAt::Leaf {
            row,
            column: force.cols.len() as u32,
        }),
    }
}

/// The numerator over the scale below which the force has no goal; None where the multipliers bound nothing.
/// Multipliers that bound the goal are refused only where a number is wide.
pub fn bounds(
    force: &Force,
    scale: i128,
    multipliers: &[(u32, i128)],
) -> Result<Option<i128>, WideAt>
    requires { is_bounded force.now ≡ true }
    ensures exact { result ≡ bound_of force.now scale multipliers.now }
    ensures shown { (right : ℤ) → result ≡ Ok (Some right) → BoundsBelow force.now right scale multipliers.now }
    ensures sound { (right : ℤ) → result ≡ Ok (Some right) → IsBoundedBelow force.now right scale }
    ensures complete { (right : ℤ) → BoundsBelow force.now right scale multipliers.now → IsUnlessWide (Some right) result }
{
    bounded(force, scale, multipliers)
}
