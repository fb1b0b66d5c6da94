//! Rows: terms in the order of their ids, a relation and a right side.

ghost use Rattle.std.specs.Prelude.{◌≡◌, ◌≤◌, length, None};
ghost use Rattle.outcomes.specs.Calls.{OrMemory};
ghost use Rattle.lp_rows.specs.Rows.{
  is_storable as storable,
  ascends_from,
  has_zero,
  are_storable,
  row_refusal,
  row_made,
};

use crate::kinds::Rel;
use crate::lists::Terms;
use std::alloc::Global;
use std::marker::Model;

/// The greatest magnitude of a number that a row, a goal or a bound stores.
pub const LARGEST: i128 = 1_000_000_000_000_000;

/// A row of a linear program: the sum of its terms is to stand in a relation to its right side.
///
/// Ids ascend strictly, no coefficient is 0, and no number passes 10^15 in magnitude.
#[derive(Drop)]
pub struct Row {
    terms: Terms,
    rel: Rel,
    right: i128,
}

impl Model for Row {
    ghost use Rattle.std.specs.Prelude.{◌≡◌, None};
    ghost use Rattle.lp_rows.specs.Rows.{RowValue, row_refusal};

    ghost Value = { RowValue };

    ghost view = { λ r. record { terms = r.terms; rel = r.rel; right = r.right } };

    ghost invariant = { λ r. row_refusal r.terms r.right ≡ None };
}

/// Why these are no row, in the order in which the causes are tested.
#[derive(Clone, Copy, Debug, PartialEq, Eq)]
pub enum RowError {
    /// The ids do not ascend strictly.
    Order,
    /// A coefficient is 0.
    Zero,
    /// A coefficient or the right side passes 10^15 in magnitude.
    Coefficient,
    /// Memory ran out.
    Memory,
}

impl Row {
    /// The row of these terms. With at most eight terms it takes no memory.
    pub fn make(
        alloc: Global,
        terms: &[(u32, i128)],
        rel: Rel,
        right: i128,
    ) -> Result<Row, RowError>
        ensures made { OrMemory RowError.Memory result (row_made terms.now rel right) }
        ensures short { length terms.now ≤ 8 → result ≡ row_made terms.now rel right }
    {
        if !do_ids_ascend(terms) {
            return Err(RowError::Order);
        }
        if has_zero_coefficient(terms) {
            return Err(RowError::Zero);
        }
        if !(are_coefficients_storable(terms) && is_storable(right)) {
            return Err(RowError::Coefficient);
        }
        let Ok(terms) = Terms::from_slice(alloc, terms) else {
            return Err(RowError::Memory);
        };
        Ok(Row { terms, rel, right })
    }

    /// The terms, ids ascending.
    pub fn terms(&self) -> &[(u32, i128)]
        ensures value { result.now ≡ self.now.terms }
        ensures sound { row_refusal self.now.terms self.now.right ≡ None }
    {
        self.terms.as_slice()
    }

    /// The relation.
    pub fn rel(&self) -> Rel
        ensures { result ≡ self.now.rel }
    {
        self.rel
    }

    /// The right side.
    pub fn right(&self) -> i128
        ensures { result ≡ self.now.right }
    {
        self.right
    }
}

/// Whether a row, a goal or a bound may store this number: it is at most 10^15 in magnitude.
pub fn is_storable(number: i128) -> bool
    ensures { result ≡ storable number }
{
    -LARGEST <= number && number <= LARGEST
}

/// Whether the ids ascend strictly.
pub fn do_ids_ascend(terms: &[(u32, i128)]) -> bool
    ensures { result ≡ ascends_from 0 terms.now }
{
    let mut least: u64 = 0;
    for term in terms {
        if (term.0 as u64) < least {
            return false;
        }
        least = term.0 as u64 + 1;
    }
    true
}

/// Whether a coefficient is 0.
pub fn has_zero_coefficient(terms: &[(u32, i128)]) -> bool
    ensures { result ≡ has_zero terms.now }
{
    terms.iter().any(|term| term.1 == 0)
}

/// Whether a row or a goal may store each of these coefficients.
pub fn are_coefficients_storable(terms: &[(u32, i128)]) -> bool
    ensures { result ≡ are_storable terms.now }
{
    terms.iter().all(|term| is_storable(term.1))
}
