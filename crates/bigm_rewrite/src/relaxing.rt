//! Rows relaxed by their greatest values.

ghost use Rattle.std.specs.Prelude.{◌≡◌, ◌≤◌, ◌*◌, ◌^◌, ◌+ℤ◌, ◌-ℤ◌, ◌++◌, true, length, neg_ℤ, unsigned_abs, IfOk, OnOk, Ok, []};
ghost use Rattle.outcomes.specs.Calls.{OrMemory};
ghost use Rattle.lp_rows.specs.Holding.{ids_below};
ghost use Rattle.lp_rows.specs.Rows.{are_storable};
ghost use Rattle.bound_propagation.specs.Boxes.{halves, turned as turned_terms};
ghost use Rattle.bound_propagation.specs.Kept.{box_of};
ghost use Rattle.bigm_rewrite.specs.Relaxed.{moved_terms};
ghost use Rattle.bigm_rewrite.specs.Answers.{columns, half_answer, halves_answer, joined, switched, switched_sum};

use crate::switches::Switch;
use bound_propagation::{Bounds, Max};
use lp_rows::{Rel, Row, are_coefficients_storable, is_storable};
use outcomes::Memory;
use std::alloc::Global;
use std::marker::Model;

/// Why a row is not relaxed.
#[derive(Clone, Copy, Debug, PartialEq, Eq)]
pub enum Unfit {
    /// This is the variable of the first term whose needed bound is missing.
    NoBound(u32),
    /// A number passes 10^15 in magnitude.
    MTooWide,
    /// Memory ran out.
    Memory,
}

/// A sum that is to be at most 0.
#[derive(Drop)]
pub struct RelaxedRow {
    terms: Vec<(u32, i128)>,
    number: i128,
}

impl Model for RelaxedRow {
    ghost use Rattle.emission.specs.Sums.{Sum};

    ghost Value = { Sum };

    ghost view = { λ r. record { terms = r.terms.items; number = r.number } };
}

impl RelaxedRow {
    /// The terms.
    pub fn terms(&self) -> &[(u32, i128)]
        ensures { result.now ≡ self.now.terms }
    {
        self.terms.as_slice()
    }

    /// The number beside the terms.
    pub fn number(&self) -> i128
        ensures { result ≡ self.now.number }
    {
        self.number
    }
}

/// The column of a variable in a frame.
pub fn column_of(frame: &[u32], var: u32) -> u32
    ensures { result ≡ columns frame.now var }
{
    match frame.get(var as usize) {
        Some(column) => *column,
        None => 0,
    }
}

// The terms at the frame's columns.
fn moved(alloc: Global, terms: &[(u32, i128)], frame: &[u32]) -> Result<Vec<(u32, i128)>, Memory>
    ensures { IfOk result (λ done. done.items ≡ moved_terms (columns frame.now) terms.now) }
{
    let mut done = Vec::new(alloc);
    for term in terms {
        if done.push((column_of(frame, term.0), term.1)).is_err() {
            return Err(Memory);
        }
    }
    Ok(done)
}

// The greatest value less the right side.
fn excess(most: i128, right: i128) -> i128
    requires most { unsigned_abs most ≤ 500 * 10 ^ 30 }
    requires right { unsigned_abs right ≤ 10 ^ 15 }
    ensures value { result ≡ most -ℤ right }
    ensures size { unsigned_abs result ≤ 501 * 10 ^ 30 }
{
    most - right
}

// The greatest value with the other sign.
fn opposite(most: i128) -> i128
    requires { unsigned_abs most ≤ 500 * 10 ^ 30 }
    ensures value { result ≡ neg_ℤ most }
    ensures size { unsigned_abs result ≤ 501 * 10 ^ 30 }
{
    -most
}

// Adds the terms of c times a switch.
#[tactic(auto, unfolding(emission::specs::Sums::column, emission::specs::Sums::number))]
fn add_switched(terms: &mut Vec<(u32, i128)>, c: i128, switch: Switch) -> Result<(), Memory>
    ensures { OnOk result (terms.new.items ≡ terms.old.items ++ (switched c switch).terms) }
{
    match switch {
        Switch::One => Ok(()),
        Switch::Column(id) => {
            if terms.push((id, c)).is_err() {
                return Err(Memory);
            }
            Ok(())
        }
    }
}

// The number of c times a switch.
#[tactic(auto, unfolding(emission::specs::Sums::column, emission::specs::Sums::number))]
fn number_of(c: i128, switch: Switch) -> i128
    requires { unsigned_abs c ≤ 501 * 10 ^ 30 }
    ensures value { result ≡ (switched c switch).number }
    ensures size { unsigned_abs result ≤ 501 * 10 ^ 30 }
{
    match switch {
        Switch::One => c,
        Switch::Column(_) => 0,
    }
}

// The sum of two numbers.
fn sum(a: i128, b: i128) -> i128
    requires first { unsigned_abs a ≤ 501 * 10 ^ 30 }
    requires second { unsigned_abs b ≤ 501 * 10 ^ 30 }
    ensures { result ≡ a +ℤ b }
{
    a + b
}

// An at-most row by its greatest value.
fn switched_row(
    alloc: Global,
    terms: &[(u32, i128)],
    right: i128,
    frame: &[u32],
    scale: Switch,
    on: Switch,
    most: i128,
) -> Result<RelaxedRow, Memory>
    requires right { unsigned_abs right ≤ 10 ^ 15 }
    requires most { unsigned_abs most ≤ 500 * 10 ^ 30 }
    ensures { IfOk result (λ row. row ≡ switched_sum (columns frame.now) scale on (terms.now, right) most) }
{
    let above = excess(most, right);
    let below = opposite(most);
    let Ok(mut done) = moved(alloc, terms, frame) else {
        return Err(Memory);
    };
    if add_switched(&mut done, above, on).is_err() {
        return Err(Memory);
    }
    if add_switched(&mut done, below, scale).is_err() {
        return Err(Memory);
    }
    Ok(RelaxedRow {
        terms: done,
        number: sum(number_of(above, on), number_of(below, scale)),
    })
}

// An at-most row under a switch.
fn relaxed_half(
    alloc: Global,
    terms: &[(u32, i128)],
    right: i128,
    frame: &[u32],
    scale: Switch,
    on: Switch,
    bounds: &Bounds,
) -> Result<RelaxedRow, Unfit>
    requires few { length terms.now ≤ 500 }
    requires small { are_storable terms.now ≡ true }
    requires right { unsigned_abs right ≤ 10 ^ 15 }
    ensures { OrMemory Unfit.Memory result (half_answer (columns frame.now) scale on (box_of bounds.now) (terms.now, right)) }
{
    match bounds.max_of(terms) {
        Max::None(var) => Err(Unfit::NoBound(var)),
        Max::At(most) => {
            let Ok(row) = switched_row(alloc, terms, right, frame, scale, on, most) else {
                return Err(Unfit::Memory);
            };
            if !(are_coefficients_storable(row.terms()) && is_storable(row.number())) {
                return Err(Unfit::MTooWide);
            }
            Ok(row)
        }
    }
}

// The terms with the other sign.
fn turned(alloc: Global, terms: &[(u32, i128)]) -> Result<Vec<(u32, i128)>, Memory>
    requires { are_storable terms.now ≡ true }
    ensures { IfOk result (λ done. done.items ≡ turned_terms terms.now) }
{
    let mut done = Vec::new(alloc);
    for term in terms {
        if done.push(turned_term(*term)).is_err() {
            return Err(Memory);
        }
    }
    Ok(done)
}

// The term with the other sign.
fn turned_term(term: (u32, i128)) -> (u32, i128)
    requires { unsigned_abs term.1 ≤ 10 ^ 15 }
    ensures { result ≡ (term.0, neg_ℤ term.1) }
{
    (term.0, -term.1)
}

// The negation of a row under a switch.
fn relaxed_negation(
    alloc: Global,
    terms: &[(u32, i128)],
    right: i128,
    frame: &[u32],
    scale: Switch,
    on: Switch,
    bounds: &Bounds,
) -> Result<RelaxedRow, Unfit>
    requires few { length terms.now ≤ 500 }
    requires small { are_storable terms.now ≡ true }
    requires right { unsigned_abs right ≤ 10 ^ 15 }
    ensures { OrMemory Unfit.Memory result (half_answer (columns frame.now) scale on (box_of bounds.now) (turned_terms terms.now, neg_ℤ right)) }
{
    let Ok(other) = turned(alloc, terms) else {
        return Err(Unfit::Memory);
    };
    relaxed_half(alloc, &other, -right, frame, scale, on, bounds)
}

/// Sums that are to be at most 0.
#[derive(Drop)]
pub struct RelaxedRows {
    items: Vec<RelaxedRow>,
}

impl Model for RelaxedRows {
    ghost use Rattle.std.specs.Prelude.{List};
    ghost use Rattle.emission.specs.Sums.{Sum};

    ghost Value = { List Sum };

    ghost view = { λ r. r.items.items };
}

impl RelaxedRows {
    /// The sums.
    pub fn as_slice(&self) -> &[RelaxedRow]
        ensures { result.now ≡ self.now }
    {
        self.items.as_slice()
    }
}

// The list of one row, or its refusal.
fn one_row(alloc: Global, first: Result<RelaxedRow, Unfit>) -> Result<RelaxedRows, Unfit>
    ensures { OrMemory Unfit.Memory result (joined first (Ok [])) }
{
    let mut items = Vec::new(alloc);
    match first {
        Err(error) => Err(error),
        Ok(row) => {
            if items.push(row).is_err() {
                return Err(Unfit::Memory);
            }
            Ok(RelaxedRows { items })
        }
    }
}

// The list of two rows, or the first refusal.
fn two_rows(
    alloc: Global,
    first: Result<RelaxedRow, Unfit>,
    second: Result<RelaxedRow, Unfit>,
) -> Result<RelaxedRows, Unfit>
    ensures { OrMemory Unfit.Memory result (joined first (joined second (Ok []))) }
{
    let mut items = Vec::new(alloc);
    match first {
        Err(error) => Err(error),
        Ok(row) => match second {
            Err(error) => Err(error),
            Ok(other) => {
                if items.push(row).is_err() {
                    return Err(Unfit::Memory);
                }
                if items.push(other).is_err() {
                    return Err(Unfit::Memory);
                }
                Ok(RelaxedRows { items })
            }
        },
    }
}

/// The at-most rows of a row under a switch, or the first refusal: `NoBound` where a bound is missing, `MTooWide` where a
/// number passes 10^15.
#[tactic(auto, using(bound_propagation::proofs::Turned::right_small, bound_propagation::proofs::Turned::row_storable))]
pub fn relaxed_rows(
    alloc: Global,
    row: &Row,
    frame: &[u32],
    scale: Switch,
    on: Switch,
    bounds: &Bounds,
) -> Result<RelaxedRows, Unfit>
    requires few { length frame.now ≤ 500 }
    requires ids { ids_below (length frame.now) row.now.terms ≡ true }
    ensures { OrMemory Unfit.Memory result (halves_answer (columns frame.now) scale on (box_of bounds.now) (halves row.now.rel row.now.terms row.now.right)) }
{
    let terms = row.terms();
    let right = row.right();
    match row.rel() {
        Rel::AtMost => one_row(
            alloc,
            relaxed_half(alloc, terms, right, frame, scale, on, bounds),
        ),
        Rel::AtLeast => one_row(
            alloc,
            relaxed_negation(alloc, terms, right, frame, scale, on, bounds),
        ),
        Rel::Equal => two_rows(
            alloc,
            relaxed_half(alloc, terms, right, frame, scale, on, bounds),
            relaxed_negation(alloc, terms, right, frame, scale, on, bounds),
        ),
    }
}
