//! Terms in whole numbers.

ghost use Rattle.std.specs.Prelude.{◌≡◌, ◌^◌, ◌<◌, ◌≤◌, ◌++◌, [], true, unsigned_abs, Some, IfOk, OnOk, IfSome};
ghost use Rattle.lp_grammar.specs.Scaling.{scale_with as with_denominator, scale_of, scaled as scaled_by};
ghost use Rattle.lp_rows.specs.Holding.{ids_below};
ghost use Rattle.lp_parts.specs.Stored.{AreOrdered};
ghost use Rattle.lp_grammar.specs.Taking.{row_by, row_of, objective_by, objective_of};
ghost use Rattle.lp_parts.specs.Stored.{if_storable, if_some_term, stored_on};

use crate::objective::Objective;
use fractions::Frac;
use fractions::divisors::gcd_of_magnitudes;
use lp_rows::{Rel, Row, RowError, Terms, is_storable};
use outcomes::Memory;
use std::alloc::Global;

/// The greatest scale.
const MOST_SCALE: u128 = 1_000_000_000_000_000_000_000_000_000_000;

/// The greatest scale of an objective.
const MOST_STORED: u128 = 1_000_000_000_000_000;

/// The denominator of a fraction.
fn denominator(fraction: Frac) -> u128
    ensures some { 0 < result }
    ensures value { result ≡ unsigned_abs fraction.den }
{
    fraction.den().unsigned_abs()
}

/// The scale and one denominator more, if it is at most 10^30.
fn scale_with(denominator: u128, scale: u128) -> Option<u128>
    requires some { 0 < denominator }
    requires some_scale { 0 < scale }
    ensures scale { result ≡ with_denominator denominator (Some scale) }
    ensures some { IfSome result (λ k. 0 < k) }
    ensures small { IfSome result (λ k. k ≤ 10 ^ 30) }
{
    let common = gcd_of_magnitudes(scale, denominator);
    let factor = denominator / common;
    match scale.checked_mul(factor) {
        None => None,
        Some(multiple) => {
            if multiple > MOST_SCALE {
                return None;
            }
            Some(multiple)
        }
    }
}

/// The least whole number that makes the terms and this number whole.
fn common_scale(terms: &[(usize, Frac)], number: Frac) -> Option<u128>
    ensures scale { result ≡ scale_of terms.now number }
    ensures some { IfSome result (λ k. 0 < k) }
    ensures small { IfSome result (λ k. k ≤ 10 ^ 30) }
{
    match scale_with(denominator(number), 1) {
        None => None,
        Some(first) => {
            let mut scale = first;
            'terms: for term in terms {
                match scale_with(denominator(term.1), scale) {
                    None => return None,
                    Some(next) => scale = next,
                }
            }
            Some(scale)
        }
    }
}

/// The fraction times the scale, if it may be stored.
fn scaled(scale: u128, fraction: Frac) -> Option<i128>
    requires { scale ≤ 10 ^ 30 }
    ensures { result ≡ if_storable (scaled_by scale fraction) }
{
    let factor = (scale / denominator(fraction)) as i128;
    match fraction.num().checked_mul(factor) {
        None => None,
        Some(number) => {
            if !is_storable(number) {
                return None;
            }
            Some(number)
        }
    }
}

/// Adds a term at the end, unless its coefficient is 0.
fn push_term(terms: &mut Terms, alloc: Global, id: usize, coefficient: i128) -> Result<(), Memory>
    requires { id < 2 ^ 32 }
    ensures { OnOk result (terms.new ≡ terms.old ++ if_some_term (id, coefficient)) }
{
    if coefficient == 0 {
        return Ok(());
    }
    terms.push(alloc, (id as u32, coefficient))
}

/// The terms times the scale, if they may be stored.
fn stored_terms(
    alloc: Global,
    scale: u128,
    terms: &[(usize, Frac)],
) -> Result<Option<Terms>, Memory>
    requires small { scale ≤ 10 ^ 30 }
    requires ids { ids_below (2 ^ 32) terms.now ≡ true }
    ensures { IfOk result (λ stored. stored ≡ stored_on scale [] terms.now) }
{
    let mut stored = Terms::new(alloc);
    'terms: for term in terms {
        match scaled(scale, term.1) {
            None => return Ok(None),
            Some(coefficient) => {
                let Ok(()) = push_term(&mut stored, alloc, term.0, coefficient) else {
                    return Err(Memory);
                };
            }
        }
    }
    Ok(Some(stored))
}

/// The row of these terms times the scale, if it may be stored.
fn row_times(
    alloc: Global,
    scale: u128,
    terms: &[(usize, Frac)],
    rel: Rel,
    right: Frac,
) -> Result<Option<Row>, Memory>
    requires small { scale ≤ 10 ^ 30 }
    requires ordered { AreOrdered (2 ^ 32) terms.now }
    ensures { IfOk result (λ row. row ≡ row_by (Some scale) terms.now rel right) }
{
    let Some(terms) = stored_terms(alloc, scale, terms)? else {
        return Ok(None);
    };
    let Some(right) = scaled(scale, right) else {
        return Ok(None);
    };
    match Row::make(alloc, terms.as_slice(), rel, right) {
        Ok(row) => Ok(Some(row)),
        Err(RowError::Memory) => Err(Memory),
        Err(RowError::Order) => unreachable!(),
        Err(RowError::Zero) => unreachable!(),
        Err(RowError::Coefficient) => unreachable!(),
    }
}

/// The row of these terms in whole numbers, if it may be stored.
pub fn make_row(
    alloc: Global,
    terms: &[(usize, Frac)],
    rel: Rel,
    right: Frac,
) -> Result<Option<Row>, Memory>
    requires { AreOrdered (2 ^ 32) terms.now }
    ensures { IfOk result (λ row. row ≡ row_of terms.now rel right) }
{
    match common_scale(terms, right) {
        None => Ok(None),
        Some(scale) => row_times(alloc, scale, terms, rel, right),
    }
}

/// The objective of these terms times the scale, if it may be stored.
fn objective_times(
    alloc: Global,
    scale: u128,
    terms: &[(usize, Frac)],
    constant: Frac,
) -> Result<Option<Objective>, Memory>
    requires some { 0 < scale }
    requires small { scale ≤ 10 ^ 30 }
    requires ids { ids_below (2 ^ 32) terms.now ≡ true }
    ensures { IfOk result (λ objective. objective ≡ objective_by (Some scale) terms.now constant) }
{
    let Some(terms) = stored_terms(alloc, scale, terms)? else {
        return Ok(None);
    };
    let Some(constant) = scaled(scale, constant) else {
        return Ok(None);
    };
    if scale > MOST_STORED {
        return Ok(None);
    }
    Ok(Some(Objective::with_parts(terms, constant, scale)))
}

/// The objective of these terms in whole numbers, if it may be stored.
pub fn make_objective(
    alloc: Global,
    terms: &[(usize, Frac)],
    constant: Frac,
) -> Result<Option<Objective>, Memory>
    requires { ids_below (2 ^ 32) terms.now ≡ true }
    ensures { IfOk result (λ objective. objective ≡ objective_of terms.now constant) }
{
    match common_scale(terms, constant) {
        None => Ok(None),
        Some(scale) => objective_times(alloc, scale, terms, constant),
    }
}
