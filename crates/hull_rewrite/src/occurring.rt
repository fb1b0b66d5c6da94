//! The variables that occur in the rows of a disjunction, and their bounds.

ghost use Rattle.std.specs.Prelude.{◌≡◌, ◌≤◌, ◌^◌, length, unsigned_abs, IfOk};
ghost use Rattle.block_tree.specs.View.{disjunction_of};
ghost use Rattle.bound_propagation.specs.Kept.{box_of};
ghost use Rattle.hull_rewrite.specs.Copies.{first_unbounded as first_lacking, is_bounded as are_bounds, occurring, or_zero};

use block_tree::{Disjunction, occurs};
use bound_propagation::Bounds;
use outcomes::Memory;
use std::alloc::Global;

/// Those of the first variables that occur in the disjunction, in ascending order.
pub fn occurring_in(
    alloc: Global,
    disjunction: &Disjunction,
    count: usize,
) -> Result<Vec<u32>, Memory>
    requires few { count ≤ 2 ^ 31 }
    ensures { IfOk result (λ vars. vars.items ≡ occurring count (disjunction_of disjunction.now).1) }
{
    let ids = occurs(alloc, disjunction)?;
    let mut vars = Vec::new(alloc);
    for var in 0..count {
        if ids.contains(&(var as u32)) {
            if vars.push(var as u32).is_err() {
                return Err(Memory);
            }
        }
    }
    Ok(vars)
}

/// The first of the variables that lacks a bound.
pub fn first_unbounded(vars: &[u32], bounds: &Bounds) -> Option<u32>
    ensures { result ≡ first_lacking (box_of bounds.now) vars.now }
{
    for var in vars {
        if !is_bounded(*var, bounds) {
            return Some(*var);
        }
    }
    None
}

// Whether the variable has both bounds.
fn is_bounded(var: u32, bounds: &Bounds) -> bool
    ensures { result ≡ are_bounds ((box_of bounds.now).low var) ((box_of bounds.now).high var) }
{
    bounds.low(var).is_some() && bounds.high(var).is_some()
}

// The low of a variable, or 0.
pub(crate) fn low_of(var: u32, bounds: &Bounds) -> i128
    ensures value { result ≡ or_zero ((box_of bounds.now).low var) }
    ensures small { unsigned_abs result ≤ 10 ^ 15 }
{
    bounds.low(var).unwrap_or(0)
}

// The high of a variable, or 0.
pub(crate) fn high_of(var: u32, bounds: &Bounds) -> i128
    ensures value { result ≡ or_zero ((box_of bounds.now).high var) }
    ensures small { unsigned_abs result ≤ 10 ^ 15 }
{
    bounds.high(var).unwrap_or(0)
}
