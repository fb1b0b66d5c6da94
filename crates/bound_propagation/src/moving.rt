//! Which variables a round moved, and so which rows the next one has to visit.

ghost use Rattle.std.specs.Prelude.{◌≡◌, ◌≤◌, true, length, IfOk, None, slice_index_or};
ghost use Rattle.bound_propagation.specs.Moving.{has_moved as moved_at, does_any_move as any_moves, HaveStayed};

use crate::bounds::{Bounds, end_at};
use outcomes::Memory;
use std::alloc::Global;

// Whether a variable moved.
fn has_moved(moved: &[bool], var: u32) -> bool
    ensures { result ≡ moved_at moved.now var }
{
    match moved.get(var as usize) {
        Some(flag) => *flag,
        None => true,
    }
}

/// Whether a variable of the terms moved.
pub(crate) fn does_any_move(moved: &[bool], terms: &[(u32, i128)]) -> bool
    ensures { result ≡ any_moves moved.now terms.now }
{
    for term in terms {
        if has_moved(moved, term.0) {
            return true;
        }
    }
    false
}

// Whether the ends are the same.
fn are_same(x: Option<i128>, y: Option<i128>) -> bool
    ensures { result ≡ true → x ≡ y }
{
    x == y
}

// Whether a variable has the bounds that it had.
fn has_stayed(old: &Bounds, lows: &[Option<i128>], highs: &[Option<i128>], var: u32) -> bool
    ensures low { result ≡ true → slice_index_or lows.now var None ≡ slice_index_or old.now.lows var None }
    ensures high { result ≡ true → slice_index_or highs.now var None ≡ slice_index_or old.now.highs var None }
{
    are_same(end_at(lows, var), old.low(var)) && are_same(end_at(highs, var), old.high(var))
}

/// The variables whose bounds the limits of a round narrowed, whether these were kept or refused since they crossed.
pub(crate) fn moved_by(
    alloc: Global,
    old: &Bounds,
    lows: &[Option<i128>],
    highs: &[Option<i128>],
) -> Result<Vec<bool>, Memory>
    requires { length lows.now ≤ 500 }
    ensures { IfOk result (λ moved. HaveStayed moved.items old.now (record { lows = lows.now; highs = highs.now })) }
{
    let mut moved = Vec::new(alloc);
    for place in 0..lows.len() {
        if moved
            .push(!has_stayed(old, lows, highs, place as u32))
            .is_err()
        {
            return Err(Memory);
        }
    }
    Ok(moved)
}
