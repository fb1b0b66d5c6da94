//! What the rows of a root block make of the bounds of a box, each bound from the box before.

ghost use Rattle.std.specs.Prelude.{◌≡◌, ◌≤◌, ◌<◌, ◌^◌, pos, true, length, unsigned_abs, neg_ℤ, None, Some, [], ◌∷◌, IfOk, OnOk, slice_index_or, slice_set};
ghost use Rattle.lp_rows.specs.Holding.{ids_below};
ghost use Rattle.lp_rows.specs.Rows.{are_storable, ascends_from};
ghost use Rattle.block_tree.specs.Sound.{are_rows_below};
ghost use Rattle.bound_propagation.specs.Boxes.{turned as turned_terms, halves};
ghost use Rattle.bound_propagation.specs.Kept.{box_of};
ghost use Rattle.bound_propagation.specs.Moving.{AreOthersIdle};
ghost use Rattle.bound_propagation.specs.Narrowing.{AreAlike, kinds_of};
ghost use Rattle.bound_propagation.specs.Propagated.{
  high_by as high_of,
  low_by as low_of,
  lesser as lesser_end,
  greater as greater_end,
  limits,
  limits_from,
  limits_of_halves,
};
ghost use Rattle.bound_propagation.specs.Sizes.{IsEndBelow};

use crate::bounds::Bounds;
use crate::moving::does_any_move;
use crate::rounding::{greater, high_by, lesser, low_by};
use crate::tallies::{least_of_term, left_over, tally_of};
use block_tree::Bound;
use gdp_io::Name;
use lp_rows::{Kind, Rel, Row};
use outcomes::Memory;
use std::alloc::Global;

// The kind of a variable.
fn kind_of(vars: &[(Name, Kind, Bound, u32)], var: u32) -> Kind
    ensures { result ≡ kinds_of vars.now var }
{
    match vars.get(var as usize) {
        Some(found) => found.1,
        None => Kind::Real,
    }
}

// Raises the low of a variable to what a limit gives, and lowers the high.
fn apply(
    kind: Kind,
    term: (u32, i128),
    most: Option<i128>,
    lows: &mut [Option<i128>],
    highs: &mut [Option<i128>],
)
    requires low { term.0 < length lows.old }
    requires high { term.0 < length highs.old }
    requires small { unsigned_abs term.1 ≤ 10 ^ 15 }
    requires most { IsEndBelow (2 ^ 120) most }
    ensures lows { lows.new ≡ slice_set lows.old term.0 (greater_end (slice_index_or lows.old term.0 None) (low_of kind term.1 most)) }
    ensures highs { highs.new ≡ slice_set highs.old term.0 (lesser_end (slice_index_or highs.old term.0 None) (high_of kind term.1 most)) }
{
    let place = term.0 as usize;
    lows[place] = greater(lows[place], low_by(kind, term.1, most));
    highs[place] = lesser(highs[place], high_by(kind, term.1, most));
}

// Narrows the bounds by an at-most row.
fn narrow_by_terms(
    vars: &[(Name, Kind, Bound, u32)],
    terms: &[(u32, i128)],
    right: i128,
    old: &Bounds,
    lows: &mut [Option<i128>],
    highs: &mut [Option<i128>],
)
    requires ids { ids_below (length lows.old) terms.now ≡ true }
    requires paired { length highs.old ≡ length lows.old }
    requires few { length terms.now ≤ 500 }
    requires small { are_storable terms.now ≡ true }
    requires right { unsigned_abs right ≤ 10 ^ 15 }
    ensures lows { length lows.new ≡ length lows.old }
    ensures highs { length highs.new ≡ length highs.old }
    ensures alike { AreAlike (kinds_of vars.now) [] (record { lows = lows.new; highs = highs.new })
        (limits_from right (Some (pos 0)) terms.now (box_of old.now)) (record { lows = lows.old; highs = highs.old }) }
{
    let tally = tally_of(terms, old);
    for term in terms {
        let most = left_over(right, tally, least_of_term(*term, old));
        apply(kind_of(vars, term.0), *term, most, lows, highs);
    }
}

// The term with the other sign.
fn opposite(term: (u32, i128)) -> (u32, i128)
    requires { unsigned_abs term.1 ≤ 10 ^ 15 }
    ensures { result ≡ (term.0, neg_ℤ term.1) }
{
    (term.0, -term.1)
}

// The terms with the other sign.
fn turned(alloc: Global, terms: &[(u32, i128)]) -> Result<Vec<(u32, i128)>, Memory>
    requires { are_storable terms.now ≡ true }
    ensures { IfOk result (λ done. done.items ≡ turned_terms terms.now) }
{
    let mut done = Vec::new(alloc);
    for term in terms {
        if done.push(opposite(*term)).is_err() {
            return Err(Memory);
        }
    }
    Ok(done)
}

// Narrows the bounds by the negation of a row: its terms with the other sign are at most its right side with the other
// sign.
fn narrow_by_turned(
    alloc: Global,
    vars: &[(Name, Kind, Bound, u32)],
    terms: &[(u32, i128)],
    right: i128,
    old: &Bounds,
    lows: &mut [Option<i128>],
    highs: &mut [Option<i128>],
) -> Result<(), Memory>
    requires ids { ids_below (length lows.old) terms.now ≡ true }
    requires paired { length highs.old ≡ length lows.old }
    requires few { length terms.now ≤ 500 }
    requires small { are_storable terms.now ≡ true }
    requires right { unsigned_abs right ≤ 10 ^ 15 }
    ensures lows { length lows.new ≡ length lows.old }
    ensures highs { length highs.new ≡ length highs.old }
    ensures alike { OnOk result (AreAlike (kinds_of vars.now) [] (record { lows = lows.new; highs = highs.new })
        (limits_from (neg_ℤ right) (Some (pos 0)) (turned_terms terms.now) (box_of old.now)) (record { lows = lows.old; highs = highs.old })) }
{
    let Ok(other) = turned(alloc, terms) else {
        return Err(Memory);
    };
    narrow_by_terms(vars, &other, -right, old, lows, highs);
    Ok(())
}

// Narrows the bounds by a row.
#[tactic(auto, using(crate::proofs::Turned::right_small, crate::proofs::Turned::row_storable, crate::proofs::Turned::row_few))]
fn narrow_by_row(
    alloc: Global,
    vars: &[(Name, Kind, Bound, u32)],
    row: &Row,
    old: &Bounds,
    lows: &mut [Option<i128>],
    highs: &mut [Option<i128>],
) -> Result<(), Memory>
    requires ids { ids_below (length lows.old) row.now.terms ≡ true }
    requires paired { length highs.old ≡ length lows.old }
    requires few { length lows.old ≤ 500 }
    ensures lows { length lows.new ≡ length lows.old }
    ensures highs { length highs.new ≡ length highs.old }
    ensures alike { OnOk result (AreAlike (kinds_of vars.now) [] (record { lows = lows.new; highs = highs.new })
        (limits_of_halves (halves row.now.rel row.now.terms row.now.right) (box_of old.now)) (record { lows = lows.old; highs = highs.old })) }
{
    let terms = row.terms();
    let right = row.right();
    match row.rel() {
        Rel::AtMost => {
            narrow_by_terms(vars, terms, right, old, lows, highs);
            Ok(())
        }
        Rel::AtLeast => narrow_by_turned(alloc, vars, terms, right, old, lows, highs),
        Rel::Equal => {
            narrow_by_terms(vars, terms, right, old, lows, highs);
            if narrow_by_turned(alloc, vars, terms, right, old, lows, highs).is_err() {
                return Err(Memory);
            }
            Ok(())
        }
    }
}

/// Narrows the bounds by those rows of which a variable moved: the others narrow nothing.
pub(crate) fn narrow_by_rows(
    alloc: Global,
    vars: &[(Name, Kind, Bound, u32)],
    rows: &[(Row, u32)],
    moved: &[bool],
    old: &Bounds,
    lows: &mut [Option<i128>],
    highs: &mut [Option<i128>],
) -> Result<(), Memory>
    requires ids { are_rows_below (length lows.old) rows.now ≡ true }
    requires low { lows.old ≡ old.now.lows }
    requires high { highs.old ≡ old.now.highs }
    requires paired { length highs.old ≡ length lows.old }
    requires few { length lows.old ≤ 500 }
    requires idle { AreOthersIdle (kinds_of vars.now) rows.now moved.now (box_of old.now) }
    ensures lows { length lows.new ≡ length lows.old }
    ensures highs { length highs.new ≡ length highs.old }
    ensures alike { OnOk result (AreAlike (kinds_of vars.now) [] (record { lows = lows.new; highs = highs.new })
        (limits rows.now (box_of old.now)) (record { lows = lows.old; highs = highs.old })) }
{
    for row in rows {
        if !does_any_move(moved, row.0.terms()) {
            continue;
        }
        if narrow_by_row(alloc, vars, &row.0, old, lows, highs).is_err() {
            return Err(Memory);
        }
    }
    Ok(())
}
