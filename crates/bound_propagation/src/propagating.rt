//! The box of a model, round by round.

ghost use Rattle.std.specs.Prelude.{◌≡◌, ◌≤◌, ◌<◌, ◌^◌, true, length, None, IfOk, OnOk, slice_index_or, slice_set};
ghost use Rattle.block_tree.specs.Sound.{are_rows_below};
ghost use Rattle.block_tree.specs.Values.{model_tree};
ghost use Rattle.bound_propagation.specs.Kept.{IsKept, box_of};
ghost use Rattle.bound_propagation.specs.Moving.{AreOthersIdle};
ghost use Rattle.bound_propagation.specs.Narrowing.{IsSettled, kinds_of};
ghost use Rattle.bound_propagation.specs.Propagated.{are_crossed as do_cross, kept_or as kept_end, round as box_round, box_after};

use crate::bounds::Bounds;
use crate::declaring::declared_bounds;
use crate::moving::moved_by;
use crate::narrowing::narrow_by_rows;
use crate::rounding::are_crossed;
use block_tree::{Bound, Model};
use gdp_io::Name;
use lp_rows::{Kind, Row};
use outcomes::Memory;
use std::alloc::Global;

// The old end where the new ones cross.
fn kept_or(crossed: bool, old: Option<i128>, new: Option<i128>) -> Option<i128>
    ensures { result ≡ kept_end crossed old new }
{
    if crossed { old } else { new }
}

// Keeps the old bounds of a variable where the new ones cross.
fn settle_at(place: usize, old: &Bounds, lows: &mut [Option<i128>], highs: &mut [Option<i128>])
    requires low { place < length lows.old }
    requires high { place < length highs.old }
    requires small { place < 2 ^ 32 }
    ensures lows { lows.new ≡ slice_set lows.old place (kept_end (do_cross (slice_index_or lows.old place None) (slice_index_or highs.old place None))
        (slice_index_or old.now.lows place None) (slice_index_or lows.old place None)) }
    ensures highs { highs.new ≡ slice_set highs.old place (kept_end (do_cross (slice_index_or lows.old place None) (slice_index_or highs.old place None))
        (slice_index_or old.now.highs place None) (slice_index_or highs.old place None)) }
{
    let low = lows[place];
    let high = highs[place];
    let crossed = are_crossed(low, high);
    lows[place] = kept_or(crossed, old.low(place as u32), low);
    highs[place] = kept_or(crossed, old.high(place as u32), high);
}

// Keeps the old bounds of each variable whose new ones cross.
fn settle(old: &Bounds, lows: &mut [Option<i128>], highs: &mut [Option<i128>])
    requires paired { length highs.old ≡ length lows.old }
    requires few { length lows.old ≤ 500 }
    ensures lows { length lows.new ≡ length lows.old }
    ensures highs { length highs.new ≡ length highs.old }
    ensures settled { IsSettled old.now (record { lows = lows.old; highs = highs.old }) (record { lows = lows.new; highs = highs.new }) }
{
    for place in 0..lows.len() {
        settle_at(place, old, lows, highs);
    }
}

// Makes the bounds of a box those after one more round, each bound from the box before, and answers what moved.
fn make_round(
    alloc: Global,
    vars: &[(Name, Kind, Bound, u32)],
    rows: &[(Row, u32)],
    moved: &[bool],
    old: &Bounds,
    lows: &mut [Option<i128>],
    highs: &mut [Option<i128>],
) -> Result<Vec<bool>, Memory>
    requires ids { are_rows_below (length old.now.lows) rows.now ≡ true }
    requires few { length old.now.lows ≤ 500 }
    requires kept { IsKept old.now.lows old.now.highs }
    requires low { lows.old ≡ old.now.lows }
    requires high { highs.old ≡ old.now.highs }
    requires idle { AreOthersIdle (kinds_of vars.now) rows.now moved.now (box_of old.now) }
    ensures lows { length lows.new ≡ length old.now.lows }
    ensures highs { length highs.new ≡ length old.now.highs }
    ensures kept { OnOk result (IsKept lows.new highs.new) }
    ensures boxed { OnOk result (box_of (record { lows = lows.new; highs = highs.new }) ≡ box_round (kinds_of vars.now) rows.now (box_of old.now)) }
    ensures idle { IfOk result (λ moved. AreOthersIdle (kinds_of vars.now) rows.now moved.items (box_of (record { lows = lows.new; highs = highs.new }))) }
{
    if narrow_by_rows(alloc, vars, rows, moved, old, lows, highs).is_err() {
        return Err(Memory);
    }
    let moved = moved_by(alloc, old, lows, highs)?;
    settle(old, lows, highs);
    Ok(moved)
}

// The box after a round, and which variables it moved.
#[derive(Drop)]
struct Round {
    bounds: Bounds,
    moved: Vec<bool>,
}

// One more round.
fn next_round(
    alloc: Global,
    vars: &[(Name, Kind, Bound, u32)],
    rows: &[(Row, u32)],
    old: &Round,
) -> Result<Round, Memory>
    requires ids { are_rows_below (length old.now.bounds.lows) rows.now ≡ true }
    requires few { length old.now.bounds.lows ≤ 500 }
    requires idle { AreOthersIdle (kinds_of vars.now) rows.now old.now.moved.items (box_of old.now.bounds) }
    ensures count { IfOk result (λ next. length next.bounds.lows ≡ length old.now.bounds.lows) }
    ensures boxed { IfOk result (λ next. box_of next.bounds ≡ box_round (kinds_of vars.now) rows.now (box_of old.now.bounds)) }
    ensures idle { IfOk result (λ next. AreOthersIdle (kinds_of vars.now) rows.now next.moved.items (box_of next.bounds)) }
{
    let bounds = &old.bounds;
    let Ok(mut lows) = Vec::from_slice(alloc, bounds.lows.as_slice()) else {
        return Err(Memory);
    };
    let Ok(mut highs) = Vec::from_slice(alloc, bounds.highs.as_slice()) else {
        return Err(Memory);
    };
    let moved = make_round(alloc, vars, rows, &old.moved, bounds, &mut lows, &mut highs)?;
    Ok(Round {
        bounds: Bounds { lows, highs },
        moved,
    })
}

/// The box of a model: its bounds after eight rounds over the root's rows. After the first, a round visits the rows of
/// which a variable moved in the round before, that is, was narrowed or would have been if its bounds had not crossed.
pub fn propagate(alloc: Global, model: &Model) -> Result<Bounds, Memory>
    ensures count { IfOk result (λ b. length b.lows ≡ length model.now.vars) }
    ensures boxed { IfOk result (λ b. box_of b ≡ box_after (model_tree model.now)) }
{
    let vars = model.vars();
    let root = model.root();
    let rows = root.rows();
    let Ok(bounds) = declared_bounds(alloc, vars) else {
        return Err(Memory);
    };
    let mut round = Round {
        bounds,
        moved: Vec::new(alloc),
    };
    for _round in 0..8_usize {
        let Ok(next) = next_round(alloc, vars, rows, &round) else {
            return Err(Memory);
        };
        round = next;
    }
    Ok(round.bounds)
}
