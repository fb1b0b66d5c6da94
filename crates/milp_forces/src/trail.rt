//! A path that keeps the tightest bounds that it sets, and its truths.

ghost use Rattle.std.specs.Prelude.{◌≡◌, ◌<◌, ℕ, List, [], ◌∷◌, OnOk, OnErr, IsSome, length, nat_eq, if◌then◌else◌};
ghost use Rattle.proof_tree.specs.declared.path.Half.{Half};
ghost use Rattle.proof_tree.specs.Paths.{after_leaf, popped, rest_of};
ghost use Rattle.milp_forces.specs.Forces.{low_at, high_at};
ghost use Rattle.milp_forces.specs.Trails.{kept, stood, truths_of, with_truth, AreKept};

use crate::force::{lowered, raised};
use crate::track::{Step, Track};
use outcomes::Memory;
use proof_tree::{Half, Path, Split};
use std::alloc::Global;
use std::marker::Model;

/// A path with the tightest bounds that it sets for each column, which are changed half by half, and with its halves of
/// Booleans apart; clauses see the path.
///
/// It takes memory by the greatest column that it splits, and by its length: a few bytes for each half, and a `Half`
/// more for each of a Boolean.
#[derive(Drop)]
pub struct Trail {
    track: Track,
    truths: Path,
    lows: Vec<Option<i128>>,
    highs: Vec<Option<i128>>,
}

impl Model for Trail {
    ghost use Rattle.std.specs.Prelude.{◌≡◌, List};
    ghost use Rattle.proof_tree.specs.declared.path.Half.{Half};
    ghost use Rattle.milp_forces.specs.Trails.{halves_of, steps_of, truths_of, AreKept};

    ghost Value = { List Half };

    ghost view = { λ t. halves_of t.track };

    ghost invariant = { λ t. (t.truths ≡ truths_of (halves_of t.track)) × (t.track ≡ steps_of (halves_of t.track)) × AreKept t.lows.items t.highs.items (halves_of t.track) };
}

impl Trail {
    /// The root's.
    pub fn new(alloc: Global) -> Trail
        ensures { result ≡ [] }
    {
        Trail {
            track: Track::new(alloc),
            truths: Path::new(alloc),
            lows: Vec::new(alloc),
            highs: Vec::new(alloc),
        }
    }

    /// The halves of Booleans.
    pub fn truths(&self) -> &Path
        ensures { result.now ≡ truths_of self.now }
    {
        &self.truths
    }

    /// The greatest number of a second half of the column.
    pub fn low(&self, column: u32) -> Option<i128>
        ensures { result ≡ low_at self.now column }
    {
        at(&self.lows, column)
    }

    /// The least number of a first half of the column.
    pub fn high(&self, column: u32) -> Option<i128>
        ensures { result ≡ high_at self.now column }
    {
        at(&self.highs, column)
    }

    /// Appends a half; a refused one changes nothing.
    pub fn push(&mut self, half: Half) -> Result<(), Memory>
        ensures ok { OnOk result (self.new ≡ half ∷ self.old) }
        ensures err { OnErr result (self.new ≡ self.old) }
    {
        let before = self.stood(half);
        self.track.push(Step { half, before })?;
        if push_truth(&mut self.truths, half).is_err() {
            let _step = self.track.pop();
            return Err(Memory);
        }
        if set(&mut self.lows, &mut self.highs, half).is_err() {
            pop_truth(&mut self.truths, half);
            let _step = self.track.pop();
            return Err(Memory);
        }
        Ok(())
    }

    // The bound of a half's column, on its side.
    fn stood(&self, half: Half) -> Option<i128>
        ensures { result ≡ stood half.split half.second self.now }
    {
        match half.split {
            Split::Truth { id: _ } => None,
            Split::Int { column, at: _ } => {
                if half.second {
                    self.low(column)
                } else {
                    self.high(column)
                }
            }
        }
    }

    /// Takes the last half away; None where there is none.
    pub fn pop(&mut self) -> Option<Half>
        ensures { popped self.old result self.new }
    {
        let step = self.track.pop()?;
        reset(&mut self.lows, &mut self.highs, step);
        pop_truth(&mut self.truths, step.half);
        Some(step.half)
    }

    /// Goes on to the node after a leaf here, or to the root where there is none.
    pub fn advance(&mut self) -> Result<(), Memory>
        ensures { OnOk result (self.new ≡ rest_of (after_leaf self.old)) }
    {
        'halves: while let Some(half) = self.pop() {
            if !half.second {
                return self.push(Half {
                    split: half.split,
                    second: true,
                });
            }
        }
        Ok(())
    }
}

// Appends a half of a Boolean; a refused one changes nothing.
fn push_truth(truths: &mut Path, half: Half) -> Result<(), Memory>
    ensures ok { OnOk result (truths.new ≡ with_truth half.split half truths.old) }
    ensures err { OnErr result (truths.new ≡ truths.old) }
{
    match half.split {
        Split::Int { column: _, at: _ } => Ok(()),
        Split::Truth { id: _ } => truths.push(half),
    }
}

// Takes the last half away where this is one of a Boolean.
fn pop_truth(truths: &mut Path, half: Half)
    ensures { (p : List Half) → truths.old ≡ with_truth half.split half p → truths.new ≡ p }
{
    match half.split {
        Split::Int { column: _, at: _ } => {}
        Split::Truth { id: _ } => {
            let _half = truths.pop();
        }
    }
}

// What a table has for a column.
fn at(table: &[Option<i128>], column: u32) -> Option<i128>
    ensures { result ≡ kept table.now column }
{
    match table.get(column as usize) {
        Some(number) => *number,
        None => None,
    }
}

// Makes room for a column.
fn grow(table: &mut Vec<Option<i128>>, column: u32) -> Result<(), Memory>
    ensures room { OnOk result (column < length table.new.items) }
    ensures same { (j : ℕ) → kept table.new.items j ≡ kept table.old.items j }
{
    'room: while table.len() <= column as usize {
        table.push(None)?;
    }
    Ok(())
}

// Puts a number in the place of a column's; a refused call changes no column's.
fn put(table: &mut Vec<Option<i128>>, column: u32, number: Option<i128>) -> Result<(), Memory>
    ensures ok { OnOk result ((j : ℕ) → kept table.new.items j ≡ (if nat_eq column j then number else kept table.old.items j)) }
    ensures err { OnErr result ((j : ℕ) → kept table.new.items j ≡ kept table.old.items j) }
{
    grow(table, column)?;
    table[column as usize] = number;
    Ok(())
}

// Sets the bound of a half; a refused call changes no column's.
fn set(
    lows: &mut Vec<Option<i128>>,
    highs: &mut Vec<Option<i128>>,
    half: Half,
) -> Result<(), Memory>
    ensures ok { (p : List Half) → AreKept lows.old.items highs.old.items p → OnOk result (AreKept lows.new.items highs.new.items (half ∷ p)) }
    ensures err { (p : List Half) → AreKept lows.old.items highs.old.items p → OnErr result (AreKept lows.new.items highs.new.items p) }
{
    match half.split {
        Split::Truth { id: _ } => Ok(()),
        Split::Int { column, at: _ } => {
            if half.second {
                let before = at(lows, column);
                put(lows, column, raised(half.split, true, column, before))
            } else {
                let before = at(highs, column);
                put(highs, column, lowered(half.split, false, column, before))
            }
        }
    }
}

// Sets what stood before a half.
fn reset(lows: &mut [Option<i128>], highs: &mut [Option<i128>], step: Step)
    ensures { (p : List Half) → AreKept lows.old highs.old (step.half ∷ p) → step.before ≡ stood step.half.split step.half.second p → AreKept lows.new highs.new p }
{
    match step.half.split {
        Split::Truth { id: _ } => {}
        Split::Int { column, at: _ } => {
            if step.half.second {
                put_back(lows, column, step.before);
            } else {
                put_back(highs, column, step.before);
            }
        }
    }
}

// Puts a number in the place of a column's, where there is one.
fn put_back(table: &mut [Option<i128>], column: u32, number: Option<i128>)
    ensures { IsSome (kept table.old column) → (j : ℕ) → kept table.new j ≡ (if nat_eq column j then number else kept table.old j) }
{
    let column = column as usize;
    if column < table.len() {
        table[column] = number;
    }
}
