//! The test of a point that holds in a model's force.

ghost use Rattle.std.specs.Prelude.{◌≡◌, ◌<◌, ◌+◌, ◌^◌, ◌<ℤ◌, pos, true, length, map, reverse, IfOk};
ghost use Rattle.std.specs.Int.{int_div_euclid};
ghost use Rattle.std.specs.List.{list_all};
ghost use Rattle.fractions.specs.Width.{fits};
ghost use Rattle.int_linear.specs.Sums.{at as at_place};
ghost use Rattle.propositions.specs.Reading.{is_yes as sure};
ghost use Rattle.proof_tree.specs.declared.path.Split.TheVariants as split;
ghost use Rattle.settling.specs.Reading.{Answers};
ghost use Rattle.lp_rows.specs.Kinds.{is_of_kind as of_kind};
ghost use Rattle.model_tree.specs.Values.{model_tree};
ghost use Rattle.model_nodes.specs.Nodes.{
  truths_at,
  first_part as part_from,
  or_part,
  model_split,
  split_found as by_split,
  model_test,
};

use crate::reading::loose;
use gdp_io::Name;
use gdp_tables::Tri;
use lp_rows::{Flags, Kind, Point, WideAt};
use model_forces::tris;
use model_tree::{Bound, Model};
use outcomes::Memory;
use point_tests::{Verdict, satisfies};
use proof_tree::{Half, Path, Split};
use settling::{Found, TestError};
use std::alloc::Global;

/// Tests a point of a path's force: it is one of the model's, with an open Boolean false, or the node is split, on the
/// least open Boolean, or else at the floor of the first integer variable whose number is not whole.
pub fn model_point(
    alloc: Global,
    model: &Model,
    path: &Path,
    at: &Point,
) -> Result<Found, TestError>
    ensures { Answers (λ r. r ≡ model_test (model_tree model.now) path.now at.now) result }
{
    let vars = model.vars();
    let nums = at.nums();
    let _ = at.over();
    all_fit(nums);
    if nums.len() != vars.len() {
        return Err(TestError::Wide(WideAt::Value));
    }
    let halves = path.halves();
    let Ok(truths) = truths(alloc, model, halves) else {
        return Err(TestError::Memory);
    };
    match satisfies(model, at, truths.as_slice()) {
        Ok(Verdict::Holds) => Ok(Found::Point(Flags::from_vec(truths))),
        Ok(Verdict::FailsAt(_)) => split_found(parted(model, halves, at)),
        Err(wide) => Err(TestError::Wide(WideAt::Sum { mark: wide.mark })),
    }
}

// Each number is within 128 bits: that it was read shows it, and nothing is computed.
fn all_fit(nums: &[i128])
    ensures { list_all fits nums.now ≡ true }
{
    'nums: for number in nums {
        let _number = *number;
    }
}

// The truths of the model's Booleans, an open one false.
fn truths(alloc: Global, model: &Model, halves: &[Half]) -> Result<Vec<bool>, Memory>
    ensures { IfOk result (λ truths. truths.items ≡ truths_at (model_tree model.now) (reverse halves.now)) }
{
    let _ = model.vars();
    let count = model.booleans().len() as u32;
    let tris = tris(alloc, halves, count)?;
    sure_ones(alloc, tris.as_slice())
}

fn sure_ones(alloc: Global, tris: &[Tri]) -> Result<Vec<bool>, Memory>
    ensures { IfOk result (λ truths. truths.items ≡ map sure tris.now) }
{
    let mut truths = Vec::new(alloc);
    for tri in tris {
        truths.push(is_yes(*tri))?;
    }
    Ok(truths)
}

fn is_yes(tri: Tri) -> bool
    ensures { result ≡ sure tri }
{
    match tri {
        Tri::Yes => true,
        Tri::No => false,
        Tri::Open => false,
    }
}

fn split_found(split: Option<Split>) -> Result<Found, TestError>
    ensures { Answers (λ r. r ≡ by_split split) result }
{
    match split {
        Some(split) => Ok(Found::Split(split)),
        None => Err(TestError::Wide(WideAt::Value)),
    }
}

// The split of a point that is none of the model's.
fn parted(model: &Model, halves: &[Half], at: &Point) -> Option<Split>
    ensures { result ≡ model_split (model_tree model.now) (reverse halves.now) at.now }
{
    let vars = model.vars();
    let over = at.over();
    match loose(model, halves) {
        Some(split) => Some(split),
        None => first_part(vars, at.nums(), over),
    }
}

// The split at the floor of the first integer variable whose number is not whole.
fn first_part(vars: &[(Name, Kind, Bound, u32)], nums: &[i128], over: i128) -> Option<Split>
    requires few { length vars.now < 2 ^ 32 }
    requires positive { pos 0 <ℤ over }
    ensures { result ≡ part_from vars.now 0 (at_place nums.now) over }
{
    let mut column: u32 = 0;
    'vars: for variable in vars {
        let number = number_at(nums, column);
        if !is_of_kind(variable.1, number, over) {
            return Some(part(column, number, over));
        }
        column = next(column);
    }
    None
}

fn next(column: u32) -> u32
    ensures { column + 1 < 2 ^ 32 → result ≡ column + 1 }
{
    column.wrapping_add(1)
}

fn number_at(nums: &[i128], column: u32) -> i128
    ensures { result ≡ at_place nums.now column }
{
    match nums.get(column as usize) {
        None => 0,
        Some(number) => *number,
    }
}

// Whether a variable of this kind takes the number over the denominator.
fn is_of_kind(kind: Kind, number: i128, over: i128) -> bool
    requires { pos 0 <ℤ over }
    ensures { result ≡ of_kind kind number over }
{
    match kind {
        Kind::Real => true,
        Kind::Int => number.unsigned_abs() % over.unsigned_abs() == 0,
    }
}

fn part(column: u32, number: i128, over: i128) -> Split
    requires { pos 0 <ℤ over }
    ensures { result ≡ split.Int column (int_div_euclid number over) }
{
    Split::Int {
        column,
        at: number.div_euclid(over),
    }
}
