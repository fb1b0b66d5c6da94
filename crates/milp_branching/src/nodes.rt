//! The nodes of a program.

ghost use Rattle.std.specs.Prelude.{◌≡◌, ◌<◌, ◌<ℤ◌, ◌^◌, ◌&&◌, ◌+ℤ◌, pos, true, None, length, IfOk};
ghost use Rattle.int_linear.specs.Sums.{at as at_place};
ghost use Rattle.fractions.specs.Width.{is_narrow};
ghost use Rattle.search_rules.specs.Problem.{IsAllowed};
ghost use Rattle.settling.specs.Reading.{Answers};
ghost use Rattle.milp_forces.specs.Milps.{is_fit, AreAllowed};
ghost use Rattle.milp_forces.specs.Forces.{force_at};
ghost use Rattle.milp_nodes.specs.Nodes.{
  is_broken as broken_number,
  is_inner as inner,
  broken_from,
  floor as floor_of,
  split_at,
  test_at,
  problem_of,
};
ghost use Rattle.milp_forces.proofs.Fits.{force_bounded};
ghost use Rattle.milp_nodes.proofs.Promises.{milp_nodes as promises, allowed as are_allowed};

use lp_frame::Force;
use lp_rows::{Col, Flags, Kind, Point, WideAt};
use milp_forces::milp_force;
use milps::Milp;
use outcomes::Memory;
use proof_tree::{Path, Split};
use search_core::Promising;
use settling::{Found, Nodes, TestError};
use std::alloc::Global;

/// The nodes of a program within the limits.
#[derive(Drop)]
pub struct MilpNodes<'a> {
    /// The program.
    pub milp: &'a Milp,
    ghost fit: { is_fit milp.now ≡ true },
}

impl<'a> MilpNodes<'a> {
    /// The nodes of this program.
    pub fn new(milp: &'a Milp) -> MilpNodes<'a>
        ensures { result.milp.now ≡ milp.now }
    {
        let _cols = milp.cols();
        MilpNodes { milp }
    }
}

impl<'a> Nodes for MilpNodes<'a> {
    ghost ready = { λ me p. AreAllowed me.milp.now p };

    ghost dead_of = { λ me p. None };

    ghost force_of = { λ me p goal. force_at me.milp.now p goal };

    ghost loose_of = { λ me p. None };

    ghost test_of = { λ me p x. test_at me.milp.now x };

    ghost bounded = { λ me p goal ready. force_bounded me.milp.now p goal me.fit ready };

    fn dead(&self, _path: &Path) -> Result<Option<u32>, Memory> {
        Ok(None)
    }

    fn force(&self, alloc: Global, path: &Path, goal: bool) -> Result<Force, Memory> {
        milp_force(alloc, self.milp, path, goal)
    }

    fn loose(&self, _path: &Path) -> Option<Split> {
        None
    }

    fn test(&self, alloc: Global, _path: &Path, at: &Point) -> Result<Found, TestError> {
        test_point(alloc, self.milp, at)
    }
}

impl<'a> Promising for MilpNodes<'a> {
    ghost problem = { λ me. problem_of me.milp.now };

    ghost promised = { λ me. promises me.milp.now me.fit };

    ghost allowed = { λ me p a. are_allowed me.milp.now p a };
}

// Splits the first integer column whose number is not whole at its floor, or finds a point.
fn test_point(alloc: Global, milp: &Milp, at: &Point) -> Result<Found, TestError>
    requires { is_fit milp.now ≡ true }
    ensures { Answers (λ r. r ≡ test_at milp.now at.now) result }
{
    let over = at.over();
    match broken(milp.cols(), at.nums(), over) {
        None => Ok(Found::Point(Flags::new(alloc))),
        Some(column) => split(column, floor(number_at(at.nums(), column), over)),
    }
}

fn split(column: u32, at: i128) -> Result<Found, TestError>
    ensures { Answers (λ r. r ≡ split_at column at) result }
{
    if is_inner(at) {
        Ok(Found::Split(Split::Int { column, at }))
    } else {
        Err(TestError::Wide(WideAt::Value))
    }
}

fn is_inner(at: i128) -> bool
    ensures { result ≡ inner at }
{
    i128::MIN < at && at < i128::MAX
}

fn number_at(nums: &[i128], column: u32) -> i128
    ensures { result ≡ at_place nums.now column }
{
    match nums.get(column as usize) {
        None => 0,
        Some(number) => *number,
    }
}

// The first integer column whose number is not whole.
fn broken(cols: &[Col], nums: &[i128], over: i128) -> Option<u32>
    requires few { length cols.now < 2 ^ 32 }
    requires positive { pos 0 <ℤ over }
    ensures { result ≡ broken_from cols.now 0 (record { over = over; nums = nums.now }) }
{
    let mut column: u32 = 0;
    'cols: for col in cols {
        if is_broken(col.kind, number_at(nums, column), over) {
            return Some(column);
        }
        column = column.wrapping_add(1);
    }
    None
}

fn is_broken(kind: Kind, number: i128, over: i128) -> bool
    requires { pos 0 <ℤ over }
    ensures { result ≡ broken_number kind number over }
{
    match kind {
        Kind::Real => false,
        Kind::Int => number.unsigned_abs() % over.unsigned_abs() != 0,
    }
}

fn floor(number: i128, over: i128) -> i128
    requires { pos 0 <ℤ over }
    ensures { result ≡ floor_of number over }
{
    if number >= 0 {
        number / over
    } else {
        -1 - (-1 - number) / over
    }
}
