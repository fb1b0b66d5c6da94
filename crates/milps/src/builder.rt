//! The builder of a program.

ghost use Rattle.std.specs.Prelude.{◌≡◌, ◌≤◌, ◌^◌, ◌==◌, true, false, length, unsigned_abs};
ghost use Rattle.outcomes.specs.Calls.{Acts};
ghost use Rattle.lp_rows.specs.Holding.{ids_below};
ghost use Rattle.milps.specs.Building.{width_of, height_of, bounds_of, col_outcome, row_outcome, goal_outcome, are_summable, IsWithin};
ghost use Rattle.milps.specs.Milps.{MilpValue, new_milp};

use crate::gathering::normal;
use lp_rows::{
    Col, ColList, Kind, Rel, Row, Sense, Sign, Terms, are_coefficients_storable, is_storable,
};
use std::alloc::Global;
use std::marker::Model;

/// The most columns, a free column counting two.
pub const MOST_COLS: usize = 4_000;

/// The most rows, an equality counting two and each whole column two more.
pub const MOST_ROWS: usize = 3_000;

/// Why a builder refuses.
#[derive(Clone, Copy, Debug, PartialEq, Eq)]
pub enum MilpError {
    /// A limit would be passed.
    TooBig,
    /// A number passes 10^15 in magnitude.
    Coefficient,
    /// Memory ran out.
    Memory,
}

/// A program that is being built.
#[derive(Drop)]
pub struct MilpBuilder {
    cols: ColList,
    rows: Vec<Row>,
    sense: Sense,
    goal: Terms,
    width: usize,
    height: usize,
}

impl Model for MilpBuilder {
    ghost use Rattle.std.specs.Prelude.{◌≡◌};
    ghost use Rattle.milps.specs.Milps.{MilpValue};
    ghost use Rattle.milps.specs.Building.{IsMeasured};

    ghost Value = { MilpValue };

    ghost view = { λ b. record { cols = b.cols; rows = b.rows.items; sense = b.sense; goal = b.goal } };

    ghost invariant = { λ b. IsMeasured (record { cols = b.cols; rows = b.rows.items; sense = b.sense; goal = b.goal }) b.width b.height };
}

impl MilpBuilder {
    /// No columns, no rows, and the goal `min 0`.
    pub fn new(alloc: Global) -> MilpBuilder
        ensures { result ≡ new_milp }
    {
        MilpBuilder {
            cols: ColList::new(alloc),
            rows: Vec::new(alloc),
            sense: Sense::Min,
            goal: Terms::new(alloc),
            width: 0,
            height: 0,
        }
    }

    /// The builder that stands where this program was finished, so that rows can be added to it.
    pub fn from_milp(milp: Milp) -> MilpBuilder
        ensures { result ≡ milp }
    {
        MilpBuilder {
            cols: milp.cols,
            rows: milp.rows,
            sense: milp.sense,
            goal: milp.goal,
            width: milp.width,
            height: milp.height,
        }
    }

    /// How many columns there are.
    pub fn col_count(&self) -> usize
        ensures value { result ≡ length self.now.cols }
        ensures few { result ≤ 4000 }
    {
        self.cols.len()
    }

    /// The columns.
    pub fn cols(&self) -> &[Col]
        ensures { result.now ≡ self.now.cols }
    {
        self.cols.as_slice()
    }

    /// The rows.
    pub fn rows(&self) -> &[Row]
        ensures { result.now ≡ self.now.rows }
    {
        self.rows.as_slice()
    }

    /// Adds a column, and answers its number.
    pub fn push_col(&mut self, alloc: Global, col: Col) -> Result<u32, MilpError>
        ensures { Acts MilpError.Memory self.old (col_outcome col self.old) result self.new }
    {
        let width = self.width + width(col.sign);
        let height = self.height + bounds_height(col.kind);
        if MOST_COLS < width || MOST_ROWS < height {
            return Err(MilpError::TooBig);
        }
        let id = self.cols.len() as u32;
        if self.cols.push(alloc, col).is_err() {
            return Err(MilpError::Memory);
        }
        self.width = width;
        self.height = height;
        Ok(id)
    }

    /// Adds a row. Terms of one id are added up, zeros are dropped, and the rest stand in the order of their ids.
    pub fn push_row(
        &mut self,
        alloc: Global,
        terms: &[(u32, i128)],
        rel: Rel,
        right: i128,
    ) -> Result<(), MilpError>
        requires ids { ids_below (length self.old.cols) terms.now ≡ true }
        requires few { length terms.now ≤ 4000 }
        requires summable { are_summable terms.now ≡ true }
        ensures { Acts MilpError.Memory self.old (row_outcome (record { terms = terms.now; rel = rel; right = right }) self.old) result self.new }
    {
        let Ok(terms) = normal(alloc, terms) else {
            return Err(MilpError::Memory);
        };
        if !(are_coefficients_storable(&terms) && is_storable(right)) {
            return Err(MilpError::Coefficient);
        }
        let height = self.height + height(rel);
        if MOST_ROWS < height {
            return Err(MilpError::TooBig);
        }
        let Ok(row) = Row::make(alloc, &terms, rel, right) else {
            return Err(MilpError::Memory);
        };
        if self.rows.push(row).is_err() {
            return Err(MilpError::Memory);
        }
        self.height = height;
        Ok(())
    }

    /// Sets the goal. Terms of one id are added up, zeros are dropped, and the rest stand in the order of their ids.
    pub fn set_goal(
        &mut self,
        alloc: Global,
        sense: Sense,
        terms: &[(u32, i128)],
    ) -> Result<(), MilpError>
        requires ids { ids_below (length self.old.cols) terms.now ≡ true }
        requires few { length terms.now ≤ 4000 }
        requires summable { are_summable terms.now ≡ true }
        ensures { Acts MilpError.Memory self.old (goal_outcome sense terms.now self.old) result self.new }
    {
        let Ok(terms) = normal(alloc, terms) else {
            return Err(MilpError::Memory);
        };
        if !are_coefficients_storable(&terms) {
            return Err(MilpError::Coefficient);
        }
        let Ok(goal) = Terms::from_slice(alloc, &terms) else {
            return Err(MilpError::Memory);
        };
        self.sense = sense;
        self.goal = goal;
        Ok(())
    }

    /// The program.
    pub fn finish(self) -> Milp
        ensures { result ≡ self }
    {
        Milp {
            cols: self.cols,
            rows: self.rows,
            sense: self.sense,
            goal: self.goal,
            width: self.width,
            height: self.height,
        }
    }
}

// How many columns of this sign count.
fn width(sign: Sign) -> usize
    ensures { result ≡ width_of sign }
{
    match sign {
        Sign::Free => 2,
        Sign::Nonneg => 1,
    }
}

// How many rows a column of this kind counts.
fn bounds_height(kind: Kind) -> usize
    ensures { result ≡ bounds_of kind }
{
    match kind {
        Kind::Real => 0,
        Kind::Int => 2,
    }
}

// How many rows a row of this relation counts.
fn height(rel: Rel) -> usize
    ensures { result ≡ height_of rel }
{
    match rel {
        Rel::AtMost => 1,
        Rel::AtLeast => 1,
        Rel::Equal => 2,
    }
}

/// A program within the limits.
#[derive(Drop)]
pub struct Milp {
    cols: ColList,
    rows: Vec<Row>,
    sense: Sense,
    goal: Terms,
    width: usize,
    height: usize,
}

impl Model for Milp {
    ghost use Rattle.milps.specs.Milps.{MilpValue};
    ghost use Rattle.milps.specs.Building.{IsMeasured};

    ghost Value = { MilpValue };

    ghost view = { λ b. record { cols = b.cols; rows = b.rows.items; sense = b.sense; goal = b.goal } };

    ghost invariant = { λ b. IsMeasured (record { cols = b.cols; rows = b.rows.items; sense = b.sense; goal = b.goal }) b.width b.height };
}

impl Milp {
    /// The columns. The program is within the limits.
    pub fn cols(&self) -> &[Col]
        ensures cols { result.now ≡ self.now.cols }
        ensures within { IsWithin self.now }
    {
        self.cols.as_slice()
    }

    /// The rows.
    pub fn rows(&self) -> &[Row]
        ensures { result.now ≡ self.now.rows }
    {
        self.rows.as_slice()
    }

    /// Whether a lesser or a greater value of the goal is better.
    pub fn sense(&self) -> Sense
        ensures { result ≡ self.now.sense }
    {
        self.sense
    }

    /// The terms of the goal.
    pub fn goal(&self) -> &[(u32, i128)]
        ensures { result.now ≡ self.now.goal }
    {
        self.goal.as_slice()
    }
}
