//! What is read out of a tableau at which no exchange is due.

ghost use Rattle.std.specs.Prelude.{true, false, ◌≡◌, ◌≤◌, ◌+◌, ◌⊎◌, ◌++◌, ◌∷◌, ◌<◌, slice_index_or, [], pos, neg_ℤ, ◌<ℤ◌, length, IfOk, IfErr, OnOk, if◌then◌else◌};
ghost use Rattle.std.specs.Ordering.{int_eq};
ghost use Rattle.fractions.specs.Fraction.{IsReduced};
ghost use Rattle.fractions.specs.Width.{IsNarrow};
ghost use Rattle.int_linear.specs.Sums.{at};
ghost use Rattle.simplex_rows.specs.Sparse.{AreColumnsOf, AreEntriesOf};
ghost use Rattle.lp_frame.specs.Standard.{Standard};
ghost use Rattle.lp_rows.specs.Rows.{ascends_from, has_zero};
ghost use Rattle.exact_simplex.specs.Bland.{bland_move};
ghost use Rattle.exact_simplex.specs.Equations.{IsTableauOf};
ghost use Rattle.exact_simplex.specs.ReadOut.{entries_of, multipliers_of, BoundsForm, RefutesForm};
ghost use Rattle.exact_simplex.specs.Laws.{AttainsLevel, IsAtPoint, IsFormRay};
ghost use Rattle.exact_simplex.specs.Rays.{IsRayOf, IsRayRefusal};
ghost use Rattle.exact_simplex.specs.Values.{IsPointOf, IsPointRefusal};
ghost use Rattle.exact_simplex.specs.Table.{basic, entry, right_side, scale as scale_column};

use crate::choosing::{find_row, number};
use crate::moves::{Move, ReadOut};
use crate::ray::ray_of;
use crate::tableau::Tableau;
use crate::values::point_of;
use fractions::Frac;
use lp_frame::Mults;
use lp_rows::{Nums, Point};
use outcomes::Memory;
use simplex_rows::Row;
use std::alloc::Global;

impl Tableau {
    /// The basic column of this row.
    pub fn basic(&self, row: u32) -> u32
        requires { row < self.now.height }
        ensures { result ≡ basic self.now row }
    {
        self.basis[row as usize] as u32
    }

    /// The columns in which this row has an entry other than 0, ascending; the goal row is the last. It takes no memory.
    pub fn row_columns(&self, row: u32) -> &[u32]
        requires { row ≤ self.now.height }
        ensures { AreColumnsOf (slice_index_or self.now.rows row []) result.now }
    {
        self.rows[row as usize].columns()
    }

    /// This row's entries other than 0, in the order of their columns; the goal row is the last. It takes no memory.
    pub fn row_entries(&self, row: u32) -> &[i128]
        requires { row ≤ self.now.height }
        ensures { AreEntriesOf (slice_index_or self.now.rows row []) result.now }
    {
        self.rows[row as usize].entries()
    }

    /// The scale of the goal row, by which the goal is multiplied in it.
    pub fn scale(&self) -> i128
        requires { bland_move self.now ≡ Move.Optimal }
        ensures value { result ≡ entry self.now self.now.height (scale_column self.now) }
        ensures positive { pos 0 <ℤ result }
    {
        let scale = self.columns + self.height + 2;
        number(&self.rows, self.height, scale)
    }

    /// The least value of the goal: the goal row's right side over its scale.
    pub fn level(&self) -> Frac
        requires { bland_move self.now ≡ Move.Optimal }
        ensures { IsReduced (right_side self.now self.now.height) (entry self.now self.now.height (scale_column self.now)) result }
    {
        let right = number(&self.rows, self.height, self.columns + self.height + 1);
        let scale = number(&self.rows, self.height, self.columns + self.height + 2);
        Frac::reduced(right, scale)
    }

    /// The point of the basis: the structural columns over the least common denominator of the values of all rows,
    /// slacks among them. At an optimal or an unbounded tableau it is a point of the standard form and attains the
    /// level. `Over` names the row at which the first number that leaves 128 bits is formed.
    pub fn point(&self, alloc: Global) -> Result<Point, ReadOut>
        ensures point { IfOk result (IsPointOf self.now) }
        ensures attains { IfOk result (λ point. (form : Standard) → IsTableauOf form self.now → IsAtPoint self.now → AttainsLevel form self.now point.over (at point.nums)) }
        ensures refused { IfErr result (IsPointRefusal self.now) }
    {
        point_of(alloc, &self.rows, &self.basis, self.columns, self.height)
    }

    /// The ray along the entering column of an unbounded tableau: the structural columns' growths, where the entering
    /// column grows by the least step that makes those of all rows whole, slacks among them. It keeps every row of the
    /// standard form and betters the goal. `Ray` names the row at which the first number that leaves 128 bits is formed.
    pub fn ray(&self, alloc: Global, enter: u32) -> Result<Nums, ReadOut>
        requires { bland_move self.now ≡ Move.Unbounded enter }
        ensures ray { IfOk result (IsRayOf self.now enter) }
        ensures keeps { IfOk result (λ nums. (form : Standard) → IsTableauOf form self.now → IsFormRay form (at nums)) }
        ensures refused { IfErr result (IsRayRefusal self.now enter) }
    {
        ray_of(
            alloc,
            &self.rows,
            &self.basis,
            self.columns,
            self.height,
            enter as usize,
        )
    }

    /// The multipliers of the rows, without zeros, rows ascending. At an optimal tableau they bound the goal by its
    /// level, and at an infeasible one they refute the standard form.
    pub fn multipliers(&self, alloc: Global) -> Result<Mults, Memory>
        requires { (bland_move self.now ≡ Move.Optimal) ⊎ (bland_move self.now ≡ Move.Infeasible) }
        ensures value { IfOk result (λ multipliers. multipliers ≡ multipliers_of self.now) }
        ensures listed { IfOk result (λ multipliers. (ascends_from 0 multipliers ≡ true) × (has_zero multipliers ≡ false)) }
        ensures optimal { IfOk result (λ multipliers. (form : Standard) → IsTableauOf form self.now → bland_move self.now ≡ Move.Optimal → BoundsForm form (right_side self.now self.now.height) (entry self.now self.now.height (scale_column self.now)) multipliers) }
        ensures infeasible { IfOk result (λ multipliers. (form : Standard) → IsTableauOf form self.now → bland_move self.now ≡ Move.Infeasible → RefutesForm form multipliers) }
    {
        let artificial = self.columns + self.height;
        let row = find_row(&self.basis, self.height, artificial);
        slack_entries(alloc, &self.rows[row], self.columns, self.height)
    }
}

// Minus the entries in the slack columns, without zeros.
fn slack_entries(alloc: Global, row: &Row, columns: usize, height: usize) -> Result<Mults, Memory>
    requires columns { columns ≤ 4000 }
    requires height { height ≤ 4000 }
    requires within { columns + height ≤ length row.now }
    ensures { IfOk result (λ multipliers. multipliers ≡ entries_of height (λ k. neg_ℤ (at row.now (columns + k)))) }
{
    let mut multipliers = Mults::new(alloc);
    for k in 0..height {
        push_entry(alloc, &mut multipliers, k, row.entry(columns + k))?;
    }
    Ok(multipliers)
}

// Adds minus this number at place k, unless it is 0.
fn push_entry(alloc: Global, multipliers: &mut Mults, k: usize, value: i128) -> Result<(), Memory>
    requires place { k ≤ 4000 }
    requires narrow { IsNarrow value }
    ensures { OnOk result (multipliers.new ≡ multipliers.old ++ (if int_eq (neg_ℤ value) (pos 0) then [] else (k, neg_ℤ value) ∷ [])) }
{
    if value == 0 {
        return Ok(());
    }
    multipliers.push(alloc, (k as u32, -value))
}
