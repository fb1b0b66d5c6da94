//! A row of the tableau.

ghost use Rattle.std.specs.Prelude.{◌+◌, [], vec_capacity, slice_index_or, ◌≡◌, ◌≢◌, ◌≤◌, ◌<◌, ℕ, pos, ◌<ℤ◌, length, slice_set, replicate, MatchOption, IfOk, ◌==◌};
ghost use Rattle.fractions.specs.Width.{IsNarrow};
ghost use Rattle.int_linear.specs.Sums.{at, matrix};
ghost use Rattle.int_linear.specs.Divisors.{IsPrimitive};
ghost use Rattle.simplex_rows.specs.Dropped.{without};
ghost use Rattle.simplex_rows.specs.Sparse.{AreColumnsOf, AreEntriesOf, AreListsOf, IsFirstPassing, NonePasses};
ghost use Rattle.simplex_rows.specs.loops.Merging.{IsGathered};
ghost use Rattle.simplex_rows.specs.Matrix.{IsColumnOf};
ghost use Rattle.simplex_rows.specs.Index.{IsIndexOf};
ghost use Rattle.simplex_rows.specs.Steps.{IsCleared, IsPivotRow, KeepsEntry};
ghost use Rattle.simplex_rows.specs.Width.{IsNarrowRow, IsNarrowStepOf, IsFirstWideStep};

use crate::index::{is_set, next_row};
use crate::lists::{Lists, entry_of, first_entry, first_positive, first_wide};
use crate::slices::{is_small, make_primitive};
use crate::steps::is_negative;
use outcomes::Memory;
use std::alloc::Global;
use std::marker::Model;
use std::mem;

/// A row of narrow numbers, which contracts see as a list. It keeps the columns in which it has an entry other than 0,
/// ascending, and beside them these entries, in room for every column and some more. A mark on it says that all are below 2^62, so
/// that no step of two such rows has to be tested for width.
#[derive(Drop)]
pub struct Row {
    width: usize,
    lists: Lists,
    small: bool,
}

impl Model for Row {
    ghost use Rattle.std.specs.Prelude.{List, ℤ, vec_capacity};
    ghost use Rattle.simplex_rows.specs.Sparse.{entry_in, numbers, IsRow};

    ghost Value = { List ℤ };

    ghost view = { λ r. numbers r.width (entry_in r.lists.columns.items r.lists.entries.items) };

    ghost invariant = { λ r. IsRow r.width (vec_capacity r.lists.columns) (vec_capacity r.lists.entries) r.small r.lists.columns.items r.lists.entries.items };
}

impl Row {
    /// A row of zeros. It takes room for an eighth more columns and eight.
    #[tactic(auto, using(crate::proofs::Sparse::numbers_none))]
    pub fn zeros(alloc: Global, width: usize) -> Result<Row, Memory>
        requires { width < 4294967296 }
        ensures { IfOk result (λ row. row ≡ replicate width (pos 0)) }
    {
        let room = width + width / 8 + 8;
        let columns = Vec::with_capacity(alloc, room)?;
        let entries = Vec::with_capacity(alloc, room)?;
        Ok(Row {
            width,
            lists: Lists { columns, entries },
            small: true,
        })
    }

    /// A row of zeros, in the memory of this row where that has room for every column.
    #[tactic(auto, using(crate::proofs::Sparse::numbers_none))]
    pub fn cleared(self, alloc: Global, width: usize) -> Result<Row, Memory>
        requires { width < 4294967296 }
        ensures { IfOk result (λ row. row ≡ replicate width (pos 0)) }
    {
        let mut lists = self.lists;
        if width <= lists.room() {
            lists.columns.clear();
            lists.entries.clear();
            return Ok(Row {
                width,
                lists,
                small: true,
            });
        }
        Row::zeros(alloc, width)
    }

    /// The columns in which the row has an entry other than 0, ascending.
    pub fn columns(&self) -> &[u32]
        ensures { AreColumnsOf self.now result.now }
    {
        self.lists.columns.as_slice()
    }

    /// The entries other than 0, beside their columns.
    pub fn entries(&self) -> &[i128]
        ensures { AreEntriesOf self.now result.now }
    {
        self.lists.entries.as_slice()
    }

    /// Both lists.
    pub fn lists(&self) -> (&[u32], &[i128])
        ensures { AreListsOf self.now result.0.now result.1.now }
    {
        (self.lists.columns.as_slice(), self.lists.entries.as_slice())
    }

    /// Its numbers are narrow, which callers may want to know.
    #[inline(always)]
    pub fn narrow(&self)
        ensures { IsNarrowRow (at self.now) }
    {
        let _ = &self.width;
    }

    /// How many columns the row has.
    pub fn len(&self) -> usize
        ensures { result ≡ length self.now }
    {
        self.width
    }

    /// Whether the row has no column.
    pub fn is_empty(&self) -> bool
        ensures { result ≡ (length self.now == 0) }
    {
        self.width == 0
    }

    /// The number in this column.
    #[inline]
    pub fn entry(&self, column: usize) -> i128
        requires { column < length self.now }
        ensures value { result ≡ at self.now column }
        ensures narrow { IsNarrow (at self.now column) }
    {
        entry_of(&self.lists.columns, &self.lists.entries, column, self.width)
    }

    /// The first column below `limit` with a positive number.
    pub fn first_positive(&self, limit: usize) -> Option<usize>
        ensures { MatchOption result (NonePasses limit (λ z. pos 0 <ℤ z) (at self.now)) (IsFirstPassing limit (λ z. pos 0 <ℤ z) (at self.now)) }
    {
        first_positive(&self.lists.columns, &self.lists.entries, limit, self.width)
    }

    /// The first column below `limit` with a number other than 0.
    pub fn first_entry(&self, limit: usize) -> Option<usize>
        ensures { MatchOption result (NonePasses limit (λ z. z ≢ pos 0) (at self.now)) (IsFirstPassing limit (λ z. z ≢ pos 0) (at self.now)) }
    {
        first_entry(&self.lists.columns, &self.lists.entries, limit, self.width)
    }

    /// Writes a narrow number into a column.
    pub fn set(&mut self, column: usize, value: i128)
        requires within { column < length self.old }
        requires narrow { IsNarrow value }
        ensures { self.new ≡ slice_set self.old column value }
    {
        self.lists.set(column, value, self.width);
        if value.unsigned_abs() >= 0x4000_0000_0000_0000 {
            self.small = false;
        }
    }

    /// Becomes the pivot row that the leaving row `from` gives: its numbers, in the sign that makes the one in the
    /// entering column positive.
    pub fn write_pivot(&mut self, from: &Row, enter: usize)
        requires within { enter < length from.now }
        requires same { length self.old ≡ length from.now }
        requires entry { at from.now enter ≢ pos 0 }
        requires primitive { IsPrimitive (length from.now) (at from.now) }
        ensures pivot { IsPivotRow (length from.now) enter (at from.now) (at self.new) }
        ensures len { length self.new ≡ length self.old }
    {
        let negate = is_negative(from.entry(enter));
        self.lists
            .copy_signed(&from.lists.columns, &from.lists.entries, negate);
        self.small = from.small;
    }

    /// The same, where the leaving row's own column drops out and counts as 0.
    pub fn write_dropped_pivot(&mut self, from: &Row, enter: usize, column: usize)
        requires within { enter < length from.now }
        requires column { column < length from.now }
        requires other { enter ≢ column }
        requires same { length self.old ≡ length from.now }
        requires entry { at from.now enter ≢ pos 0 }
        ensures pivot { IsPivotRow (length from.now) enter (without column (at from.now)) (at self.new) }
        ensures len { length self.new ≡ length self.old }
    {
        let negate = is_negative(from.entry(enter));
        self.lists
            .copy_signed(&from.lists.columns, &from.lists.entries, negate);
        self.lists.remove(column, self.width);
        make_primitive(&mut self.lists.entries);
        self.small = is_small(&self.lists.entries);
    }

    /// None where the row can be cleared of the entering column with narrow steps, or the first column whose step
    /// isn't narrow.
    pub fn first_wide(&self, pivot: &Row, enter: usize) -> Option<usize>
        requires within { enter < length self.now }
        requires same { length self.now ≡ length pivot.now }
        requires positive { pos 0 <ℤ at pivot.now enter }
        ensures { MatchOption result (IsNarrowStepOf (length self.now) enter (at self.now) (at pivot.now)) (IsFirstWideStep (length self.now) enter (at self.now) (at pivot.now)) }
    {
        if pivot.small {
            if self.small {
                return None;
            }
        }
        first_wide(
            &self.lists.columns,
            &self.lists.entries,
            &pivot.lists.columns,
            &pivot.lists.entries,
            enter,
            self.width,
        )
    }

    /// Clears the row of the entering column by the pivot row, and makes it primitive. The entries of both rows in that
    /// column are known. The new row is written into the spare one, and the two change places.
    pub fn clear(
        &mut self,
        pivot: &Row,
        enter: usize,
        pivot_entry: i128,
        entry: i128,
        spare: &mut Row,
    )
        requires within { enter < length self.old }
        requires same { length self.old ≡ length pivot.now }
        requires positive { pos 0 <ℤ at pivot.now enter }
        requires pivot_entry { pivot_entry ≡ at pivot.now enter }
        requires entry { entry ≡ at self.old enter }
        requires narrow { IsNarrowStepOf (length self.old) enter (at self.old) (at pivot.now) }
        requires kept { KeepsEntry (length self.old) (at self.old) (at pivot.now) }
        requires spare { length spare.old ≡ length self.old }
        ensures cleared { IsCleared (length self.old) enter (at self.old) (at pivot.now) (at self.new) }
        ensures len { length self.new ≡ length self.old }
        ensures narrow { IsNarrowRow (at self.new) }
        ensures spare { length spare.new ≡ length self.old }
    {
        spare.small = spare.lists.clear(
            &self.lists.columns,
            &self.lists.entries,
            &pivot.lists.columns,
            &pivot.lists.entries,
            enter,
            pivot_entry,
            entry,
            self.width,
        );
        mem::swap(self, spare);
    }

    /// Becomes a column of these rows, with a number for each row. Only the rows that the index names are visited.
    pub fn write_column(&mut self, rows: &[Row], column: usize, index: &[u64], words: usize)
        requires within { (i : ℕ) → i < length rows.now → column < length (slice_index_or rows.now i []) }
        requires size { length self.old ≡ length rows.now }
        requires index { IsIndexOf (column + 1) (length rows.now) words (matrix rows.now) index.now }
        ensures { IsColumnOf (length rows.now) column (matrix rows.now) self.new }
    {
        gather(&mut self.lists, rows, column, index, words);
        self.small = false;
    }
}

// The numbers of these rows in a column.
fn gather(lists: &mut Lists, rows: &[Row], column: usize, index: &[u64], words: usize)
    requires within { (i : ℕ) → i < length rows.now → column < length (slice_index_or rows.now i []) }
    requires count { length rows.now < 4294967296 }
    requires index { IsIndexOf (column + 1) (length rows.now) words (matrix rows.now) index.now }
    requires columns { length rows.now ≤ vec_capacity lists.old.columns }
    requires entries { length rows.now ≤ vec_capacity lists.old.entries }
    ensures gathered { IsGathered (length rows.now) (λ i. matrix rows.now i column) lists.new.columns.items lists.new.entries.items }
    ensures narrow { IsNarrowRow (at lists.new.entries.items) }
    ensures columns { vec_capacity lists.new.columns ≡ vec_capacity lists.old.columns }
    ensures entries { vec_capacity lists.new.entries ≡ vec_capacity lists.old.entries }
{
    lists.columns.clear();
    lists.entries.clear();
    let mut i = 0;
    while i < rows.len() {
        if is_set(index, words, column, i) {
            lists.put(i, rows[i].entry(column));
            i += 1;
        } else {
            i = next_row(index, words, column, i, rows.len());
        }
    }
}
