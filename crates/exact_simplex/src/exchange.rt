//! An exchange of rows in place: a pass that tests, then a pass that writes.

ghost use Rattle.std.specs.Prelude.{◌+◌, [], ℕ, slice_index_or, ◌≡◌, ◌≢◌, ◌<◌, pos, true, length, OnOk, OnErr, IfErr, if◌then◌else◌};
ghost use Rattle.int_linear.specs.Sums.{at, matrix};
ghost use Rattle.int_linear.specs.Divisors.{IsPrimitive};
ghost use Rattle.simplex_rows.specs.Dropped.{without};
ghost use Rattle.simplex_rows.specs.Index.{IsIndexOf};
ghost use Rattle.simplex_rows.specs.Matrix.{IsRectangle, IsColumnOf, AreNarrowRows};
ghost use Rattle.simplex_rows.specs.Steps.{IsPivotRow};
ghost use Rattle.simplex_rows.specs.Tableau.{IsExchange};
ghost use Rattle.exact_simplex.specs.Exchange.{IsNarrowExchange, IsWideExchange};
ghost use Rattle.exact_simplex.specs.steps.Ready.{IsReady};
ghost use Rattle.exact_simplex.specs.Table.{kept};

use simplex_rows::{Row, clear_rows, first_wide_entry};
use std::mem;

// The pivot row that a leaving row gives, without the column where it drops out.
fn write_kept_pivot(spare: &mut Row, from: &Row, enter: usize, column: usize, drops: bool)
    requires within { enter < length from.now }
    requires column { column < length from.now }
    requires other { drops ≡ true → enter ≢ column }
    requires same { length spare.old ≡ length from.now }
    requires entry { at from.now enter ≢ pos 0 }
    requires primitive { IsPrimitive (length from.now) (at from.now) }
    ensures pivot { IsPivotRow (length from.now) enter (if drops then without column (at from.now) else at from.now) (at spare.new) }
    ensures len { length spare.new ≡ length spare.old }
{
    if drops {
        spare.write_dropped_pivot(from, enter, column);
        return;
    }
    spare.write_pivot(from, enter);
}

/// Reads the entering column, unless it is the one that is kept.
pub(crate) fn read_unless_kept(
    rows: &[Row],
    enter: usize,
    kept: usize,
    entering: &mut Row,
    index: &[u64],
    words: usize,
)
    requires within { (i : ℕ) → i < length rows.now → enter < length (slice_index_or rows.now i []) }
    requires size { length entering.old ≡ length rows.now }
    requires index { IsIndexOf (enter + 1) (length rows.now) words (matrix rows.now) index.now }
    requires kept { kept ≡ enter → IsColumnOf (length rows.now) enter (matrix rows.now) entering.old }
    ensures column { IsColumnOf (length rows.now) enter (matrix rows.now) entering.new }
{
    if kept == enter {
        return;
    }
    entering.write_column(rows, enter, index, words);
}

/// Makes the entering column basic in this row, or names the row and column of the first number that isn't narrow,
/// and then changes no row. Where the leaving column drops out, it counts as no column. The pivot row is written into
/// the first spare row, and each of the others that has an entry in the entering column, which was read, into the second,
/// with which it changes places.
pub(crate) fn exchange_rows(
    rows: &mut [Row],
    spare: &mut Row,
    written: &mut Row,
    entering: &Row,
    row: usize,
    enter: usize,
    column: usize,
    drops: bool,
) -> Result<(), (usize, usize)>
    requires ready { IsReady (length spare.old) rows.old row enter column drops }
    requires written { length written.old ≡ length spare.old }
    requires entering { IsColumnOf (length rows.old) enter (matrix rows.old) entering.now }
    requires narrow_rows { AreNarrowRows rows.old }
    ensures ok { OnOk result (IsExchange (length spare.old) (length rows.old) (kept drops column (matrix rows.old)) row enter (matrix rows.new)) }
    ensures narrow { OnOk result (IsNarrowExchange (length spare.old) (length rows.old) (kept drops column (matrix rows.old)) enter row) }
    ensures wide { IfErr result (λ place. IsWideExchange (length spare.old) (length rows.old) (kept drops column (matrix rows.old)) enter row place.0 place.1) }
    ensures shape { IsRectangle (length spare.old) rows.new }
    ensures spare { length spare.new ≡ length spare.old }
    ensures written { length written.new ≡ length spare.old }
    ensures narrow_rows { AreNarrowRows rows.new }
    ensures unchanged { OnErr result (rows.new ≡ rows.old) }
{
    write_kept_pivot(spare, &rows[row], enter, column, drops);
    match first_wide_entry(rows, spare, entering, enter, row) {
        None => {}
        Some(place) => return Err(place),
    }
    clear_rows(rows, spare, entering, enter, row, written);
    spare.narrow();
    mem::swap(&mut rows[row], spare);
    Ok(())
}
