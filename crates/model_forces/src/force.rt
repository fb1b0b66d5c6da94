//! What holds at a path of a model.

ghost use Rattle.std.specs.Prelude.{
  ◌≡◌,
  ◌+◌,
  ◌<◌,
  ◌^◌,
  ◌++◌,
  ◌∷◌,
  [],
  true,
  length,
  OnOk,
  IfOk,
  reverse,
  neg_ℤ,
  slice_index_or,
};
ghost use Rattle.model_tree.specs.Bounds.{are_bounds, is_end_small};
ghost use Rattle.model_tree.specs.Values.{model_tree};
ghost use Rattle.model_tree.specs.View.{
  block_of,
  disjunction_of,
  disjunct_of,
  disjunctions_of,
  disjuncts_of,
  rows_in,
};
ghost use Rattle.lp_rows.specs.Rows.{is_storable, are_storable};
ghost use Rattle.model_forces.specs.Forces.{
  is_nothing as nothing,
  sign_of as sign_by,
  cols_of,
  negated_terms,
  single,
  low_rows,
  high_rows,
  rows_of_vars,
  at_most,
  at_most_rows,
  where_yes,
  rows_below,
  rows_of_disjunctions,
  rows_of_disjuncts,
  path_low,
  path_high,
  rows_of_path,
  goal_of,
  model_force_of,
};
ghost use Rattle.model_forces.specs.Tables.{above, rows_of_ends};

use crate::tables::{Ends, all_ends, tris};
use fractions::Frac;
use gdp_io::Name;
use gdp_tables::Tri;
use lp_frame::{AtMost, AtMostList, Force};
use lp_rows::{Col, ColList, Kind, Rel, Row, Sense, Sign, Terms};
use model_tree::{Block, Bound, Disjunct, Disjunction, Model};
use outcomes::Memory;
use proof_tree::{Half, Path};
use std::alloc::Global;

/// What holds at a path: the variables' bounds, the root's rows, in the order of the text the rows of each disjunct
/// whose indicator is known to be true, and of each variable the tightest low and the tightest high that the path
/// sets; with the goal, which is to be minimised, or without.
pub fn model_force(alloc: Global, model: &Model, path: &Path, goal: bool) -> Result<Force, Memory>
    ensures { IfOk result (λ force. force ≡ model_force_of (model_tree model.now) path.now goal) }
{
    let vars = model.vars();
    let root = model.root();
    let halves = path.halves();
    let count = model.booleans().len() as u32;
    let tris = tris(alloc, halves, count)?;
    let mut rows = AtMostList::new(alloc);
    push_vars(alloc, &mut rows, vars)?;
    push_rows(alloc, &mut rows, root.rows())?;
    push_block(alloc, &mut rows, root, tris.as_slice())?;
    push_bounds(alloc, &mut rows, vars, halves)?;
    let cols = cols(alloc, vars)?;
    let goal = goal_terms(alloc, model, goal)?;
    Ok(Force { cols, rows, goal })
}

// A column for each variable.
fn cols(alloc: Global, vars: &[(Name, Kind, Bound, u32)]) -> Result<ColList, Memory>
    ensures { IfOk result (λ cols. cols ≡ cols_of vars.now) }
{
    let mut cols = ColList::new(alloc);
    'vars: for variable in vars {
        cols.push(
            alloc,
            Col {
                kind: variable.1,
                sign: sign_of(&variable.2.low),
            },
        )?;
    }
    Ok(cols)
}

// The sign of a variable with this low.
fn sign_of(low: &Option<Frac>) -> Sign
    ensures { result ≡ sign_by low.now }
{
    match low {
        None => Sign::Free,
        Some(end) => {
            if is_nothing(end.num()) {
                Sign::Nonneg
            } else {
                Sign::Free
            }
        }
    }
}

fn is_nothing(number: i128) -> bool
    ensures { result ≡ nothing number }
{
    number.unsigned_abs() == 0
}

// Adds the bounds of the variables.
fn push_vars(
    alloc: Global,
    rows: &mut AtMostList,
    vars: &[(Name, Kind, Bound, u32)],
) -> Result<(), Memory>
    requires few { length vars.now < 2 ^ 32 }
    requires bounds { are_bounds vars.now ≡ true }
    ensures { OnOk result (rows.new ≡ rows.old ++ rows_of_vars vars.now 0) }
{
    let mut column: u32 = 0;
    'vars: for variable in vars {
        push_ends(alloc, rows, &variable.2, column)?;
        column = next(column);
    }
    Ok(())
}

fn next(column: u32) -> u32
    ensures { column + 1 < 2 ^ 32 → result ≡ column + 1 }
{
    column.wrapping_add(1)
}

// Adds the bounds of one variable.
fn push_ends(alloc: Global, rows: &mut AtMostList, bound: &Bound, column: u32) -> Result<(), Memory>
    requires low { is_end_small bound.now.low ≡ true }
    requires high { is_end_small bound.now.high ≡ true }
    ensures { OnOk result (rows.new ≡ rows.old ++ (low_rows bound.now.low column ++ high_rows bound.now.high column)) }
{
    push_low_end(alloc, rows, &bound.low, column)?;
    push_high_end(alloc, rows, &bound.high, column)
}

fn push_low_end(
    alloc: Global,
    rows: &mut AtMostList,
    low: &Option<Frac>,
    column: u32,
) -> Result<(), Memory>
    requires { is_end_small low.now ≡ true }
    ensures { OnOk result (rows.new ≡ rows.old ++ low_rows low.now column) }
{
    match low {
        None => Ok(()),
        Some(end) => {
            if is_nothing(end.num()) {
                return Ok(());
            }
            push_single(alloc, rows, (column, minus(end.den())), minus(end.num()))
        }
    }
}

fn push_high_end(
    alloc: Global,
    rows: &mut AtMostList,
    high: &Option<Frac>,
    column: u32,
) -> Result<(), Memory>
    ensures { OnOk result (rows.new ≡ rows.old ++ high_rows high.now column) }
{
    match high {
        None => Ok(()),
        Some(end) => push_single(alloc, rows, (column, end.den()), end.num()),
    }
}

// Adds a row of one term.
fn push_single(
    alloc: Global,
    rows: &mut AtMostList,
    term: (u32, i128),
    bound: i128,
) -> Result<(), Memory>
    ensures { OnOk result (rows.new ≡ rows.old ++ single term.0 term.1 bound ∷ []) }
{
    let mut terms = Terms::new(alloc);
    terms.push(alloc, term)?;
    rows.push(alloc, AtMost { terms, bound })
}

fn minus(number: i128) -> i128
    requires { is_storable number ≡ true }
    ensures { result ≡ neg_ℤ number }
{
    -number
}

// Adds rows as at-most rows.
fn push_rows(alloc: Global, rows: &mut AtMostList, given: &[(Row, u32)]) -> Result<(), Memory>
    ensures { OnOk result (rows.new ≡ rows.old ++ at_most_rows given.now) }
{
    'given: for row in given {
        push_row(alloc, rows, &row.0)?;
    }
    Ok(())
}

// Adds a row as at-most rows.
fn push_row(alloc: Global, rows: &mut AtMostList, row: &Row) -> Result<(), Memory>
    ensures { OnOk result (rows.new ≡ rows.old ++ at_most row.now.rel row.now.terms row.now.right) }
{
    match row.rel() {
        Rel::AtMost => push_plain(alloc, rows, row),
        Rel::AtLeast => push_turned(alloc, rows, row),
        Rel::Equal => {
            push_plain(alloc, rows, row)?;
            push_turned(alloc, rows, row)
        }
    }
}

fn push_plain(alloc: Global, rows: &mut AtMostList, row: &Row) -> Result<(), Memory>
    ensures { OnOk result (rows.new ≡ rows.old ++ record { terms = row.now.terms; bound = row.now.right } ∷ []) }
{
    let terms = Terms::from_slice(alloc, row.terms())?;
    let bound = row.right();
    rows.push(alloc, AtMost { terms, bound })
}

#[tactic(auto, using(crate::proofs::Storing::terms_storable, crate::proofs::Storing::right_storable))]
fn push_turned(alloc: Global, rows: &mut AtMostList, row: &Row) -> Result<(), Memory>
    ensures { OnOk result (rows.new ≡ rows.old ++ record { terms = negated_terms row.now.terms; bound = neg_ℤ row.now.right } ∷ []) }
{
    let terms = negated(alloc, row.terms())?;
    let bound = minus(row.right());
    rows.push(alloc, AtMost { terms, bound })
}

fn negated(alloc: Global, given: &[(u32, i128)]) -> Result<Terms, Memory>
    requires { are_storable given.now ≡ true }
    ensures { IfOk result (λ terms. terms ≡ negated_terms given.now) }
{
    let mut terms = Terms::new(alloc);
    'given: for term in given {
        terms.push(alloc, (term.0, minus(term.1)))?;
    }
    Ok(terms)
}

// The goal to be minimised, or none.
fn goal_terms(alloc: Global, model: &Model, goal: bool) -> Result<Terms, Memory>
    ensures { IfOk result (λ terms. terms ≡ goal_of model.now.goal goal) }
{
    let _ = model.vars();
    if !goal {
        return Ok(Terms::new(alloc));
    }
    match model.sense() {
        Sense::Min => Terms::from_slice(alloc, model.terms()),
        Sense::Max => negated(alloc, model.terms()),
    }
}

// Adds the rows of each disjunct below that is known to be true.
#[cycle(force)]
fn push_block(
    alloc: Global,
    rows: &mut AtMostList,
    block: &Block,
    tris: &[Tri],
) -> Result<(), Memory>
    ensures { OnOk result (rows.new ≡ rows.old ++ rows_below (block_of block.now) (λ k. slice_index_or tris.now k Tri.No)) }
{
    push_disjunctions(alloc, rows, block.disjunctions(), tris)
}

#[cycle(force)]
fn push_disjunctions(
    alloc: Global,
    rows: &mut AtMostList,
    disjunctions: &[Disjunction],
    tris: &[Tri],
) -> Result<(), Memory>
    ensures { OnOk result (rows.new ≡ rows.old ++ rows_of_disjunctions (disjunctions_of disjunctions.now) (λ k. slice_index_or tris.now k Tri.No)) }
{
    for disjunction in disjunctions {
        push_disjunction(alloc, rows, disjunction, tris)?;
    }
    Ok(())
}

#[cycle(force)]
fn push_disjunction(
    alloc: Global,
    rows: &mut AtMostList,
    disjunction: &Disjunction,
    tris: &[Tri],
) -> Result<(), Memory>
    ensures { OnOk result (rows.new ≡ rows.old ++ rows_of_disjuncts (disjunction_of disjunction.now).1 (λ k. slice_index_or tris.now k Tri.No)) }
{
    push_disjuncts(alloc, rows, disjunction.disjuncts(), tris)
}

#[cycle(force)]
fn push_disjuncts(
    alloc: Global,
    rows: &mut AtMostList,
    disjuncts: &[Disjunct],
    tris: &[Tri],
) -> Result<(), Memory>
    ensures { OnOk result (rows.new ≡ rows.old ++ rows_of_disjuncts (disjuncts_of disjuncts.now) (λ k. slice_index_or tris.now k Tri.No)) }
{
    for disjunct in disjuncts {
        push_disjunct(alloc, rows, disjunct, tris)?;
    }
    Ok(())
}

#[cycle(force)]
fn push_disjunct(
    alloc: Global,
    rows: &mut AtMostList,
    disjunct: &Disjunct,
    tris: &[Tri],
) -> Result<(), Memory>
    ensures { OnOk result (rows.new ≡ rows.old
        ++ (where_yes (slice_index_or tris.now (disjunct_of disjunct.now).0.indicator Tri.No) (at_most_rows (rows_in (disjunct_of disjunct.now).1))
        ++ rows_below (disjunct_of disjunct.now).1 (λ k. slice_index_or tris.now k Tri.No))) }
{
    push_known(
        alloc,
        rows,
        disjunct.block(),
        tri_of(tris, disjunct.indicator()),
    )?;
    push_block(alloc, rows, disjunct.block(), tris)
}

// What is known of the Boolean of this number.
fn tri_of(tris: &[Tri], number: u32) -> Tri
    ensures { result ≡ slice_index_or tris.now number Tri.No }
{
    match tris.get(number as usize) {
        Some(tri) => *tri,
        None => Tri::No,
    }
}

// Adds a block's own rows where its indicator is known to be true.
fn push_known(alloc: Global, rows: &mut AtMostList, block: &Block, tri: Tri) -> Result<(), Memory>
    ensures { OnOk result (rows.new ≡ rows.old ++ where_yes tri (at_most_rows (rows_in (block_of block.now)))) }
{
    match tri {
        Tri::No => Ok(()),
        Tri::Open => Ok(()),
        Tri::Yes => push_rows(alloc, rows, block.rows()),
    }
}

// Adds the bounds that the path sets.
#[tactic(auto, using(crate::proofs::Tabled::rows_of_table))]
fn push_bounds(
    alloc: Global,
    rows: &mut AtMostList,
    vars: &[(Name, Kind, Bound, u32)],
    halves: &[Half],
) -> Result<(), Memory>
    requires { length vars.now < 2 ^ 32 }
    ensures { OnOk result (rows.new ≡ rows.old ++ rows_of_path vars.now 0 (reverse halves.now)) }
{
    let ends = all_ends(alloc, halves, vars.len() as u32)?;
    push_all_ends(alloc, rows, ends.as_slice())
}

fn push_all_ends(alloc: Global, rows: &mut AtMostList, ends: &[Ends]) -> Result<(), Memory>
    requires { length ends.now < 2 ^ 32 }
    ensures { OnOk result (rows.new ≡ rows.old ++ rows_of_ends ends.now 0) }
{
    let mut column: u32 = 0;
    'ends: for end in ends {
        push_set(alloc, rows, column, *end)?;
        column = next(column);
    }
    Ok(())
}

// Adds the bounds of one variable that the path sets.
fn push_set(alloc: Global, rows: &mut AtMostList, column: u32, ends: Ends) -> Result<(), Memory>
    ensures { OnOk result (rows.new ≡ rows.old ++ (path_low (above ends.under) column ++ path_high ends.high column)) }
{
    push_low(alloc, rows, column, ends.under)?;
    push_high(alloc, rows, column, ends.high)
}

// Adds a low that is one more than this: its row's bound keeps within 128 bits.
fn push_low(
    alloc: Global,
    rows: &mut AtMostList,
    column: u32,
    under: Option<i128>,
) -> Result<(), Memory>
    ensures { OnOk result (rows.new ≡ rows.old ++ path_low (above under) column) }
{
    match under {
        None => Ok(()),
        Some(at) => push_single(alloc, rows, (column, -1), -1 - at),
    }
}

fn push_high(
    alloc: Global,
    rows: &mut AtMostList,
    column: u32,
    high: Option<i128>,
) -> Result<(), Memory>
    ensures { OnOk result (rows.new ≡ rows.old ++ path_high high column) }
{
    match high {
        None => Ok(()),
        Some(at) => push_single(alloc, rows, (column, 1), at),
    }
}
