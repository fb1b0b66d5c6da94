//! The lines of a program.

ghost use Rattle.std.specs.Prelude.{◌≡◌, [], ◌∷◌, ◌++◌, suc, OnOk, OnErr, IfOk, codes, length, true, ◌≤◌};
ghost use Rattle.int_linear.specs.Terms.{coefficients};
ghost use Rattle.lp_rows.specs.Rows.{ascends_from};
ghost use Rattle.text_grammar.specs.Printing.{text_of};
ghost use Rattle.gdp_io.specs.Sink.{grown};
ghost use Rattle.text_printer.specs.Outputs.{IsCutShort};
ghost use Rattle.lp_grammar.specs.Canonical.{
  sense_word,
  rel_word as word_of_rel,
  term_line,
  goal_lines,
  term_lines,
  some_terms,
  label_line,
  right_line,
  row_before,
  row_lines,
  free_line,
  free_lines,
  integer_line,
  integer_lines,
  section_lines,
  is_some_line,
  objective_lines,
  canonical_lines,
  lp_text_of,
};
ghost use Rattle.lp_grammar.specs.Canonical.{row_name as name_of_row, col_name as name_of_col};
ghost use Rattle.lp_grammar.specs.Programs.{most_cols, IsMilp};
ghost use Rattle.lp_grammar.specs.Laws.{written_program};
ghost use Rattle.lp_grammar.specs.Spelling.{LpSpells};
ghost use Rattle.lp_writer.specs.Behind.{IsBehind};

use gdp_io::Text;
use lp_rows::{Col, Kind, Rel, Row, Sense, Sign};
use milps::Milp;
use outcomes::Memory;
use std::alloc::Global;
use text_printer::{Output, end_line, put_natural, put_numbered, put_sign, put_whole, put_word};

// The word that opens the objective.
fn put_sense<O: Output>(alloc: Global, out: &mut O, sense: Sense) -> Result<(), O::Stop>
    ensures whole { OnOk result (O.written out.new ≡ grown (O.written out.old) (sense_word sense)) }
    ensures part { OnErr result (IsCutShort (O.written out.old) (O.written out.new) (sense_word sense)) }
{
    match sense {
        Sense::Min => out.put(alloc, b"Minimize"),
        Sense::Max => out.put(alloc, b"Maximize"),
    }
}

// The line of a term.
fn put_term<O: Output>(
    alloc: Global,
    out: &mut O,
    column: usize,
    coefficient: i128,
) -> Result<(), O::Stop>
    ensures whole { OnOk result (O.written out.new ≡ grown (O.written out.old) (term_line column coefficient ++ 10 ∷ [])) }
    ensures part { OnErr result (IsCutShort (O.written out.old) (O.written out.new) (term_line column coefficient ++ 10 ∷ [])) }
{
    put_sign(alloc, out, coefficient)?;
    put_natural(alloc, out, coefficient.unsigned_abs())?;
    put_numbered(alloc, out, b'x', column as u128)?;
    end_line(alloc, out)
}

// The line of a row's name.
fn put_label<O: Output>(alloc: Global, out: &mut O, row: usize) -> Result<(), O::Stop>
    ensures whole { OnOk result (O.written out.new ≡ grown (O.written out.old) (label_line (name_of_row row) ++ 10 ∷ [])) }
    ensures part { OnErr result (IsCutShort (O.written out.old) (O.written out.new) (label_line (name_of_row row) ++ 10 ∷ [])) }
{
    put_numbered(alloc, out, b'r', row as u128)?;
    out.put(alloc, b":")?;
    end_line(alloc, out)
}

// A blank and the word of a relation.
fn put_rel<O: Output>(alloc: Global, out: &mut O, rel: Rel) -> Result<(), O::Stop>
    ensures whole { OnOk result (O.written out.new ≡ grown (O.written out.old) (32 ∷ word_of_rel rel)) }
    ensures part { OnErr result (IsCutShort (O.written out.old) (O.written out.new) (32 ∷ word_of_rel rel)) }
{
    match rel {
        Rel::AtMost => put_word(alloc, out, b"<="),
        Rel::AtLeast => put_word(alloc, out, b">="),
        Rel::Equal => put_word(alloc, out, b"="),
    }
}

// The line of a row's relation and right side.
fn put_right<O: Output>(alloc: Global, out: &mut O, rel: Rel, right: i128) -> Result<(), O::Stop>
    ensures whole { OnOk result (O.written out.new ≡ grown (O.written out.old) (right_line rel right ++ 10 ∷ [])) }
    ensures part { OnErr result (IsCutShort (O.written out.old) (O.written out.new) (right_line rel right ++ 10 ∷ [])) }
{
    put_rel(alloc, out, rel)?;
    put_whole(alloc, out, right)?;
    end_line(alloc, out)
}

// The line of a free column.
fn put_free<O: Output>(alloc: Global, out: &mut O, column: usize) -> Result<(), O::Stop>
    ensures whole { OnOk result (O.written out.new ≡ grown (O.written out.old) (free_line column ++ 10 ∷ [])) }
    ensures part { OnErr result (IsCutShort (O.written out.old) (O.written out.new) (free_line column ++ 10 ∷ [])) }
{
    put_numbered(alloc, out, b'x', column as u128)?;
    put_word(alloc, out, b"free")?;
    end_line(alloc, out)
}

// The line of an integer column.
fn put_integer<O: Output>(alloc: Global, out: &mut O, column: usize) -> Result<(), O::Stop>
    ensures whole { OnOk result (O.written out.new ≡ grown (O.written out.old) (integer_line column ++ 10 ∷ [])) }
    ensures part { OnErr result (IsCutShort (O.written out.old) (O.written out.new) (integer_line column ++ 10 ∷ [])) }
{
    put_numbered(alloc, out, b'x', column as u128)?;
    end_line(alloc, out)
}

// A line for each term.
fn put_terms<O: Output>(alloc: Global, out: &mut O, terms: &[(u32, i128)]) -> Result<(), O::Stop>
    ensures whole { OnOk result (O.written out.new ≡ grown (O.written out.old) (text_of (term_lines terms.now))) }
    ensures part { OnErr result (IsCutShort (O.written out.old) (O.written out.new) (text_of (term_lines terms.now))) }
{
    for term in terms {
        put_term(alloc, out, term.0 as usize, term.1)?;
    }
    Ok(())
}

// A line for each term, and one with 0 where there is none.
fn put_some_terms<O: Output>(
    alloc: Global,
    out: &mut O,
    terms: &[(u32, i128)],
) -> Result<(), O::Stop>
    ensures whole { OnOk result (O.written out.new ≡ grown (O.written out.old) (text_of (term_lines (some_terms terms.now)))) }
    ensures part { OnErr result (IsCutShort (O.written out.old) (O.written out.new) (text_of (term_lines (some_terms terms.now)))) }
{
    if terms.is_empty() {
        return put_term(alloc, out, 0, 0);
    }
    put_terms(alloc, out, terms)
}

// The lines of a row.
#[tactic(auto, using(crate::proofs::Texts::row_parts))]
fn put_row<O: Output>(alloc: Global, out: &mut O, place: usize, row: &Row) -> Result<(), O::Stop>
    ensures whole { OnOk result (O.written out.new ≡ grown (O.written out.old) (text_of (row_before place row.now []))) }
    ensures part { OnErr result (IsCutShort (O.written out.old) (O.written out.new) (text_of (row_before place row.now []))) }
{
    put_label(alloc, out, place)?;
    put_some_terms(alloc, out, row.terms())?;
    put_right(alloc, out, row.rel(), row.right())
}

// The coefficient of a column in the goal, and the terms behind it.
fn coefficient_of(goal: &[(u32, i128)], column: usize) -> (i128, &[(u32, i128)])
    requires { ascends_from column goal.now ≡ true }
    ensures value { result.0 ≡ coefficients goal.now column }
    ensures rest { IsBehind column goal.now result.1.now }
{
    if goal.is_empty() || goal[0].0 as usize != column {
        return (0, goal);
    }
    (goal[0].1, &goal[1..])
}

// A line for each column with its coefficient in the goal.
fn put_goal<O: Output>(
    alloc: Global,
    out: &mut O,
    cols: &[Col],
    goal: &[(u32, i128)],
) -> Result<(), O::Stop>
    requires few { length cols.now ≤ most_cols }
    requires ascend { ascends_from 0 goal.now ≡ true }
    ensures whole { OnOk result (O.written out.new ≡ grown (O.written out.old) (text_of (goal_lines 0 cols.now goal.now))) }
    ensures part { OnErr result (IsCutShort (O.written out.old) (O.written out.new) (text_of (goal_lines 0 cols.now goal.now))) }
{
    let mut rest = goal;
    for (column, _) in cols.iter().enumerate() {
        let (coefficient, others) = coefficient_of(rest, column);
        put_term(alloc, out, column, coefficient)?;
        rest = others;
    }
    Ok(())
}

// The lines of rows.
#[tactic(auto, using(crate::proofs::Texts::row_text))]
fn put_rows<O: Output>(alloc: Global, out: &mut O, rows: &[Row]) -> Result<(), O::Stop>
    ensures whole { OnOk result (O.written out.new ≡ grown (O.written out.old) (text_of (row_lines 0 rows.now))) }
    ensures part { OnErr result (IsCutShort (O.written out.old) (O.written out.new) (text_of (row_lines 0 rows.now))) }
{
    for (place, row) in rows.iter().enumerate() {
        put_row(alloc, out, place, row)?;
    }
    Ok(())
}

// Whether a column is free.
fn has_free(cols: &[Col]) -> bool
    ensures { result ≡ is_some_line (free_lines 0 cols.now) }
{
    for col in cols {
        if col.sign == Sign::Free {
            return true;
        }
    }
    false
}

// A line for each free column.
fn put_frees<O: Output>(alloc: Global, out: &mut O, cols: &[Col]) -> Result<(), O::Stop>
    ensures whole { OnOk result (O.written out.new ≡ grown (O.written out.old) (text_of (free_lines 0 cols.now))) }
    ensures part { OnErr result (IsCutShort (O.written out.old) (O.written out.new) (text_of (free_lines 0 cols.now))) }
{
    for (place, col) in cols.iter().enumerate() {
        if col.sign == Sign::Free {
            put_free(alloc, out, place)?;
        }
    }
    Ok(())
}

// Whether a column is integer.
fn has_integer(cols: &[Col]) -> bool
    ensures { result ≡ is_some_line (integer_lines 0 cols.now) }
{
    for col in cols {
        if col.kind == Kind::Int {
            return true;
        }
    }
    false
}

// A line for each integer column.
fn put_integers<O: Output>(alloc: Global, out: &mut O, cols: &[Col]) -> Result<(), O::Stop>
    ensures whole { OnOk result (O.written out.new ≡ grown (O.written out.old) (text_of (integer_lines 0 cols.now))) }
    ensures part { OnErr result (IsCutShort (O.written out.old) (O.written out.new) (text_of (integer_lines 0 cols.now))) }
{
    for (place, col) in cols.iter().enumerate() {
        match col.kind {
            Kind::Real => {}
            Kind::Int => put_integer(alloc, out, place)?,
        }
    }
    Ok(())
}

// The section of the free columns, if there is one.
fn put_bounds<O: Output>(alloc: Global, out: &mut O, cols: &[Col]) -> Result<(), O::Stop>
    ensures whole { OnOk result (O.written out.new ≡ grown (O.written out.old) (text_of (section_lines (codes "Bounds") (free_lines 0 cols.now)))) }
    ensures part { OnErr result (IsCutShort (O.written out.old) (O.written out.new) (text_of (section_lines (codes "Bounds") (free_lines 0 cols.now)))) }
{
    if !has_free(cols) {
        return Ok(());
    }
    out.put(alloc, b"Bounds\n")?;
    put_frees(alloc, out, cols)
}

// The section of the integer columns, if there is one.
fn put_generals<O: Output>(alloc: Global, out: &mut O, cols: &[Col]) -> Result<(), O::Stop>
    ensures whole { OnOk result (O.written out.new ≡ grown (O.written out.old) (text_of (section_lines (codes "Generals") (integer_lines 0 cols.now)))) }
    ensures part { OnErr result (IsCutShort (O.written out.old) (O.written out.new) (text_of (section_lines (codes "Generals") (integer_lines 0 cols.now)))) }
{
    if !has_integer(cols) {
        return Ok(());
    }
    out.put(alloc, b"Generals\n")?;
    put_integers(alloc, out, cols)
}

// The objective.
#[tactic(auto, using(crate::proofs::Texts::few_columns, crate::proofs::Texts::goal_ascends))]
fn put_objective<O: Output>(alloc: Global, out: &mut O, milp: &Milp) -> Result<(), O::Stop>
    ensures whole { OnOk result (O.written out.new ≡ grown (O.written out.old) (text_of (objective_lines milp.now))) }
    ensures part { OnErr result (IsCutShort (O.written out.old) (O.written out.new) (text_of (objective_lines milp.now))) }
{
    put_sense(alloc, out, milp.sense())?;
    out.put(alloc, b"\n obj:\n")?;
    put_goal(alloc, out, milp.cols(), milp.goal())
}

// All lines of a program.
#[tactic(auto, using(crate::proofs::Texts::program_parts))]
fn put_program<O: Output>(alloc: Global, out: &mut O, milp: &Milp) -> Result<(), O::Stop>
    ensures whole { OnOk result (O.written out.new ≡ grown (O.written out.old) (text_of (canonical_lines milp.now))) }
    ensures part { OnErr result (IsCutShort (O.written out.old) (O.written out.new) (text_of (canonical_lines milp.now))) }
{
    put_objective(alloc, out, milp)?;
    out.put(alloc, b"Subject To\n")?;
    put_rows(alloc, out, milp.rows())?;
    put_bounds(alloc, out, milp.cols())?;
    put_generals(alloc, out, milp.cols())?;
    out.put(alloc, b"End\n")
}

/// Appends the text of a program.
#[tactic(auto, unfolding(lp_grammar::specs::Canonical::lp_text_of))]
pub fn put_milp<O: Output>(alloc: Global, out: &mut O, milp: &Milp) -> Result<(), O::Stop>
    ensures whole { OnOk result (O.written out.new ≡ grown (O.written out.old) (lp_text_of milp.now)) }
    ensures part { OnErr result (IsCutShort (O.written out.old) (O.written out.new) (lp_text_of milp.now)) }
{
    put_program(alloc, out, milp)
}

/// The text of a program. It spells the program with constant 0 and scale 1, where there is a column and no term is 0.
#[tactic(auto, unfolding(lp_grammar::specs::Canonical::lp_text_of))]
pub fn lp_text(alloc: Global, milp: &Milp) -> Result<Text, Memory>
    ensures text { IfOk result (λ text. text ≡ lp_text_of milp.now) }
    ensures spells { IsMilp milp.now → IfOk result (λ text. LpSpells text (written_program milp.now)) }
{
    let mut text = Text::new(alloc);
    put_program(alloc, &mut text, milp)?;
    Ok(text)
}
