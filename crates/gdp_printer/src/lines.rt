//! The lines of a model's parts. Each ends with a newline.

ghost use Rattle.std.specs.Prelude.{◌≡◌, ◌∷◌, [], ◌++◌, OnOk, None, codes};
ghost use Rattle.lp_rows.specs.Rows.{row_refusal};
ghost use Rattle.model_tree.specs.Values.{model_tree};
ghost use Rattle.gdp_grammar.specs.Canonical.{end_word, kind_word as word_of_kind, rel_word as word_of_rel, sense_word as word_of_sense, mode_word as word_of_mode, name_in, boolean_names, var_line, boolean_line, row_line, goal_line, disjunction_line, disjunct_line};
ghost use Rattle.text_grammar.specs.Printing.{text_of};

use crate::numbers::{put_number, put_word, quotient};
use crate::sums::{put_goal_sum, put_sum};
use fractions::Frac;
use gdp_io::{Name, Text};
use lp_rows::{Kind, Rel, Row, Sense};
use model_tree::{Bound, Mode, Model};
use outcomes::Memory;
use std::alloc::Global;

// A blank and the word of a kind.
fn put_kind(alloc: Global, text: &mut Text, kind: Kind) -> Result<(), Memory>
    ensures { OnOk result (text.new ≡ text.old ++ 32 ∷ word_of_kind kind) }
{
    match kind {
        Kind::Real => put_word(alloc, text, b"real"),
        Kind::Int => put_word(alloc, text, b"int"),
    }
}

// A blank and an end of a bound, or the word that stands for none.
fn put_end(alloc: Global, text: &mut Text, none: &[u8], end: &Option<Frac>) -> Result<(), Memory>
    ensures { OnOk result (text.new ≡ text.old ++ 32 ∷ end_word none.now end.now) }
{
    match end {
        None => put_word(alloc, text, none),
        Some(number) => put_number(alloc, text, number),
    }
}

/// The line of a variable.
pub fn put_var(
    alloc: Global,
    text: &mut Text,
    variable: &(Name, Kind, Bound, u32),
) -> Result<(), Memory>
    ensures { OnOk result (text.new ≡ text.old ++ var_line variable.now ++ 10 ∷ []) }
{
    text.append(alloc, b"var")?;
    put_word(alloc, text, variable.0.as_slice())?;
    put_kind(alloc, text, variable.1)?;
    put_end(alloc, text, b"-inf", &variable.2.low)?;
    put_end(alloc, text, b"inf", &variable.2.high)?;
    text.push(alloc, b'\n')
}

/// The line of a Boolean that is no indicator.
pub fn put_boolean(alloc: Global, text: &mut Text, boolean: &(Name, u32)) -> Result<(), Memory>
    ensures { OnOk result (text.new ≡ text.old ++ boolean_line boolean.now ++ 10 ∷ []) }
{
    text.append(alloc, b"boolean")?;
    put_word(alloc, text, boolean.0.as_slice())?;
    text.push(alloc, b'\n')
}

// A blank and the word of a relation.
fn put_rel(alloc: Global, text: &mut Text, rel: Rel) -> Result<(), Memory>
    ensures { OnOk result (text.new ≡ text.old ++ 32 ∷ word_of_rel rel) }
{
    match rel {
        Rel::AtMost => put_word(alloc, text, b"<="),
        Rel::AtLeast => put_word(alloc, text, b">="),
        Rel::Equal => put_word(alloc, text, b"="),
    }
}

/// The line of a row.
pub fn put_row(
    alloc: Global,
    text: &mut Text,
    model: &Model,
    row: &(Row, u32),
) -> Result<(), Memory>
    ensures text { OnOk result (text.new ≡ text.old ++ row_line (model_tree model.now) row.now ++ 10 ∷ []) }
    ensures stored { OnOk result (row_refusal row.now.0.terms row.now.0.right ≡ None) }
{
    text.append(alloc, b"row")?;
    put_sum(alloc, text, model, row.0.terms(), 1)?;
    put_rel(alloc, text, row.0.rel())?;
    put_number(alloc, text, &quotient(row.0.right(), 1))?;
    text.push(alloc, b'\n')
}

// The word of a sense.
fn put_sense(alloc: Global, text: &mut Text, sense: Sense) -> Result<(), Memory>
    ensures { OnOk result (text.new ≡ text.old ++ word_of_sense sense) }
{
    match sense {
        Sense::Min => text.append(alloc, b"min"),
        Sense::Max => text.append(alloc, b"max"),
    }
}

/// The line of the goal.
pub fn put_goal(alloc: Global, text: &mut Text, model: &Model) -> Result<(), Memory>
    ensures { OnOk result (text.new ≡ text.old ++ goal_line (model_tree model.now) ++ 10 ∷ []) }
{
    put_sense(alloc, text, model.sense())?;
    put_goal_sum(alloc, text, model)?;
    text.push(alloc, b'\n')
}

// A blank and the word of a mode.
fn put_mode(alloc: Global, text: &mut Text, mode: Mode) -> Result<(), Memory>
    ensures { OnOk result (text.new ≡ text.old ++ 32 ∷ word_of_mode mode) }
{
    match mode {
        Mode::Xor => put_word(alloc, text, b"xor"),
        Mode::Or => put_word(alloc, text, b"or"),
    }
}

/// The line that opens a disjunction.
pub fn put_disjunction_line(alloc: Global, text: &mut Text, mode: Mode) -> Result<(), Memory>
    ensures { OnOk result (text.new ≡ text.old ++ disjunction_line mode ++ 10 ∷ []) }
{
    text.append(alloc, b"disjunction")?;
    put_mode(alloc, text, mode)?;
    text.push(alloc, b'\n')
}

// A blank and the name of a Boolean.
fn put_boolean_name(alloc: Global, text: &mut Text, model: &Model, id: u32) -> Result<(), Memory>
    ensures { OnOk result (text.new ≡ text.old ++ 32 ∷ name_in (boolean_names (model_tree model.now)) id) }
{
    match model.booleans().get(id as usize) {
        Some(boolean) => put_word(alloc, text, boolean.0.as_slice()),
        None => put_word(alloc, text, b""),
    }
}

/// The line that opens a disjunct.
pub fn put_disjunct_line(
    alloc: Global,
    text: &mut Text,
    model: &Model,
    indicator: u32,
) -> Result<(), Memory>
    ensures { OnOk result (text.new ≡ text.old ++ disjunct_line (model_tree model.now) indicator ++ 10 ∷ []) }
{
    text.append(alloc, b"disjunct")?;
    put_boolean_name(alloc, text, model, indicator)?;
    text.push(alloc, b'\n')
}

/// The line that ends a disjunct or a disjunction.
pub fn put_end_line(alloc: Global, text: &mut Text) -> Result<(), Memory>
    ensures { OnOk result (text.new ≡ text.old ++ codes "end" ++ 10 ∷ []) }
{
    text.append(alloc, b"end")?;
    text.push(alloc, b'\n')
}
