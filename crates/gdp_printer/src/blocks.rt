//! The lines of a block and of what is below it.

ghost use Rattle.std.specs.Prelude.{◌≡◌, ◌∷◌, [], ◌++◌, OnOk, true, codes, map};
ghost use Rattle.model_tree.specs.Values.{model_tree};
ghost use Rattle.model_tree.specs.View.{
  block_of,
  disjunct_of,
  disjunction_of,
  disjuncts_of,
  disjunctions_of,
  props_of,
};
ghost use Rattle.model_tree.specs.Sound.{
  are_rows_stored,
  is_stored,
  are_disjunctions_stored,
  are_disjuncts_stored,
};
ghost use Rattle.gdp_grammar.specs.Canonical.{row_line, logic_line, block_lines, disjunctions_lines, disjuncts_lines, lines_of_disjunction, lines_of_disjunct};
ghost use Rattle.text_grammar.specs.Printing.{text_of};

use crate::lines::{put_disjunct_line, put_disjunction_line, put_end_line, put_row};
use crate::props::put_prop_line;
use gdp_io::Text;
use lp_rows::Row;
use model_tree::{Block, Disjunct, Disjunction, Model};
use outcomes::Memory;
use propositions::Prop;
use std::alloc::Global;

// The rows of a block.
fn put_rows(
    alloc: Global,
    text: &mut Text,
    model: &Model,
    rows: &[(Row, u32)],
) -> Result<(), Memory>
    ensures text { OnOk result (text.new ≡ text.old ++ text_of (map (row_line (model_tree model.now)) rows.now)) }
    ensures stored { OnOk result (are_rows_stored rows.now ≡ true) }
{
    for row in rows {
        put_row(alloc, text, model, row)?;
    }
    Ok(())
}

// The propositions of a block.
fn put_props(
    alloc: Global,
    text: &mut Text,
    model: &Model,
    props: &[(Prop, u32)],
) -> Result<(), Memory>
    ensures { OnOk result (text.new ≡ text.old ++ text_of (map (logic_line (model_tree model.now)) (props_of props.now))) }
{
    for prop in props {
        put_prop_line(alloc, text, model, prop)?;
    }
    Ok(())
}

/// A block: its rows, then its disjunctions, and then its propositions.
#[cycle(put)]
#[tactic(auto, using(text_grammar::proofs::PrintingLemmas::text_appended))]
pub fn put_block(alloc: Global, text: &mut Text, model: &Model, block: &Block) -> Result<(), Memory>
    ensures text { OnOk result (text.new ≡ text.old ++ text_of (block_lines (model_tree model.now) (block_of block.now))) }
    ensures stored { OnOk result (is_stored (block_of block.now) ≡ true) }
{
    put_rows(alloc, text, model, block.rows())?;
    put_disjunctions(alloc, text, model, block.disjunctions())?;
    put_props(alloc, text, model, block.props())
}

#[cycle(put)]
fn put_disjunctions(
    alloc: Global,
    text: &mut Text,
    model: &Model,
    disjunctions: &[Disjunction],
) -> Result<(), Memory>
    ensures text { OnOk result (text.new
        ≡ text.old ++ text_of (disjunctions_lines (model_tree model.now) (disjunctions_of disjunctions.now))) }
    ensures stored { OnOk result (are_disjunctions_stored (disjunctions_of disjunctions.now) ≡ true) }
{
    for disjunction in disjunctions {
        put_disjunction(alloc, text, model, disjunction)?;
    }
    Ok(())
}

#[cycle(put)]
fn put_disjunction(
    alloc: Global,
    text: &mut Text,
    model: &Model,
    disjunction: &Disjunction,
) -> Result<(), Memory>
    ensures text { OnOk result (text.new
        ≡ text.old ++ text_of (lines_of_disjunction (model_tree model.now) (disjunction_of disjunction.now))) }
    ensures stored { OnOk result (are_disjuncts_stored (disjunction_of disjunction.now).1 ≡ true) }
{
    put_disjunction_line(alloc, text, disjunction.mode())?;
    put_disjuncts(alloc, text, model, disjunction.disjuncts())?;
    put_end_line(alloc, text)
}

#[cycle(put)]
fn put_disjuncts(
    alloc: Global,
    text: &mut Text,
    model: &Model,
    disjuncts: &[Disjunct],
) -> Result<(), Memory>
    ensures text { OnOk result (text.new
        ≡ text.old ++ text_of (disjuncts_lines (model_tree model.now) (disjuncts_of disjuncts.now))) }
    ensures stored { OnOk result (are_disjuncts_stored (disjuncts_of disjuncts.now) ≡ true) }
{
    for disjunct in disjuncts {
        put_disjunct(alloc, text, model, disjunct)?;
    }
    Ok(())
}

#[cycle(put)]
fn put_disjunct(
    alloc: Global,
    text: &mut Text,
    model: &Model,
    disjunct: &Disjunct,
) -> Result<(), Memory>
    ensures text { OnOk result (text.new
        ≡ text.old ++ text_of (lines_of_disjunct (model_tree model.now) (disjunct_of disjunct.now))) }
    ensures stored { OnOk result (is_stored (disjunct_of disjunct.now).1 ≡ true) }
{
    put_disjunct_line(alloc, text, model, disjunct.indicator())?;
    put_block(alloc, text, model, disjunct.block())?;
    put_end_line(alloc, text)
}
