//! The text of a whole model.

ghost use Rattle.std.specs.Prelude.{◌≡◌, ◌∷◌, [], ◌++◌, OnOk, IfOk, codes, map};
ghost use Rattle.model_tree.specs.Values.{ModelTree, model_tree};
ghost use Rattle.gdp_grammar.specs.CanonicalLaws.{AreSame};
ghost use Rattle.gdp_grammar.specs.Spelling.{Spells};
ghost use Rattle.gdp_grammar.specs.Canonical.{var_line, boolean_line, free_from, canonical_lines, canonical_text};
ghost use Rattle.text_grammar.specs.Printing.{text_of};

use crate::blocks::put_block;
use crate::indicators::{indicators_of, is_indicator};
use crate::lines::{put_boolean, put_goal, put_var};
use gdp_io::{Name, Text};
use lp_rows::Kind;
use model_tree::{Bound, Model};
use outcomes::Memory;
use std::alloc::Global;

// The lines of variables.
fn put_vars(alloc: Global, text: &mut Text, vars: &[(Name, Kind, Bound, u32)]) -> Result<(), Memory>
    ensures { OnOk result (text.new ≡ text.old ++ text_of (map var_line vars.now)) }
{
    for variable in vars {
        put_var(alloc, text, variable)?;
    }
    Ok(())
}

// The lines of the Booleans that are no indicators.
fn put_booleans(
    alloc: Global,
    text: &mut Text,
    booleans: &[(Name, u32)],
    ids: &[u32],
) -> Result<(), Memory>
    ensures { OnOk result (text.new ≡ text.old ++ text_of (map boolean_line (free_from 0 ids.now booleans.now))) }
{
    for (place, boolean) in booleans.iter().enumerate() {
        if !is_indicator(ids, place) {
            put_boolean(alloc, text, boolean)?;
        }
    }
    Ok(())
}

// The header.
fn put_header(alloc: Global, text: &mut Text) -> Result<(), Memory>
    ensures { OnOk result (text.new ≡ text.old ++ codes "gdp 1" ++ 10 ∷ []) }
{
    text.append(alloc, b"gdp 1")?;
    text.push(alloc, b'\n')
}

// All lines of a model.
#[tactic(auto, using(text_grammar::proofs::PrintingLemmas::text_appended))]
fn put_model(alloc: Global, text: &mut Text, model: &Model) -> Result<(), Memory>
    ensures text { OnOk result (text.new ≡ text.old ++ text_of (canonical_lines (model_tree model.now))) }
    ensures spells { OnOk result ((spelled : ModelTree) × Spells (canonical_text (model_tree model.now)) spelled × AreSame spelled (model_tree model.now)) }
{
    let ids = indicators_of(alloc, model.root())?;
    put_header(alloc, text)?;
    put_vars(alloc, text, model.vars())?;
    put_booleans(alloc, text, model.booleans(), &ids)?;
    put_goal(alloc, text, model)?;
    put_block(alloc, text, model, model.root())
}

/// The canonical text of a model.
///
/// It is exactly what `canonical_text` says: each line with single blanks, and in lowest terms each number. It spells a
/// model that is the same but for its marks, which are the numbers of this text's lines.
#[tactic(auto, unfolding(gdp_grammar::specs::Canonical::canonical_text))]
pub fn model_text(alloc: Global, model: &Model) -> Result<Text, Memory>
    ensures text { IfOk result (λ text. text ≡ canonical_text (model_tree model.now)) }
    ensures spells { IfOk result (λ text. (spelled : ModelTree) × Spells text spelled × AreSame spelled (model_tree model.now)) }
{
    let mut text = Text::new(alloc);
    put_model(alloc, &mut text, model)?;
    Ok(text)
}
