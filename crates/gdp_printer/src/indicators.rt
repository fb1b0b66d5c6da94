//! Which Booleans are indicators.

ghost use Rattle.std.specs.Prelude.{◌≡◌, ◌∷◌, ◌++◌, ◌==◌, OnOk, IfOk, map};
ghost use Rattle.std.specs.List.{list_any};
ghost use Rattle.model_tree.specs.Tree.{below, below_disjunctions, below_disjuncts};
ghost use Rattle.model_tree.specs.View.{block_of, disjunct_of, disjunctions_of, disjuncts_of};
ghost use Rattle.gdp_grammar.specs.Canonical.{indicators, numbers_of};

use model_tree::{Block, Disjunct, Disjunction};
use outcomes::Memory;
use std::alloc::Global;

/// The numbers of the Booleans that are indicators of disjuncts in a block and below it, in order.
pub fn indicators_of(alloc: Global, block: &Block) -> Result<Vec<u32>, Memory>
    ensures { IfOk result (λ ids. ids.items ≡ indicators (block_of block.now)) }
{
    let mut ids = Vec::new(alloc);
    add_below(&mut ids, block)?;
    Ok(ids)
}

#[cycle(add)]
fn add_below(ids: &mut Vec<u32>, block: &Block) -> Result<(), Memory>
    ensures { OnOk result (ids.new.items ≡ ids.old.items ++ numbers_of (below (block_of block.now))) }
{
    add_disjunctions(ids, block.disjunctions())
}

#[cycle(add)]
fn add_disjunctions(ids: &mut Vec<u32>, disjunctions: &[Disjunction]) -> Result<(), Memory>
    ensures { OnOk result (ids.new.items
        ≡ ids.old.items ++ numbers_of (below_disjunctions (disjunctions_of disjunctions.now))) }
{
    for disjunction in disjunctions {
        add_disjuncts(ids, disjunction.disjuncts())?;
    }
    Ok(())
}

#[cycle(add)]
fn add_disjuncts(ids: &mut Vec<u32>, disjuncts: &[Disjunct]) -> Result<(), Memory>
    ensures { OnOk result (ids.new.items
        ≡ ids.old.items ++ numbers_of (below_disjuncts (disjuncts_of disjuncts.now))) }
{
    for disjunct in disjuncts {
        add_disjunct(ids, disjunct)?;
    }
    Ok(())
}

#[cycle(add)]
fn add_disjunct(ids: &mut Vec<u32>, disjunct: &Disjunct) -> Result<(), Memory>
    ensures { OnOk result (ids.new.items
        ≡ ids.old.items ++ numbers_of ((disjunct_of disjunct.now).0 ∷ below (disjunct_of disjunct.now).1)) }
{
    ids.push(disjunct.indicator())?;
    add_below(ids, disjunct.block())
}

/// Whether this number is among those of indicators.
pub fn is_indicator(ids: &[u32], id: usize) -> bool
    ensures { result ≡ list_any (λ i. i == id) ids.now }
{
    ids.iter().any(|other| *other as usize == id)
}
