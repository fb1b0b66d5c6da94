//! The first false item, by one walk.
//!
//! What is known of each Boolean is read off the path once; then each item is looked at once, a proposition only where its
//! block is taken, and a disjunction's indicators once for its selection or for its block.

ghost use Rattle.std.specs.Prelude.{
  ◌≡◌,
  ◌<◌,
  ◌+◌,
  ◌^◌,
  ◌∷◌,
  true,
  length,
  map,
  reverse,
  None,
  Some,
  IfOk,
  slice_index_or,
};
ghost use Rattle.std.specs.List.{position};
ghost use Rattle.gdp_tables.specs.declared.tri.Tri.TheVariants.{No};
ghost use Rattle.model_tree.specs.Earlier.{name_only_first};
ghost use Rattle.model_tree.specs.Values.{model_tree};
ghost use Rattle.model_tree.specs.View.{
  block_of,
  disjunct_of,
  disjunction_of,
  disjunctions_in,
  disjunctions_of,
  disjuncts_of,
  props_in,
  props_of,
};
ghost use Rattle.model_items.specs.Items.{
  enforced,
  choice,
  conditions,
  conditions_in,
  conditions_of_disjunctions,
  conditions_of_disjuncts,
};
ghost use Rattle.model_items.specs.steps.Picking.{
  is_block_below,
  are_disjunctions_below,
  are_disjuncts_below,
};
ghost use Rattle.model_reading.specs.Reading.{is_false, first_false};
ghost use Rattle.model_reading.specs.Passing.{passed};

use crate::falsity::{is_choice_false, is_enforced_false};
use gdp_tables::Tri;
use model_forces::tris;
use model_tree::{Block, Disjunct, Disjunction, Model};
use outcomes::Memory;
use proof_tree::Half;
use propositions::Prop;
use std::alloc::Global;

/// The number of the first item whose condition is read as false, where the halves from the root on have been taken.
pub fn false_item(alloc: Global, model: &Model, halves: &[Half]) -> Result<Option<u32>, Memory>
    ensures { IfOk result (λ item. item ≡ first_false (model_tree model.now) (reverse halves.now)) }
{
    let _ = model.vars();
    let count = model.booleans().len() as u32;
    let tris = tris(alloc, halves, count)?;
    Ok(first_false_item(model, tris.as_slice()))
}

/// The number of the first item whose condition is read as false, where this is known of the Booleans.
pub fn first_false_item(model: &Model, tris: &[Tri]) -> Option<u32>
    requires { length tris.now ≡ length model.now.booleans }
    ensures { result ≡ position (is_false (λ k. slice_index_or tris.now k No)) (conditions (model_tree model.now)) }
{
    let _ = model.vars();
    match pass_block(model.root(), None, tris, 0) {
        Ok(_) => None,
        Err(item) => Some(item),
    }
}

// Passes the items of a block: the number after them, or that of the first that is false.
#[cycle(items)]
fn pass_block(block: &Block, under: Option<u32>, tris: &[Tri], from: u32) -> Result<u32, u32>
    requires below { is_block_below (length tris.now) (block_of block.now) ≡ true }
    requires few { from + length (conditions_in under (block_of block.now)) < 2 ^ 32 }
    ensures { result ≡ passed (λ k. slice_index_or tris.now k No) (conditions_in under (block_of block.now)) from }
{
    match pass_own(block, under, tris, from) {
        Ok(next) => pass_disjunctions(block.disjunctions(), under, tris, next),
        Err(item) => Err(item),
    }
}

// Passes the conditions of a block's own propositions. There is room for the numbers of the items after them.
fn pass_own(block: &Block, under: Option<u32>, tris: &[Tri], from: u32) -> Result<u32, u32>
    requires below { is_block_below (length tris.now) (block_of block.now) ≡ true }
    requires few { from + length (conditions_in under (block_of block.now)) < 2 ^ 32 }
    ensures passed { result ≡ passed (λ k. slice_index_or tris.now k No) (map (λ q. enforced under q.0) (props_in (block_of block.now))) from }
    ensures few { IfOk result (λ next. next + length (conditions_of_disjunctions under (disjunctions_in (block_of block.now))) < 2 ^ 32) }
{
    pass_props(block.props(), under, tris, from)
}

// Passes the conditions of propositions.
fn pass_props(
    props: &[(Prop, u32)],
    under: Option<u32>,
    tris: &[Tri],
    from: u32,
) -> Result<u32, u32>
    requires below { name_only_first (length tris.now) (props_of props.now) ≡ true }
    requires few { from + length props.now < 2 ^ 32 }
    ensures { result ≡ passed (λ k. slice_index_or tris.now k No) (map (λ q. enforced under q.0) (props_of props.now)) from }
{
    let mut next = from;
    for prop in props {
        if is_enforced_false(&prop.0, under, tris) {
            return Err(next);
        }
        next += 1;
    }
    Ok(next)
}

// Passes the items of disjunctions, each followed by those of its disjuncts' blocks.
#[cycle(items)]
fn pass_disjunctions(
    disjunctions: &[Disjunction],
    under: Option<u32>,
    tris: &[Tri],
    from: u32,
) -> Result<u32, u32>
    requires below { are_disjunctions_below (length tris.now) (disjunctions_of disjunctions.now) ≡ true }
    requires few { from + length (conditions_of_disjunctions under (disjunctions_of disjunctions.now)) < 2 ^ 32 }
    ensures { result ≡ passed (λ k. slice_index_or tris.now k No) (conditions_of_disjunctions under (disjunctions_of disjunctions.now)) from }
{
    let mut next = from;
    for disjunction in disjunctions {
        match pass_disjunction(disjunction, under, tris, next) {
            Ok(after) => next = after,
            Err(item) => return Err(item),
        }
    }
    Ok(next)
}

// Passes a disjunction and the items of its disjuncts' blocks.
#[cycle(items)]
fn pass_disjunction(
    disjunction: &Disjunction,
    under: Option<u32>,
    tris: &[Tri],
    from: u32,
) -> Result<u32, u32>
    requires below { are_disjuncts_below (length tris.now) (disjunction_of disjunction.now).1 ≡ true }
    requires few { from + 1 + length (conditions_of_disjuncts (disjunction_of disjunction.now).1) < 2 ^ 32 }
    ensures { result ≡ passed (λ k. slice_index_or tris.now k No)
        (choice under (disjunction_of disjunction.now).0.mode (disjunction_of disjunction.now).1
        ∷ conditions_of_disjuncts (disjunction_of disjunction.now).1) from }
{
    if is_choice_false(disjunction, under, tris) {
        return Err(from);
    }
    pass_disjuncts(disjunction.disjuncts(), tris, from + 1)
}

// Passes the items of disjuncts' blocks.
#[cycle(items)]
fn pass_disjuncts(disjuncts: &[Disjunct], tris: &[Tri], from: u32) -> Result<u32, u32>
    requires below { are_disjuncts_below (length tris.now) (disjuncts_of disjuncts.now) ≡ true }
    requires few { from + length (conditions_of_disjuncts (disjuncts_of disjuncts.now)) < 2 ^ 32 }
    ensures { result ≡ passed (λ k. slice_index_or tris.now k No) (conditions_of_disjuncts (disjuncts_of disjuncts.now)) from }
{
    let mut next = from;
    for disjunct in disjuncts {
        match pass_disjunct(disjunct, tris, next) {
            Ok(after) => next = after,
            Err(item) => return Err(item),
        }
    }
    Ok(next)
}

// Passes the items of a disjunct's block.
#[cycle(items)]
fn pass_disjunct(disjunct: &Disjunct, tris: &[Tri], from: u32) -> Result<u32, u32>
    requires below { is_block_below (length tris.now) (disjunct_of disjunct.now).1 ≡ true }
    requires few { from + length (conditions_in (Some (disjunct_of disjunct.now).0.indicator) (disjunct_of disjunct.now).1) < 2 ^ 32 }
    ensures { result ≡ passed (λ k. slice_index_or tris.now k No)
        (conditions_in (Some (disjunct_of disjunct.now).0.indicator) (disjunct_of disjunct.now).1) from }
{
    pass_block(disjunct.block(), Some(disjunct.indicator()), tris, from)
}
